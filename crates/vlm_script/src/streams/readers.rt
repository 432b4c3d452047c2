//! Reads a reader to its end.

ghost use Rattle.std.specs.Prelude.{◌≡◌, ◌≤◌, ◌+◌, ◌^◌, ℕ, List, ◌++◌, ◌⊎◌, length, vec_len, IfOk, OnOk, IfErr, OnErr, IfSome, IsErrOf};
ghost use Rattle.std.specs.Io.KnownBytes.{Consumes, IsAtEnd};
ghost use Rattle.vlm_script.specs.Plays.{ConsumesAtMost, ReadsScript};

use crate::faults::PlayFault;
use std::alloc::Global;
use std::io::Read;

// The most bytes that a script may have.
const LIMIT: usize = 16_777_216;

const PIECE: usize = 8192;

/// All the bytes of the reader. If they are more than the limit, it reads one byte past it, and the fault is `Long`.
pub(crate) fn read_whole<R: Read>(alloc: Global, reader: &mut R) -> Result<Vec<u8>, PlayFault>
    ensures whole { IfOk result (λ bytes.
        IfSome (R.remaining reader.old) (λ input. bytes.items ≡ input)) }
    ensures script { OnOk result (ReadsScript (R.remaining reader.old) (R.remaining reader.new)) }
    ensures long { IsErrOf result PlayFault.Long → (bytes : List ℕ)
        × (length bytes ≡ 2 ^ 24 + 1)
        × Consumes (R.remaining reader.old) (R.remaining reader.new) bytes }

    ensures part { OnErr result
        (ConsumesAtMost 16777217 (R.remaining reader.old) (R.remaining reader.new)) }
    ensures faults { IfErr result (λ fault.
        (fault ≡ PlayFault.Memory) ⊎ (fault ≡ PlayFault.Read) ⊎ (fault ≡ PlayFault.Long)) }
{
    let mut input = Vec::new(alloc);
    while input.len() <= LIMIT {
        let count = read_on(reader, &mut input)?;
        if count == 0 {
            return Ok(input);
        }
    }
    Err(PlayFault::Long)
}

// Appends one read to the input, which then has at most one byte more than the limit.
fn read_on<R: Read>(reader: &mut R, input: &mut Vec<u8>) -> Result<usize, PlayFault>
    requires { vec_len input.old ≤ 2 ^ 24 }
    ensures read { IfOk result (λ count. (bytes : List ℕ)
        × (length bytes ≡ count)
        × (input.new.items ≡ input.old.items ++ bytes)
        × Consumes (R.remaining reader.old) (R.remaining reader.new) bytes) }
    ensures end { IfOk result (λ count. count ≡ 0 → IsAtEnd (R.remaining reader.new)) }
    ensures within { vec_len input.new ≤ 2 ^ 24 + 1 }
    ensures part { OnErr result ((bytes : List ℕ)
        × (vec_len input.old + length bytes ≤ 2 ^ 24 + 1)
        × Consumes (R.remaining reader.old) (R.remaining reader.new) bytes) }
    ensures faults { IfErr result (λ fault. (fault ≡ PlayFault.Memory) ⊎ (fault ≡ PlayFault.Read)) }
{
    let mut piece = [0; PIECE];
    let room = (LIMIT + 1 - input.len()).min(PIECE);
    let count = reader
        .read(&mut piece[..room])
        .map_err(|_| PlayFault::Read)?;
    input.extend_from_slice(&piece[..count])?;
    Ok(count)
}
