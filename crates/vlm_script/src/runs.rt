//! Runs a script, from the reader's bytes to the writer's.

ghost use Rattle.std.specs.Prelude.{◌≡◌, IfSome, IfErr, OnOk, OnErr};
ghost use Rattle.vlm_script.specs.Plays.{EndsLines, Passes, PassesPart, Plays, ConsumesAtMost, ReadsFirst, ReadsScript, Wrote};

use crate::cuts::next_line;
use crate::faults::PlayFault;
use crate::session::Session;
use crate::streams::{read_whole, write_whole};
use std::alloc::Global;
use std::io::{Read, Write};
use vlm_core::HashKeys;

// When this many printed bytes wait, they are written. One line may add to them before that.
const WAITING: usize = 65_536;

/// Reads a script whole, runs its lines in order, and writes what they print.
///
/// A script has at most 16,777,216 bytes. The fault is `Long` as soon as one more byte is read. With `Read`, `Long`, or
/// `Memory` while it reads, nothing is written. A line with a fault ends the run with `Line`, after the text of the
/// lines before it is written. A refused allocation ends it in the same way with `Memory`. A write that fails or takes
/// no byte ends it with `Write`. A step that answers INSFMEM is printed like any other.
///
/// Memory grows with the script and with the state of the machine. Besides the steps, time grows with the bytes of the
/// script. Names that an attacker chooses make no script slow if the keys are secret.
pub fn play<R: Read, W: Write>(
    alloc: Global,
    keys: HashKeys,
    reader: &mut R,
    writer: &mut W,
) -> Result<(), PlayFault>
    ensures played { IfSome (R.remaining reader.old) (λ input.
        Wrote (W.contents writer.old) (W.contents writer.new) (Plays input result)) }

    ensures reads { ConsumesAtMost 16777217 (R.remaining reader.old) (R.remaining reader.new) }

    // The script is read to its end before anything is written.
    ensures first { ReadsFirst result
        (ReadsScript (R.remaining reader.old) (R.remaining reader.new))
        (W.contents writer.new ≡ W.contents writer.old) }
{
    let input = read_whole(alloc, reader)?;
    run_lines(alloc, keys, &input, writer)
}

// Runs the lines in a new session.
fn run_lines<W: Write>(
    alloc: Global,
    keys: HashKeys,
    input: &[u8],
    writer: &mut W,
) -> Result<(), PlayFault>
    ensures played { Wrote (W.contents writer.old) (W.contents writer.new)
        (Plays input.now result) }
    ensures faults { IfErr result EndsLines }
{
    let mut session = Session::new(alloc, keys);
    let mut out = Vec::new(alloc);
    let mut printed = Vec::new(alloc);
    let mut rest = input;
    let mut count = 0;
    while let Some((line, after)) = next_line(rest) {
        if let Err(stop) = session.run(line, &mut printed, &mut out) {
            write_whole(writer, &out)?;
            return Err(stop.at(count + 1));
        }
        write_when_full(&mut out, writer)?;
        rest = after;
        count += 1;
    }
    write_whole(writer, &out)
}

// Writes all waiting bytes once they are many.
fn write_when_full<W: Write>(out: &mut Vec<u8>, writer: &mut W) -> Result<(), PlayFault>
    ensures passed { OnOk result
        (Passes (W.contents writer.old) (W.contents writer.new) out.old.items out.new.items) }
    ensures part { OnErr result
        (PassesPart (W.contents writer.old) (W.contents writer.new) out.old.items) }
    ensures fault { IfErr result (λ fault. fault ≡ PlayFault.Write) }
{
    if out.len() >= WAITING {
        write_whole(writer, out)?;
        out.clear();
    }
    Ok(())
}
