//! Value blocks and their tails, written in hexadecimal digits.

ghost use Rattle.std.specs.Prelude.{◌≡◌};
ghost use Rattle.vlm_lines.specs.Lines.{bytes_of, tail_of, value_of};

use crate::faults::LineFault;
use hex::FromHex;

/// A value block: exactly 32 hexadecimal digits.
pub(crate) fn value_of(word: &[u8]) -> Result<[u8; 16], LineFault>
    ensures { result ≡ value_of word.now }
{
    bytes_of(word)
}

/// The tail of a value block: exactly 96 hexadecimal digits.
pub(crate) fn tail_of(word: &[u8]) -> Result<[u8; 48], LineFault>
    ensures { result ≡ tail_of word.now }
{
    bytes_of(word)
}

#[tactic(auto, using(crate::proofs::Hexadecimal::bytes_read))]
fn bytes_of<const N: usize>(word: &[u8]) -> Result<[u8; N], LineFault>
    ensures { result ≡ bytes_of N word.now }
{
    <[u8; N]>::from_hex(word).map_err(|_| LineFault::WrongWord)
}
