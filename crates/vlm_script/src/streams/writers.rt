//! Writes bytes to the last one.

ghost use Rattle.std.specs.Prelude.{◌≡◌, OnOk, IfErr, OnErr};
ghost use Rattle.std.specs.Io.KnownBytes.{Appends};
ghost use Rattle.vlm_script.specs.Plays.{PassesPart};

use crate::faults::PlayFault;
use std::io::Write;

/// Writes all the bytes. If a write fails or takes no byte, only a first part is written, and the fault is `Write`. It
/// takes no memory.
pub fn write_whole<W: Write>(writer: &mut W, bytes: &[u8]) -> Result<(), PlayFault>
    ensures whole { OnOk result
        (Appends (W.contents writer.old) (W.contents writer.new) bytes.now) }
    ensures part { OnErr result
        (PassesPart (W.contents writer.old) (W.contents writer.new) bytes.now) }
    ensures fault { IfErr result (λ fault. fault ≡ PlayFault.Write) }
{
    let mut done = 0;
    while done < bytes.len() {
        match writer.write(&bytes[done..]) {
            Ok(0) | Err(_) => return Err(PlayFault::Write),
            Ok(count) => done += count,
        }
    }
    Ok(())
}
