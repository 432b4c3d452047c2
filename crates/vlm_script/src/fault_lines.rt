//! The lines that faults print.

ghost use Rattle.std.specs.Prelude.{◌++◌, codes, decimal, OnOk, OnErr};
ghost use Rattle.std.specs.Io.KnownBytes.{Appends};
ghost use Rattle.vlm_lines.specs.Faults.{fault_text};
ghost use Rattle.vlm_script.specs.Faults.{fault_line, play_fault_text};
ghost use Rattle.vlm_script.specs.Plays.{PassesPart};

use crate::faults::PlayFault;
use crate::streams::write_whole;
use itoa::Buffer;
use std::io::Write;
use vlm_lines::LineFault;

impl PlayFault {
    /// Writes the fault's text and a line feed. If a write fails or takes no byte, only a first part of them is
    /// written, and the fault is `Write`. It takes no memory.
    pub fn write_line<W: Write>(&self, writer: &mut W) -> Result<(), PlayFault>
        ensures whole { OnOk result
            (Appends (W.contents writer.old) (W.contents writer.new) (fault_line self.now)) }
        ensures part { OnErr result
            (PassesPart (W.contents writer.old) (W.contents writer.new) (fault_line self.now)) }
    {
        self.write_text(writer)?;
        write_whole(writer, b"\n")
    }

    fn write_text<W: Write>(&self, writer: &mut W) -> Result<(), PlayFault>
        ensures whole { OnOk result
            (Appends (W.contents writer.old) (W.contents writer.new) (play_fault_text self.now)) }
        ensures part { OnErr result
            (PassesPart (W.contents writer.old) (W.contents writer.new)
            (play_fault_text self.now)) }
    {
        match self {
            PlayFault::Line(number, fault) => write_line_fault(*number, *fault, writer),
            PlayFault::Memory => write_whole(writer, b"memory"),
            PlayFault::Read => write_whole(writer, b"read"),
            PlayFault::Write => write_whole(writer, b"write"),
            PlayFault::Long => write_whole(writer, b"script too long"),
        }
    }
}

fn write_line_fault<W: Write>(
    number: usize,
    fault: LineFault,
    writer: &mut W,
) -> Result<(), PlayFault>
    ensures whole { OnOk result (Appends (W.contents writer.old) (W.contents writer.new)
        (codes "line " ++ decimal number ++ codes ": " ++ fault_text fault)) }
    ensures part { OnErr result (PassesPart (W.contents writer.old) (W.contents writer.new)
        (codes "line " ++ decimal number ++ codes ": " ++ fault_text fault)) }
{
    let mut buffer = Buffer::new();
    write_whole(writer, b"line ")?;
    write_whole(writer, buffer.format(number).as_bytes())?;
    write_whole(writer, b": ")?;
    write_whole(writer, fault.text().as_bytes())
}
