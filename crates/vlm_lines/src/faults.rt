//! The faults of a line of a script.

ghost use Rattle.std.specs.Prelude.{◌≡◌};
ghost use Rattle.vlm_lines.specs.Faults.{fault_text};

/// A fault of a line of a script.
#[derive(Clone, Copy, Debug)]
pub enum LineFault {
    /// More than 255 bytes.
    TooLong,
    /// The first word is no command.
    UnknownCommand,
    /// A word has the wrong form for its place, comes twice, is one too many, or is missing.
    WrongWord,
    /// A number has more than 10 digits or is outside its range.
    NumberOutOfRange,
    /// A name is not bound to a process.
    UnknownName,
    /// A declare line names a process whose name is bound already.
    NameUsed,
}

impl LineFault {
    /// The text of the fault, as it is printed.
    pub fn text(self) -> &'static str
        ensures { result.now ≡ fault_text self }
    {
        match self {
            LineFault::TooLong => "too long",
            LineFault::UnknownCommand => "unknown command",
            LineFault::WrongWord => "wrong word",
            LineFault::NumberOutOfRange => "number out of range",
            LineFault::UnknownName => "unknown name",
            LineFault::NameUsed => "name used",
        }
    }
}
