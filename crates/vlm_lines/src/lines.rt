//! The lines that a script may have.

use vlm_words::steps::{Conversion, Declaration, Dequeue, NewRequest, ValueSetting};
use vlm_words::texts::Text;

/// A script's name for a process: 1 to 15 bytes.
pub type ProcessName = Text<15>;

/// An ID that no process has. A step has it until the run knows which process makes the step.
pub const NO_PROCESS: u32 = 0;

/// A line without a fault. A line names its process, so its step has [`NO_PROCESS`] until the run puts in the process
/// of that name.
#[derive(Clone, Copy)]
pub enum Line {
    /// No word, or a comment: the first word begins with `#`.
    Empty,
    /// Declares a process under a name.
    Declare(ProcessName, Declaration),
    /// Sets the value part of a status block, or its tail with it.
    Set(ProcessName, ValueSetting),
    /// Asks for a new lock.
    Enq(ProcessName, NewRequest),
    /// Asks for another mode of a lock.
    Cvt(ProcessName, Conversion),
    /// Gives a lock up, or cancels its request.
    Deq(ProcessName, Dequeue),
    /// Ends a process with its locks.
    End(ProcessName),
    /// Lets a node depart with its processes.
    Leave(u8),
    /// Searches for a deadlock.
    Search(u8),
    /// Takes the oldest pending AST.
    Ast(ProcessName),
    /// Prints the status block of this number.
    Block(ProcessName, u8),
    /// Prints the tail of the status block of this number.
    Tail(ProcessName, u8),
    /// Prints every resource with its queues.
    Show,
    /// Prints the tail of the value block of every resource.
    Tails,
}
