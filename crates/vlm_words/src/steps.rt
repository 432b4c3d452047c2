//! The steps of the machine and their answers.

ghost use Rattle.std.specs.Prelude.{◌≡◌};
ghost use Rattle.vlm_words.specs.Steps.{node_of};

use crate::asts::Ast;
use crate::conditions::Cond;
use crate::ids::process_node;
use crate::modes::Mode;
use crate::names::NameArg;

/// A lock, named by its ID or by a status block of the caller. A block names the lock whose
/// ID is in it when the step is made.
#[derive(Clone, Copy)]
pub enum Which {
    /// Its ID.
    Id(u32),
    /// The number of a status block.
    Block(u8),
}

/// The step that makes a process.
#[derive(Clone, Copy)]
pub struct Declaration {
    /// Its node, 1 to 8.
    pub node: u8,
    /// Its UIC group.
    pub group: u16,
    /// Whether it has the privilege SYSLCK.
    pub syslck: bool,
    /// How many locks it may have, waiting ones included (ENQLM).
    pub quota: u16,
    /// How many status blocks it has, numbered from 1.
    pub blocks: u8,
}

/// The step that writes the value part of a status block.
#[derive(Clone, Copy)]
pub struct ValueSetting {
    /// The caller.
    pub pid: u32,
    /// The number of the status block, from 1.
    pub block: u8,
    /// The new value part.
    pub value: [u8; 16],
    /// The new tail. If it is missing, the old tail stays.
    pub tail: Option<[u8; 48]>,
}

/// The step that asks for a new lock ($ENQ).
#[derive(Clone, Copy)]
pub struct NewRequest {
    /// The caller.
    pub pid: u32,
    /// The requested mode.
    pub mode: Mode,
    /// The name of the resource, not checked yet.
    pub name: NameArg,
    /// The number of the status block, from 1.
    pub block: u8,
    /// The parent lock. ID 0 names no parent.
    pub parent: Which,
    /// The flag bits, unknown ones included.
    pub flags: u16,
    /// The completion routine.
    pub ast: Option<u32>,
    /// The blocking routine.
    pub bast: Option<u32>,
    /// The parameter for both routines.
    pub param: u32,
}

/// The step that asks for another mode of a granted lock ($ENQ with LCK$M_CONVERT).
#[derive(Clone, Copy)]
pub struct Conversion {
    /// The caller.
    pub pid: u32,
    /// The lock to convert.
    pub lock: Which,
    /// The requested mode.
    pub mode: Mode,
    /// The number of the status block, from 1.
    pub block: u8,
    /// The flag bits, unknown ones included.
    pub flags: u16,
    /// The completion routine.
    pub ast: Option<u32>,
    /// The blocking routine.
    pub bast: Option<u32>,
    /// The parameter for both routines.
    pub param: u32,
}

/// The step that gives up locks, or cancels a request ($DEQ).
#[derive(Clone, Copy)]
pub struct Dequeue {
    /// The caller.
    pub pid: u32,
    /// The lock to give up. With DEQALL: the lock whose sublocks go, or 0 for all locks of the caller.
    pub lock: Which,
    /// The value to write to the value block, if the lock holds PW or EX.
    pub value: Option<[u8; 16]>,
    /// The tail to write with the value.
    pub tail: Option<[u8; 48]>,
    /// The flag bits, unknown ones included.
    pub flags: u16,
}

/// One event. The machine makes it whole, or refuses it and changes nothing.
#[derive(Clone, Copy)]
pub enum Step {
    /// Makes a process.
    Declare(Declaration),
    /// Writes the value part of a status block, and its tail if one is given.
    SetValue(ValueSetting),
    /// Asks for a new lock.
    Enq(NewRequest),
    /// Asks for another mode of a granted lock.
    Convert(Conversion),
    /// Gives up locks, or cancels a request.
    Deq(Dequeue),
    /// Ends a process: its locks, status blocks and ASTs go.
    Rundown(u32),
    /// A node departs: all its processes end.
    Leave(u8),
    /// Searches the whole machine for a deadlock. Any node may ask.
    Search(u8),
    /// Takes the oldest AST of a process.
    Take(u32),
}

impl Step {
    /// The node that makes the step: the named node, or the upper half of the caller's ID (own).
    pub fn node(&self) -> u16
        ensures { result ≡ node_of self.now }
    {
        match self {
            Step::Declare(declaration) => u16::from(declaration.node),
            Step::SetValue(setting) => process_node(setting.pid),
            Step::Enq(request) => process_node(request.pid),
            Step::Convert(conversion) => process_node(conversion.pid),
            Step::Deq(dequeue) => process_node(dequeue.pid),
            Step::Rundown(pid) | Step::Take(pid) => process_node(*pid),
            Step::Leave(node) | Step::Search(node) => u16::from(*node),
        }
    }
}

/// The answer to a step.
#[derive(Clone, Copy, Debug, PartialEq, Eq)]
pub enum Answer {
    /// A declaration was accepted. It made this process.
    Process(u32),
    /// A request was accepted, by NORMAL or SYNCH, for this lock.
    Lock(Cond, u32),
    /// A search was made. It ended the request of this lock, or found no deadlock.
    Victim(Option<u32>),
    /// A Take was made: the AST, if one was pending.
    Taken(Option<Ast>),
    /// All other answers, and every refusal.
    Plain(Cond),
}
