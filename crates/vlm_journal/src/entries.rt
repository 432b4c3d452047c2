//! Entries of a journal, and items for a node.

use vlm_words::asts::Ast;
use vlm_words::steps::{Answer, Step};

/// One step that a hub made, with its answer.
#[derive(Clone, Copy)]
pub struct Entry {
    /// Who asked for it: a node, 1 to 8, or 0 for the hub itself.
    pub sender: u8,
    /// The step.
    pub step: Step,
    /// Its answer.
    pub answer: Answer,
}

/// An item that a hub sends to a node.
#[derive(Clone, Copy)]
pub enum Item {
    /// The answer to the node's oldest step that has no answer yet.
    Answer(Answer),
    /// An AST of one of the node's processes, with the ID of the process.
    Ast(u32, Ast),
}

/// A part of a journal, from one cut to the next.
#[derive(Drop)]
pub struct Part {
    /// How many entries came before it; `u64::MAX` if there were more.
    pub base: u64,
    /// Its entries, in order.
    pub entries: Vec<Entry>,
}
