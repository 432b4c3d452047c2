//! The ASTs that are queued to processes.

/// Why an AST is queued.
#[derive(Clone, Copy, Debug, PartialEq, Eq)]
pub enum AstKind {
    /// A request of the process ended.
    Completion,
    /// A lock of the process blocks a queued request, which may be of the same process.
    Blocking,
}

/// One pending AST: the routine to run, and its parameter.
#[derive(Clone, Copy, Debug, PartialEq, Eq)]
pub struct Ast {
    /// Whether a request ended or a lock blocks.
    pub kind: AstKind,
    /// The number of the routine that the request named.
    pub routine: u32,
    /// The parameter that the request gave. Both its routines share it.
    pub param: u32,
    /// The lock whose request ended, or the lock that blocks.
    pub lkid: u32,
}
