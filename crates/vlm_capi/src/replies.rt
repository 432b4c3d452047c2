//! Turns the answer of the machine into the values that a call returns and writes.

ghost use Rattle.std.specs.Prelude.{◌≡◌};
ghost use Rattle.vlm_words.specs.Conditions.{condition_number};
ghost use Rattle.vlm_capi.specs.Replies.{answer_number, answer_status, ast_of, ast_written, kind_number, no_ast, take_of};

use std::mem::size_of;
use vlm_words::asts::{Ast, AstKind};
use vlm_words::conditions::Cond;
use vlm_words::steps::Answer;

/// The `size` that C writes into the struct.
pub(crate) const AST_SIZE: u32 = 32;

const _: () = prove!(size_of::<VlmAst>() == 32);

/// A taken AST. include/vlm.h describes its members.
#[repr(C)]
#[derive(Clone, Copy)]
pub struct VlmAst {
    /// The size of the struct in bytes.
    pub size: u32,
    /// 0 for no AST, 1 for completion, 2 for blocking.
    pub kind: u32,
    /// The request named it, and gave `param` for it.
    pub routine: u32,
    /// What the routine gets.
    pub param: u32,
    /// The lock that the AST is about.
    pub lkid: u32,
    /// All zero.
    pub reserved: [u32; 3],
}

pub(crate) fn status(cond: Cond) -> u32
    ensures { result ≡ condition_number cond }
{
    u32::from(cond.number())
}

pub(crate) fn answer_status(answer: &Answer) -> u32
    ensures { result ≡ answer_status answer.now }
{
    match answer {
        Answer::Process(_) | Answer::Victim(_) | Answer::Taken(_) => status(Cond::Normal),
        Answer::Lock(cond, _) | Answer::Plain(cond) => status(*cond),
    }
}

/// The ID in an answer, or 0: a process, a lock, or the lock of a victim.
pub(crate) fn answer_number(answer: &Answer) -> u32
    ensures { result ≡ answer_number answer.now }
{
    match answer {
        Answer::Process(number) | Answer::Lock(_, number) | Answer::Victim(Some(number)) => *number,
        _ => 0,
    }
}

pub(crate) fn kind_number(kind: AstKind) -> u32
    ensures { result ≡ kind_number kind }
{
    match kind {
        AstKind::Completion => 1,
        AstKind::Blocking => 2,
    }
}

/// Checks the size of the struct that receives the AST.
pub(crate) fn take_of(pid: u32, size: u32) -> Option<u32>
    ensures { result ≡ take_of pid size }
{
    if size == AST_SIZE { Some(pid) } else { None }
}

pub(crate) fn ast_of(ast: &Ast) -> VlmAst
    ensures { result ≡ ast_of ast.now }
{
    VlmAst {
        size: AST_SIZE,
        kind: kind_number(ast.kind),
        routine: ast.routine,
        param: ast.param,
        lkid: ast.lkid,
        reserved: [0; 3],
    }
}

pub(crate) fn no_ast() -> VlmAst
    ensures { result ≡ no_ast }
{
    VlmAst {
        size: AST_SIZE,
        kind: 0,
        routine: 0,
        param: 0,
        lkid: 0,
        reserved: [0; 3],
    }
}

/// Writes the taken AST; without one it writes that none is pending. A refusal writes nothing.
pub(crate) fn write_ast(answer: &Answer, out: &mut VlmAst)
    ensures { out.new ≡ ast_written answer.now out.old }
{
    match answer {
        Answer::Taken(Some(ast)) => *out = ast_of(ast),
        Answer::Taken(None) => *out = no_ast(),
        _ => {}
    }
}
