//! The struct that C gets of an item.

ghost use Rattle.std.specs.Prelude.{◌≡◌};
ghost use Rattle.vlm_capi.specs.Items.{answer_item, ast_item, no_item};

use crate::replies::{VlmAst, answer_number, answer_status, ast_of, no_ast};
use std::mem::size_of;
use vlm_words::asts::Ast;
use vlm_words::steps::Answer;

// The `size` that C writes into the struct.
pub(crate) const ITEM_SIZE: u32 = 64;

const _: () = prove!(size_of::<VlmItem>() == 64);

/// An item for a node. include/vlm_hub.h describes its members.
#[repr(C)]
#[derive(Clone, Copy)]
pub struct VlmItem {
    /// The size of the struct in bytes.
    pub size: u32,
    /// 0 for no item, 1 for an answer, 2 for an AST.
    pub kind: u32,
    /// The condition of an answer.
    pub status: u32,
    /// The ID in an answer, or 0.
    pub number: u32,
    /// The process that an AST is for.
    pub pid: u32,
    /// All zero.
    pub reserved: [u32; 3],
    /// The AST, or none.
    pub ast: VlmAst,
}

pub(crate) fn answer_item(answer: &Answer) -> VlmItem
    ensures { result ≡ answer_item answer.now }
{
    VlmItem {
        size: ITEM_SIZE,
        kind: 1,
        status: answer_status(answer),
        number: answer_number(answer),
        pid: 0,
        reserved: [0; 3],
        ast: no_ast(),
    }
}

pub(crate) fn ast_item(pid: u32, ast: &Ast) -> VlmItem
    ensures { result ≡ ast_item pid ast.now }
{
    VlmItem {
        size: ITEM_SIZE,
        kind: 2,
        status: 0,
        number: 0,
        pid,
        reserved: [0; 3],
        ast: ast_of(ast),
    }
}

/// What C reads if no item has come.
pub(crate) fn no_item() -> VlmItem
    ensures { result ≡ no_item }
{
    VlmItem {
        size: ITEM_SIZE,
        kind: 0,
        status: 0,
        number: 0,
        pid: 0,
        reserved: [0; 3],
        ast: no_ast(),
    }
}
