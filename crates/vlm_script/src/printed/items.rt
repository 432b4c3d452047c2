//! Prints the items of nodes: the answers and ASTs that each node got.

ghost use Rattle.std.specs.Prelude.{◌≡◌, ◌++◌, OnOk};
ghost use Rattle.vlm_script.specs.Texts.{answer_item_line, ast_item_line, item_text, journal_line};

use super::texts::{decimal, decimal_usize, text};
use std::alloc::AllocError;
use vlm_lines::{answer_text, ast_text};
use vlm_words::asts::Ast;
use vlm_words::steps::Answer;

/// Appends `node K item J: TEXT` to `out`: item J of node K is an answer. Only a refused allocation is an error, and
/// then a part of the line may be in `out`.
#[tactic(auto, unfolding(crate::specs::Texts::answer_item_line))]
pub fn answer_item_line(
    out: &mut Vec<u8>,
    node: u8,
    number: usize,
    answer: Answer,
) -> Result<(), AllocError>
    ensures { OnOk result (out.new.items ≡ out.old.items ++ answer_item_line node number answer) }
{
    item_text(out, node, number)?;
    text(out, &answer_text(answer))?;
    text(out, b"\n")
}

/// Appends `node K item J: TEXT process P` to `out`: item J of node K is an AST of process P. Only a refused allocation
/// is an error, and then a part of the line may be in `out`.
#[tactic(auto, unfolding(crate::specs::Texts::ast_item_line))]
pub fn ast_item_line(
    out: &mut Vec<u8>,
    node: u8,
    number: usize,
    pid: u32,
    ast: Ast,
) -> Result<(), AllocError>
    ensures { OnOk result (out.new.items ≡ out.old.items ++ ast_item_line node number pid ast) }
{
    item_text(out, node, number)?;
    text(out, &ast_text(ast))?;
    text(out, b" process ")?;
    decimal(out, pid)?;
    text(out, b"\n")
}

/// Appends `journal M` to `out`: a journal has M entries. Only a refused allocation is an error, and then a part of the
/// line may be in `out`.
#[tactic(auto, unfolding(crate::specs::Texts::journal_line))]
pub fn journal_line(out: &mut Vec<u8>, entries: usize) -> Result<(), AllocError>
    ensures { OnOk result (out.new.items ≡ out.old.items ++ journal_line entries) }
{
    text(out, b"journal ")?;
    decimal_usize(out, entries)?;
    text(out, b"\n")
}

#[tactic(auto, unfolding(crate::specs::Texts::item_text))]
fn item_text(out: &mut Vec<u8>, node: u8, number: usize) -> Result<(), AllocError>
    ensures { OnOk result (out.new.items ≡ out.old.items ++ item_text node number) }
{
    text(out, b"node ")?;
    decimal(out, u32::from(node))?;
    text(out, b" item ")?;
    decimal_usize(out, number)?;
    text(out, b": ")
}
