//! The lines that C has printed.

ghost use Rattle.std.specs.Prelude.{◌≡◌, option_copied};
ghost use Rattle.std.specs.Option.{option_map};
ghost use Rattle.vlm_words.specs.declared.conditions.Cond.TheVariants.{Normal};
ghost use Rattle.vlm_words.specs.declared.steps.Answer.{Answer};
ghost use Rattle.vlm_words.specs.Conditions.{condition_number};
ghost use Rattle.vlm_lines.specs.Texts.{status_block_line, status_tail_line};
ghost use Rattle.vlm_capi.specs.Structs.{node_of};
ghost use Rattle.vlm_capi.specs.Copies.{Told};
ghost use Rattle.vlm_capi.specs.Printed.{IsToldOf, answer_printed, answer_told, ast_told, ast_with, condition_of, row_told, status_printed, taken_printed, taken_told, text_of, told_printed, under_name};

use crate::numbers::{mode_of, node_of};
use crate::padding::line_cells;
use crate::replies::{VlmAst, status};
use crate::script_lines::{DECLARE, LEAVE, SEARCH, VlmLine};
use crate::shown::VlmLock;
use std::mem::size_of;
use vlm_lines::{PrintedLine, answer_line, node_line, status_block_line, status_tail_line};
use vlm_queue::RowView;
use vlm_words::asts::{Ast, AstKind};
use vlm_words::blocks::Block;
use vlm_words::conditions::Cond;
use vlm_words::steps::Answer;

/// The `size` that C writes into the struct.
pub(crate) const TEXT_SIZE: u32 = 256;

const _: () = prove!(size_of::<VlmText>() == 256);

/// A printed line, with its line feed.
#[repr(C)]
#[derive(Clone, Copy)]
pub struct VlmText {
    /// The size of the struct in bytes.
    pub size: u32,
    /// How many bytes the line has.
    pub len: u32,
    /// `len` bytes, then zeros.
    pub bytes: [u8; 248],
}

/// Writes a printed line.
pub(crate) fn write(line: &PrintedLine, text: &mut VlmText) -> u32
    ensures line { text.new ≡ text_of line.now.items }
    ensures status { result ≡ condition_number Normal }
{
    let (bytes, len) = line_cells(line);
    *text = VlmText {
        size: TEXT_SIZE,
        len,
        bytes,
    };
    status(Cond::Normal)
}

#[tactic(auto, unfolding(crate::specs::Printed::condition_of))]
fn condition_of(number: u32) -> Option<Cond>
    ensures { result ≡ condition_of number }
{
    let cond = match number {
        1 => Cond::Normal,
        2 => Cond::Synch,
        3 => Cond::Notqueued,
        4 => Cond::Abort,
        5 => Cond::Cancel,
        6 => Cond::Deadlock,
        7 => Cond::Valnotvalid,
        8 => Cond::Cancelgrant,
        9 => Cond::Sublocks,
        10 => Cond::Ivlockid,
        11 => Cond::Cvtungrant,
        12 => Cond::Parnotgrant,
        13 => Cond::Exdepth,
        14 => Cond::Exenqlm,
        15 => Cond::Nolockid,
        16 => Cond::Insfmem,
        17 => Cond::Ivbuflen,
        18 => Cond::Badparam,
        19 => Cond::Unsupported,
        20 => Cond::Nosyslck,
        21 => Cond::Accvio,
        22 => Cond::Nonexpr,
        23 => Cond::Departed,
        24 => Cond::Widenotvalid,
        _ => return None,
    };
    Some(cond)
}

#[tactic(auto, using(crate::proofs::AnswersBack::told_back), unfolding(crate::specs::Printed::answer_told))]
fn answer_told(kind: u32, cond: Cond, number: u32) -> Answer
    ensures told { result ≡ answer_told kind cond number }
    ensures back { (answer : Answer) → IsToldOf kind cond number answer → result ≡ answer }
{
    if number == 0 {
        if kind == SEARCH && cond.number() == 1 {
            return Answer::Victim(None);
        }
        return Answer::Plain(cond);
    }
    match kind {
        DECLARE => Answer::Process(number),
        SEARCH => Answer::Victim(Some(number)),
        _ => Answer::Lock(cond, number),
    }
}

fn ast_with(kind: AstKind, ast: &VlmAst) -> Ast
    ensures { result ≡ ast_with kind ast.now }
{
    Ast {
        kind,
        routine: ast.routine,
        param: ast.param,
        lkid: ast.lkid,
    }
}

#[tactic(auto, unfolding(crate::specs::Printed::ast_told))]
fn ast_told(ast: &VlmAst) -> Option<Ast>
    ensures { result ≡ ast_told ast.now }
{
    match ast.kind {
        1 => Some(ast_with(AstKind::Completion, ast)),
        2 => Some(ast_with(AstKind::Blocking, ast)),
        _ => None,
    }
}

#[tactic(auto, unfolding(crate::specs::Printed::taken_told))]
fn taken_told(cond: Cond, ast: &VlmAst) -> Answer
    ensures { result ≡ taken_told cond ast.now }
{
    if cond.number() == 1 {
        Answer::Taken(ast_told(ast))
    } else {
        Answer::Plain(cond)
    }
}

// The name of the process that a line names, if it is no longer than such names are.
fn process_name(line: &VlmLine) -> Option<&[u8]>
    ensures { option_copied result ≡ under_name line.now (λ name. name) }
{
    if line.name_len > 15 {
        return None;
    }
    Some(&line.name[..line.name_len as usize])
}

#[tactic(auto, unfolding(crate::specs::Printed::answer_printed))]
fn write_answer(line: &VlmLine, answer: Answer, text: &mut VlmText) -> u32
    ensures { Told (option_map text_of (answer_printed line.now answer)) text.old text.new result }
{
    match line.kind {
        LEAVE => match node_of(line.number) {
            Some(node) => write(&node_line(node, answer), text),
            None => status(Cond::Badparam),
        },
        SEARCH => write(&answer_line(b"search", answer), text),
        _ => match process_name(line) {
            Some(name) => write(&answer_line(name, answer), text),
            None => status(Cond::Badparam),
        },
    }
}

/// Writes the line of an answer to a line of a script.
pub(crate) fn write_told(line: &VlmLine, cond: u32, number: u32, text: &mut VlmText) -> u32
    ensures { Told (option_map text_of (told_printed line.now (condition_of cond) number)) text.old text.new result }
{
    match condition_of(cond) {
        Some(cond) => write_answer(line, answer_told(line.kind, cond, number), text),
        None => status(Cond::Badparam),
    }
}

/// Writes the line of a taken AST.
pub(crate) fn write_taken(line: &VlmLine, cond: u32, ast: &VlmAst, text: &mut VlmText) -> u32
    ensures { Told (option_map text_of (taken_printed line.now (condition_of cond) ast.now)) text.old text.new result }
{
    match (process_name(line), condition_of(cond)) {
        (Some(name), Some(cond)) => write(&answer_line(name, taken_told(cond, ast)), text),
        _ => status(Cond::Badparam),
    }
}

/// Writes the line of the status block that a line names. It writes nothing without a core.
pub(crate) fn write_block(line: &VlmLine, shown: Option<Option<Block>>, text: &mut VlmText) -> u32
    ensures { Told (option_map text_of (status_printed status_block_line line.now (node_of line.now.number) shown))
        text.old text.new result }
{
    match (process_name(line), node_of(line.number), shown) {
        (Some(name), Some(number), Some(block)) => {
            write(&status_block_line(name, number, block), text)
        }
        _ => status(Cond::Badparam),
    }
}

/// Writes the line of the tail of the status block that a line names. It writes nothing without a core.
pub(crate) fn write_tail(line: &VlmLine, shown: Option<Option<Block>>, text: &mut VlmText) -> u32
    ensures { Told (option_map text_of (status_printed status_tail_line line.now (node_of line.now.number) shown))
        text.old text.new result }
{
    match (process_name(line), node_of(line.number), shown) {
        (Some(name), Some(number), Some(block)) => {
            write(&status_tail_line(name, number, block), text)
        }
        _ => status(Cond::Badparam),
    }
}

/// The lock of a struct.
pub(crate) fn row_told(lock: &VlmLock) -> RowView
    ensures { result ≡ row_told lock.now }
{
    RowView {
        lkid: lock.lkid,
        pid: lock.pid,
        held: mode_of(lock.held),
        want: mode_of(lock.want),
    }
}
