//! The structs that C gets of the entries of the journal.

ghost use Rattle.std.specs.Prelude.{◌≡◌, ◌≤◌, ◌++◌, length};
ghost use Rattle.vlm_capi.specs.Entries.{ast_in, declaration_in, dequeue_in, entry_of, name_in, named_node, named_process, request_in, setting_in, step_number, written};
ghost use Rattle.vlm_words.specs.Padding.{padded};

use crate::arguments::{VlmDeclaration, VlmDequeue, VlmRequest, VlmSetting};
use crate::padding::given_name_cells;
use crate::replies::{VlmAst, answer_number, answer_status, ast_of, no_ast};
use crate::step_structs::{
    conversion_struct, declaration_struct, dequeue_struct, no_declaration, no_dequeue, no_request,
    no_setting, request_struct, setting_struct,
};
use std::mem::size_of;
use vlm_ports::Entry;
use vlm_words::steps::{Answer, Step};

// The `size` that C writes into each struct.
pub(crate) const ENTRY_SIZE: u32 = 512;

pub(crate) const CUT_SIZE: u32 = 32;

const _: () = prove!(size_of::<VlmEntry>() == 512);

const _: () = prove!(size_of::<VlmCut>() == 32);

/// An entry of the journal. include/vlm_hub.h describes its members.
#[repr(C)]
#[derive(Clone, Copy)]
pub struct VlmEntry {
    /// The size of the struct in bytes.
    pub size: u32,
    /// The node that posted the step, or 0 for the hub itself.
    pub sender: u32,
    /// Which step it is, 1 (Declare) to 9 (Take).
    pub step: u32,
    /// The process that a Rundown or a Take names.
    pub pid: u32,
    /// The node that a Leave or a Search names.
    pub node: u32,
    /// The condition of the answer.
    pub status: u32,
    /// The ID in the answer, or 0.
    pub number: u32,
    /// The length of the name of a new request, or 0 if its bytes were no name.
    pub name_len: u32,
    /// The AST that a Take took, or none.
    pub ast: VlmAst,
    /// `name_len` bytes, then zeros.
    pub name: [u8; 32],
    /// The step of a declaration, or zeros.
    pub declaration: VlmDeclaration,
    /// The step that sets a value block, or zeros.
    pub setting: VlmSetting,
    /// The step of a request, or zeros.
    pub request: VlmRequest,
    /// The step of a dequeue, or zeros.
    pub dequeue: VlmDequeue,
    /// All zero.
    pub reserved: [u32; 8],
}

/// What C gets of a cut.
#[repr(C)]
#[derive(Clone, Copy)]
pub struct VlmCut {
    /// The size of the struct in bytes.
    pub size: u32,
    /// The size of an entry.
    pub entry_size: u32,
    /// How many entries were handed out before.
    pub base: u64,
    /// How many entries were written.
    pub count: u64,
    /// All zero.
    pub reserved: [u32; 2],
}

fn step_number(step: &Step) -> u32
    ensures { result ≡ step_number step.now }
{
    match step {
        Step::Declare(_) => 1,
        Step::SetValue(_) => 2,
        Step::Enq(_) => 3,
        Step::Convert(_) => 4,
        Step::Deq(_) => 5,
        Step::Rundown(_) => 6,
        Step::Leave(_) => 7,
        Step::Search(_) => 8,
        Step::Take(_) => 9,
    }
}

fn named_process(step: &Step) -> u32
    ensures { result ≡ named_process step.now }
{
    match step {
        Step::Rundown(pid) | Step::Take(pid) => *pid,
        _ => 0,
    }
}

fn named_node(step: &Step) -> u32
    ensures { result ≡ named_node step.now }
{
    match step {
        Step::Leave(node) | Step::Search(node) => u32::from(*node),
        _ => 0,
    }
}

pub(crate) fn ast_in(answer: &Answer) -> VlmAst
    ensures { result ≡ ast_in answer.now }
{
    match answer {
        Answer::Taken(Some(ast)) => ast_of(ast),
        _ => no_ast(),
    }
}

fn name_in(step: &Step) -> ([u8; 32], u32)
    ensures cells { result.0 ≡ padded 32 (name_in step.now) }
    ensures len { result.1 ≡ length (name_in step.now) }
{
    match step {
        Step::Enq(request) => given_name_cells(request.name),
        _ => ([0; 32], 0),
    }
}

fn declaration_in(step: &Step) -> VlmDeclaration
    ensures { result ≡ declaration_in step.now }
{
    match step {
        Step::Declare(declaration) => declaration_struct(*declaration),
        _ => no_declaration(),
    }
}

fn setting_in(step: &Step) -> VlmSetting
    ensures { result ≡ setting_in step.now }
{
    match step {
        Step::SetValue(setting) => setting_struct(*setting),
        _ => no_setting(),
    }
}

fn request_in(step: &Step) -> VlmRequest
    ensures { result ≡ request_in step.now }
{
    match step {
        Step::Enq(request) => request_struct(*request),
        Step::Convert(conversion) => conversion_struct(*conversion),
        _ => no_request(),
    }
}

fn dequeue_in(step: &Step) -> VlmDequeue
    ensures { result ≡ dequeue_in step.now }
{
    match step {
        Step::Deq(dequeue) => dequeue_struct(*dequeue),
        _ => no_dequeue(),
    }
}

pub(crate) fn entry_of(entry: &Entry) -> VlmEntry
    ensures { result ≡ entry_of entry.now }
{
    let (name, name_len) = name_in(&entry.step);
    VlmEntry {
        size: ENTRY_SIZE,
        sender: u32::from(entry.sender),
        step: step_number(&entry.step),
        pid: named_process(&entry.step),
        node: named_node(&entry.step),
        status: answer_status(&entry.answer),
        number: answer_number(&entry.answer),
        name_len,
        ast: ast_in(&entry.answer),
        name,
        declaration: declaration_in(&entry.step),
        setting: setting_in(&entry.step),
        request: request_in(&entry.step),
        dequeue: dequeue_in(&entry.step),
        reserved: [0; 8],
    }
}

/// Writes the entries into the first elements of a slice that has room for them.
pub(crate) fn write_entries(entries: &[Entry], out: &mut [VlmEntry])
    requires { length entries.now ≤ length out.old }
    ensures { out.new ≡ written entries.now out.old }
{
    for at in 0..entries.len() {
        out[at] = entry_of(&entries[at]);
    }
}
