//! The lines of a script, as C gets them. include/vlm.h describes the members.

ghost use Rattle.std.specs.Prelude.{◌≡◌, length};
ghost use Rattle.vlm_words.specs.Padding.{padded};
ghost use Rattle.vlm_capi.specs.ScriptLines.{fault_number, line_of_kind, line_struct, read_struct, with_request};

use crate::arguments::{VlmDeclaration, VlmDequeue, VlmRequest, VlmSetting};
use crate::padding::{given_name_cells, process_name_cells};
use crate::step_structs::{
    conversion_struct, declaration_struct, dequeue_struct, no_declaration, no_dequeue, no_request,
    no_setting, request_struct, setting_struct,
};
use std::mem::size_of;
use vlm_lines::{Line, LineFault, ProcessName};
use vlm_words::steps::NewRequest;

// The `size` that C writes into the struct.
pub(crate) const LINE_SIZE: u32 = 464;

const _: () = prove!(size_of::<VlmLine>() == 464);

// The kinds of line, as include/vlm.h names them.
const EMPTY: u32 = 0;

pub(crate) const DECLARE: u32 = 1;

const SET: u32 = 2;

const ENQ: u32 = 3;

const CVT: u32 = 4;

const DEQ: u32 = 5;

const END: u32 = 6;

pub(crate) const LEAVE: u32 = 7;

pub(crate) const SEARCH: u32 = 8;

const AST: u32 = 9;

const BLOCK: u32 = 10;

const TAIL: u32 = 11;

const SHOW: u32 = 12;

const TAILS: u32 = 13;

/// A line of a script.
#[repr(C)]
#[derive(Clone, Copy)]
pub struct VlmLine {
    /// The size of the struct in bytes.
    pub size: u32,
    /// What the line asks for. It says which of the other members count.
    pub kind: u32,
    /// 0, or the fault of the line, which then has kind 0.
    pub fault: u32,
    /// A node, or a status block.
    pub number: u32,
    /// How many bytes `name` has.
    pub name_len: u32,
    /// How many bytes `resource` has.
    pub resource_len: u32,
    /// `name_len` bytes, then zeros: the name of a process.
    pub name: [u8; 16],
    /// `resource_len` bytes, then zeros: the name of a resource.
    pub resource: [u8; 32],
    /// The step of a declaration, or zeros.
    pub declaration: VlmDeclaration,
    /// The step that sets a value block, or zeros.
    pub setting: VlmSetting,
    /// A request for a new lock, or a conversion.
    pub request: VlmRequest,
    /// The step of a dequeue, or zeros.
    pub dequeue: VlmDequeue,
    /// All zero.
    pub reserved: [u32; 2],
}

fn fault_number(fault: LineFault) -> u32
    ensures { result ≡ fault_number fault }
{
    match fault {
        LineFault::TooLong => 1,
        LineFault::UnknownCommand => 2,
        LineFault::WrongWord => 3,
        LineFault::NumberOutOfRange => 4,
        LineFault::UnknownName => 5,
        LineFault::NameUsed => 6,
    }
}

fn empty_line() -> VlmLine
    ensures { result ≡ line_of_kind 0 }
{
    VlmLine {
        size: LINE_SIZE,
        kind: EMPTY,
        fault: 0,
        number: 0,
        name_len: 0,
        resource_len: 0,
        name: [0; 16],
        resource: [0; 32],
        declaration: no_declaration(),
        setting: no_setting(),
        request: no_request(),
        dequeue: no_dequeue(),
        reserved: [0; 2],
    }
}

// Names the process of a line, and says its kind.
fn name_line(kind: u32, process: ProcessName, line: &mut VlmLine)
    ensures { line.new ≡ record line.old { kind = kind; name_len = length process; name = padded 16 process } }
{
    let (name, name_len) = process_name_cells(process);
    line.kind = kind;
    line.name_len = name_len;
    line.name = name;
}

// Names the process of a line, and says its kind and the number of a status block.
fn block_line(kind: u32, process: ProcessName, number: u8, line: &mut VlmLine)
    ensures { line.new ≡ record line.old {
      kind = kind;
      number = number;
      name_len = length process;
      name = padded 16 process;
    } }
{
    name_line(kind, process, line);
    line.number = u32::from(number);
}

// Says the kind of a line, and the number of a node.
fn node_line(kind: u32, number: u8, line: &mut VlmLine)
    ensures { line.new ≡ record line.old { kind = kind; number = number } }
{
    line.kind = kind;
    line.number = u32::from(number);
}

fn write_request(request: NewRequest, line: &mut VlmLine)
    ensures { line.new ≡ with_request line.old request }
{
    let (resource, resource_len) = given_name_cells(request.name);
    line.resource_len = resource_len;
    line.resource = resource;
    line.request = request_struct(request);
}

// Writes a line over an empty one.
fn write_line(read: Line, line: &mut VlmLine)
    requires empty { line.old ≡ line_of_kind 0 }
    ensures written { line.new ≡ line_struct read }
{
    match read {
        Line::Empty => {}
        Line::Declare(name, declaration) => {
            name_line(DECLARE, name, line);
            line.declaration = declaration_struct(declaration);
        }
        Line::Set(name, setting) => {
            name_line(SET, name, line);
            line.setting = setting_struct(setting);
        }
        Line::Enq(name, request) => {
            name_line(ENQ, name, line);
            write_request(request, line);
        }
        Line::Cvt(name, conversion) => {
            name_line(CVT, name, line);
            line.request = conversion_struct(conversion);
        }
        Line::Deq(name, dequeue) => {
            name_line(DEQ, name, line);
            line.dequeue = dequeue_struct(dequeue);
        }
        Line::End(name) => name_line(END, name, line),
        Line::Leave(node) => node_line(LEAVE, node, line),
        Line::Search(node) => node_line(SEARCH, node, line),
        Line::Ast(name) => name_line(AST, name, line),
        Line::Block(name, number) => block_line(BLOCK, name, number, line),
        Line::Tail(name, number) => block_line(TAIL, name, number, line),
        Line::Show => line.kind = SHOW,
        Line::Tails => line.kind = TAILS,
    }
}

/// Writes the struct of a line that was read, or of its fault.
pub(crate) fn write_read(read: Result<Line, LineFault>, line: &mut VlmLine)
    ensures { line.new ≡ read_struct read }
{
    *line = empty_line();
    match read {
        Ok(read) => write_line(read, line),
        Err(fault) => line.fault = fault_number(fault),
    }
}
