//! The calls that read and print the lines of a script. include/vlm.h describes them for their callers.
//!
//! None of them takes memory. Each answers BADPARAM and writes nothing if a struct has another size, or if its members
//! are those of no line.

ghost use Rattle.std.specs.Prelude.{◌≡◌, ◌==◌, ◌&&◌, Some};
ghost use Rattle.std.specs.Option.{option_map};
ghost use Rattle.vlm_lines.specs.Lines.{line_read};
ghost use Rattle.vlm_lines.specs.Texts.{resource_line, row_line, status_block_line, status_tail_line, tail_line};
ghost use Rattle.vlm_capi.specs.Copies.{Told, sized};
ghost use Rattle.vlm_capi.specs.Keys.{key_of, queue_of};
ghost use Rattle.vlm_capi.specs.Lending.{core_of};
ghost use Rattle.vlm_capi.specs.Printed.{condition_of, row_told, status_printed, taken_printed, text_of, told_printed};
ghost use Rattle.vlm_capi.specs.ScriptLines.{read_struct};
ghost use Rattle.vlm_capi.specs.Shown.{block_there, found_shown};
ghost use Rattle.vlm_capi.specs.Structs.{node_of};

use crate::handle::Handle;
use crate::printed::{
    TEXT_SIZE, VlmText, row_told, write, write_block, write_tail, write_taken, write_told,
};
use crate::replies::{AST_SIZE, VlmAst, status};
use crate::resource_keys::queue_of;
use crate::script_lines::{LINE_SIZE, VlmLine, write_read};
use crate::shown::{LOCK_SIZE, RESOURCE_SIZE, VlmLock, VlmResource};
use vlm_lines::{read_line, resource_line, row_line, tail_line};
use vlm_words::conditions::Cond;

/// Reads a line of a script, without its line feed.
#[unsafe(no_mangle)]
pub extern "C" fn vlm_read_line(bytes: &[u8], line: &mut VlmLine) -> u32
    ensures { Told (sized (line.old.size == 464) (Some (read_struct (line_read bytes.now)))) line.old line.new result }
{
    if line.size != LINE_SIZE {
        return status(Cond::Badparam);
    }
    write_read(read_line(bytes), line);
    status(Cond::Normal)
}

/// Prints the answer to a line of a script.
#[unsafe(no_mangle)]
pub extern "C" fn vlm_print_answer(
    line: &VlmLine,
    cond: u32,
    number: u32,
    text: &mut VlmText,
) -> u32
    ensures { Told (sized ((line.now.size == 464) && (text.old.size == 256))
        (option_map text_of (told_printed line.now (condition_of cond) number))) text.old text.new result }
{
    if line.size != LINE_SIZE || text.size != TEXT_SIZE {
        return status(Cond::Badparam);
    }
    write_told(line, cond, number, text)
}

/// Prints what a Take was answered, or an AST that was taken for the process of a line.
#[unsafe(no_mangle)]
pub extern "C" fn vlm_print_ast(line: &VlmLine, cond: u32, ast: &VlmAst, text: &mut VlmText) -> u32
    ensures { Told (sized ((line.now.size == 464) && (ast.now.size == 32) && (text.old.size == 256))
        (option_map text_of (taken_printed line.now (condition_of cond) ast.now))) text.old text.new result }
{
    if line.size != LINE_SIZE || ast.size != AST_SIZE || text.size != TEXT_SIZE {
        return status(Cond::Badparam);
    }
    write_taken(line, cond, ast, text)
}

/// Prints the status block of a process that a line names.
#[unsafe(no_mangle)]
pub extern "C" fn vlm_print_block(
    handle: &mut Handle,
    pid: u32,
    line: &VlmLine,
    text: &mut VlmText,
) -> u32
    ensures told { Told (sized ((line.now.size == 464) && (text.old.size == 256))
        (option_map text_of (status_printed status_block_line line.now (node_of line.now.number)
        (block_there (core_of handle.old.slot.held) pid line.now.number)))) text.old text.new result }
    ensures same { handle.new.slot.held ≡ handle.old.slot.held }
{
    if line.size != LINE_SIZE || text.size != TEXT_SIZE {
        return status(Cond::Badparam);
    }
    write_block(line, handle.status_block(pid, line.number), text)
}

/// Prints the tail of a status block of a process that a line names.
#[unsafe(no_mangle)]
pub extern "C" fn vlm_print_tail(
    handle: &mut Handle,
    pid: u32,
    line: &VlmLine,
    text: &mut VlmText,
) -> u32
    ensures told { Told (sized ((line.now.size == 464) && (text.old.size == 256))
        (option_map text_of (status_printed status_tail_line line.now (node_of line.now.number)
        (block_there (core_of handle.old.slot.held) pid line.now.number)))) text.old text.new result }
    ensures same { handle.new.slot.held ≡ handle.old.slot.held }
{
    if line.size != LINE_SIZE || text.size != TEXT_SIZE {
        return status(Cond::Badparam);
    }
    write_tail(line, handle.status_block(pid, line.number), text)
}

/// Prints the resource that parent, domain and name of the struct name, without its queues.
#[unsafe(no_mangle)]
pub extern "C" fn vlm_print_resource(
    handle: &mut Handle,
    resource: &VlmResource,
    text: &mut VlmText,
) -> u32
    ensures told { Told (sized ((resource.now.size == 144) && (text.old.size == 256))
        (option_map (λ view. text_of (resource_line view))
        (found_shown (core_of handle.old.slot.held) (key_of resource.now)))) text.old text.new result }
    ensures same { handle.new.slot.held ≡ handle.old.slot.held }
{
    if resource.size != RESOURCE_SIZE || text.size != TEXT_SIZE {
        return status(Cond::Badparam);
    }
    match handle.find(resource) {
        Some(view) => write(&resource_line(&view), text),
        None => status(Cond::Badparam),
    }
}

/// Prints the tail of the value block of the resource that parent, domain and name of the struct name.
#[unsafe(no_mangle)]
pub extern "C" fn vlm_print_resource_tail(
    handle: &mut Handle,
    resource: &VlmResource,
    text: &mut VlmText,
) -> u32
    ensures told { Told (sized ((resource.now.size == 144) && (text.old.size == 256))
        (option_map (λ view. text_of (tail_line view))
        (found_shown (core_of handle.old.slot.held) (key_of resource.now)))) text.old text.new result }
    ensures same { handle.new.slot.held ≡ handle.old.slot.held }
{
    if resource.size != RESOURCE_SIZE || text.size != TEXT_SIZE {
        return status(Cond::Badparam);
    }
    match handle.find(resource) {
        Some(view) => write(&tail_line(&view), text),
        None => status(Cond::Badparam),
    }
}

/// Prints a lock in its queue.
#[unsafe(no_mangle)]
pub extern "C" fn vlm_print_lock(lock: &VlmLock, text: &mut VlmText) -> u32
    ensures { Told (sized ((lock.now.size == 64) && (text.old.size == 256))
        (option_map (λ queue. text_of (row_line queue (row_told lock.now))) (queue_of lock.now.queue)))
        text.old text.new result }
{
    if lock.size != LOCK_SIZE || text.size != TEXT_SIZE {
        return status(Cond::Badparam);
    }
    match queue_of(lock.queue) {
        Some(queue) => write(&row_line(queue, &row_told(lock)), text),
        None => status(Cond::Badparam),
    }
}
