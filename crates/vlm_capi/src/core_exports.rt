//! The calls of a core. include/vlm.h describes them for their callers.
//!
//! Each checks all its arguments except pointers and handles. It answers BADPARAM and changes nothing if an argument
//! is malformed or the handle has no core. docs/MACHINE.md lists the refusals of each step, and their order.

ghost use Rattle.std.specs.Prelude.{◌≡◌, ◌==◌, None, Some};
ghost use Rattle.std.specs.Option.{option_map};
ghost use Rattle.vlm_words.specs.declared.steps.Step.TheVariants.{Convert, Declare, Deq, Enq, Leave, Rundown, Search, SetValue, Take};
ghost use Rattle.vlm_model.specs.Stepped.{Outcome};
ghost use Rattle.vlm_capi.specs.Lending.{LendsCore, core_of};
ghost use Rattle.vlm_capi.specs.Served.{AstReplied, OpenedIf, Replied, Served, StatusReplied, TakesFirst, TookAnyIf};
ghost use Rattle.vlm_capi.specs.Copies.{Told, sized};
ghost use Rattle.vlm_capi.specs.Victims.{VictimTold, lkid_or_0};
ghost use Rattle.vlm_capi.specs.Shown.{block_shown, count_shown, found_shown, lksb_of, next_process_shown, next_resource_shown, pending_shown, process_count_shown, process_or_none, queued_count_shown, resource_of, resource_or_none, lock_count_shown};
ghost use Rattle.vlm_capi.specs.Keys.{key_of};
ghost use Rattle.vlm_capi.specs.Replies.{take_of};
ghost use Rattle.vlm_capi.specs.Structs.{conversion_of, declaration_of, dequeue_of, is_options, node_of, request_of, setting_of};

use crate::arguments::{
    VERSION, VlmDeclaration, VlmDequeue, VlmOptions, VlmRequest, VlmSetting, conversion_of,
    declaration_of, dequeue_of, keys_of, request_of, setting_of,
};
use crate::copies::{copy_out, sized};
use crate::handle::Handle;
use crate::held::Held;
use crate::numbers::node_of;
use crate::replies::{
    AST_SIZE, VlmAst, answer_number, answer_status, no_ast, status, take_of, write_ast,
};
use crate::shown::{
    LKSB_SIZE, PROCESS_SIZE, RESOURCE_SIZE, VlmLksb, VlmProcess, VlmResource, lksb_of,
    process_or_none, resource_of, resource_or_none,
};
use std::alloc::Global;
use vlm_core::Core;
use vlm_words::conditions::Cond;
use vlm_words::steps::{Answer, Step};

/// The version of the library, as VLM_VERSION of its header has it.
#[unsafe(no_mangle)]
pub extern "C" fn vlm_version() -> u32
    ensures { result ≡ 512 }
{
    VERSION
}

/// Puts a new core into a handle that has nothing. The options must be of this version.
#[unsafe(no_mangle)]
pub extern "C" fn vlm_open(alloc: Global, handle: &mut Handle, options: &VlmOptions) -> u32
    ensures { OpenedIf (is_options options.now) handle.old.slot.held handle.new.slot.held result }
{
    let Some(keys) = keys_of(options) else {
        return status(Cond::Badparam);
    };
    if handle.is_open() {
        return status(Cond::Badparam);
    }
    match Box::new(alloc, Held::Core(Core::with_keys(alloc, keys))) {
        Ok(held) => {
            *handle = Handle::holding(held, alloc);
            status(Cond::Normal)
        }
        Err(_) => status(Cond::Insfmem),
    }
}

/// Frees what a handle has, if anything.
#[unsafe(no_mangle)]
pub extern "C" fn vlm_close(alloc: Global, handle: &mut Handle)
    ensures { handle.new.slot.held ≡ None }
{
    *handle = Handle::closed(alloc);
}

#[inline(always)]
fn lent_step(handle: &mut Handle, step: Step) -> Option<Answer>
    ensures { LendsCore (λ s r s'. Outcome s step s' r) handle.old.slot.held result handle.new.slot.held }
{
    handle.with_core(|core| core.apply(&step))
}

// Without a core or a step nothing changes, and the answer is BADPARAM.
#[inline(always)]
fn apply(handle: &mut Handle, step: Option<Step>) -> Answer
    ensures { Served handle.old.slot.held step handle.new.slot.held result }
{
    let Some(step) = step else {
        return Answer::Plain(Cond::Badparam);
    };
    match lent_step(handle, step) {
        Some(answer) => answer,
        None => Answer::Plain(Cond::Badparam),
    }
}

// Makes the step and writes the ID in the answer, or 0.
#[inline(always)]
fn reply(handle: &mut Handle, step: Option<Step>, number: &mut u32) -> u32
    ensures { Replied handle.old.slot.held step handle.new.slot.held result number.new }
{
    let answer = apply(handle, step);
    *number = answer_number(&answer);
    answer_status(&answer)
}

#[inline(always)]
fn status_reply(handle: &mut Handle, step: Option<Step>) -> u32
    ensures { StatusReplied handle.old.slot.held step handle.new.slot.held result }
{
    let answer = apply(handle, step);
    answer_status(&answer)
}

/// Declares a process and writes its ID, or 0.
#[unsafe(no_mangle)]
pub extern "C" fn vlm_declare(
    handle: &mut Handle,
    declaration: &VlmDeclaration,
    pid: &mut u32,
) -> u32
    ensures { Replied handle.old.slot.held (option_map Declare (declaration_of declaration.now))
        handle.new.slot.held result pid.new }
{
    let step = declaration_of(declaration).map(|step| Step::Declare(step));
    reply(handle, step, pid)
}

/// Sets the value part of a status block, and its tail if the caller gives one.
#[unsafe(no_mangle)]
pub extern "C" fn vlm_set_value(handle: &mut Handle, setting: &VlmSetting) -> u32
    ensures { StatusReplied handle.old.slot.held (option_map SetValue (setting_of setting.now))
        handle.new.slot.held result }
{
    let step = setting_of(setting).map(|step| Step::SetValue(step));
    status_reply(handle, step)
}

/// Asks for a new lock ($ENQ) and writes its ID, or 0.
#[unsafe(no_mangle)]
pub extern "C" fn vlm_enq(
    handle: &mut Handle,
    request: &VlmRequest,
    name: &[u8],
    lkid: &mut u32,
) -> u32
    ensures { Replied handle.old.slot.held (option_map Enq (request_of request.now name.now))
        handle.new.slot.held result lkid.new }
{
    let step = request_of(request, name).map(|step| Step::Enq(step));
    reply(handle, step, lkid)
}

/// Asks for another mode of a granted lock ($ENQ with LCK$M_CONVERT) and writes its ID, or 0.
#[unsafe(no_mangle)]
pub extern "C" fn vlm_convert(handle: &mut Handle, request: &VlmRequest, lkid: &mut u32) -> u32
    ensures { Replied handle.old.slot.held (option_map Convert (conversion_of request.now))
        handle.new.slot.held result lkid.new }
{
    let step = conversion_of(request).map(|step| Step::Convert(step));
    reply(handle, step, lkid)
}

/// Gives up locks, or cancels a request ($DEQ).
#[unsafe(no_mangle)]
pub extern "C" fn vlm_deq(handle: &mut Handle, dequeue: &VlmDequeue) -> u32
    ensures { StatusReplied handle.old.slot.held (option_map Deq (dequeue_of dequeue.now)) handle.new.slot.held result }
{
    let step = dequeue_of(dequeue).map(|step| Step::Deq(step));
    status_reply(handle, step)
}

/// Takes the oldest pending AST of a process and writes it, or that no AST is pending. A refusal writes nothing.
#[unsafe(no_mangle)]
pub extern "C" fn vlm_take(handle: &mut Handle, pid: u32, out: &mut VlmAst) -> u32
    ensures { AstReplied handle.old.slot.held (option_map Take (take_of pid out.old.size))
        handle.new.slot.held result out.old out.new }
{
    let step = take_of(pid, out.size).map(|pid| Step::Take(pid));
    let answer = apply(handle, step);
    write_ast(&answer, out);
    answer_status(&answer)
}

// A lock's ID, or 0 for none.
fn lkid_or_0(lkid: Option<u32>) -> u32
    ensures { result ≡ lkid_or_0 lkid }
{
    match lkid {
        Some(lkid) => lkid,
        None => 0,
    }
}

// Takes the oldest AST of the first process that has one, and answers that process with the answer of the Take. `None`
// if no AST is pending.
fn take_first(core: &mut Core) -> Option<(u32, Answer)>
    ensures { TakesFirst core.old result core.new }
{
    let pid = core.first_pending()?;
    Some((pid, core.take(pid)))
}

/// Takes the oldest AST of the first process that has one, and writes that process, or 0 if no AST is pending.
#[unsafe(no_mangle)]
pub extern "C" fn vlm_take_any(handle: &mut Handle, pid: &mut u32, out: &mut VlmAst) -> u32
    ensures { TookAnyIf (out.old.size == 32) handle.old.slot.held handle.new.slot.held result
        pid.new out.old out.new }
{
    *pid = 0;
    if out.size != AST_SIZE {
        return status(Cond::Badparam);
    }
    match handle.with_core(|core| take_first(core)) {
        Some(Some((taker, answer))) => {
            *pid = taker;
            write_ast(&answer, out);
            answer_status(&answer)
        }
        Some(None) => {
            *out = no_ast();
            status(Cond::Normal)
        }
        None => status(Cond::Badparam),
    }
}

/// Ends a process, with its locks, requests and ASTs.
#[unsafe(no_mangle)]
pub extern "C" fn vlm_rundown(handle: &mut Handle, pid: u32) -> u32
    ensures { StatusReplied handle.old.slot.held (Some (Rundown pid)) handle.new.slot.held result }
{
    status_reply(handle, Some(Step::Rundown(pid)))
}

/// Ends a node, with all its processes.
#[unsafe(no_mangle)]
pub extern "C" fn vlm_leave(handle: &mut Handle, node: u32) -> u32
    ensures { StatusReplied handle.old.slot.held (option_map Leave (node_of node)) handle.new.slot.held result }
{
    status_reply(handle, node_of(node).map(|node| Step::Leave(node)))
}

/// Searches for a deadlock, ends the request of its victim and writes the victim's lock, or 0.
#[unsafe(no_mangle)]
pub extern "C" fn vlm_search(handle: &mut Handle, node: u32, victim: &mut u32) -> u32
    ensures { Replied handle.old.slot.held (option_map Search (node_of node)) handle.new.slot.held result victim.new }
{
    reply(handle, node_of(node).map(|node| Step::Search(node)), victim)
}

/// Writes the lock whose request a search would end now, or 0.
#[unsafe(no_mangle)]
pub extern "C" fn vlm_find_victim(handle: &mut Handle, victim: &mut u32) -> u32
    ensures told { VictimTold (core_of handle.old.slot.held) victim.old victim.new result }
    ensures same { handle.new.slot.held ≡ handle.old.slot.held }
{
    let found = handle.find_victim();
    copy_out(found.map(|lkid| lkid_or_0(lkid)), victim)
}

/// Copies a status block of a process.
#[unsafe(no_mangle)]
pub extern "C" fn vlm_block(handle: &mut Handle, pid: u32, block: u32, out: &mut VlmLksb) -> u32
    ensures told { Told (sized (out.old.size == 80)
        (option_map lksb_of (block_shown (core_of handle.old.slot.held) pid block))) out.old out.new result }
    ensures same { handle.new.slot.held ≡ handle.old.slot.held }
{
    let shown = handle.block(pid, block).map(|block| lksb_of(&block));
    copy_out(sized(out.size == LKSB_SIZE, shown), out)
}

/// Counts the pending ASTs of a process.
#[unsafe(no_mangle)]
pub extern "C" fn vlm_pending(handle: &mut Handle, pid: u32, count: &mut usize) -> u32
    ensures told { Told (pending_shown (core_of handle.old.slot.held) pid) count.old count.new result }
    ensures same { handle.new.slot.held ≡ handle.old.slot.held }
{
    copy_out(handle.pending(pid), count)
}

/// How many processes live.
#[unsafe(no_mangle)]
pub extern "C" fn vlm_process_count(handle: &mut Handle) -> usize
    ensures told { result ≡ process_count_shown (core_of handle.old.slot.held) }
    ensures same { handle.new.slot.held ≡ handle.old.slot.held }
{
    handle.process_count()
}

/// Copies the living process after the process with this ID, or with 0 the first one. After the last one it
/// copies a process with ID 0.
#[unsafe(no_mangle)]
pub extern "C" fn vlm_next_process(handle: &mut Handle, pid: u32, out: &mut VlmProcess) -> u32
    ensures told { Told (sized (out.old.size == 64)
        (option_map process_or_none (next_process_shown (core_of handle.old.slot.held) (pid == 0) pid)))
        out.old out.new result }
    ensures same { handle.new.slot.held ≡ handle.old.slot.held }
{
    let shown = handle
        .next_process(pid)
        .map(|process| process_or_none(&process));
    copy_out(sized(out.size == PROCESS_SIZE, shown), out)
}

/// How many resources there are.
#[unsafe(no_mangle)]
pub extern "C" fn vlm_resource_count(handle: &mut Handle) -> usize
    ensures told { result ≡ count_shown (core_of handle.old.slot.held) }
    ensures same { handle.new.slot.held ≡ handle.old.slot.held }
{
    handle.resource_count()
}

/// Counts the locks, waiting ones included.
#[unsafe(no_mangle)]
pub extern "C" fn vlm_lock_count(handle: &mut Handle) -> usize
    ensures told { result ≡ lock_count_shown (core_of handle.old.slot.held) }
    ensures same { handle.new.slot.held ≡ handle.old.slot.held }
{
    handle.lock_count()
}

/// Counts the queued requests: conversions and waiting locks.
#[unsafe(no_mangle)]
pub extern "C" fn vlm_queued_count(handle: &mut Handle) -> usize
    ensures told { result ≡ queued_count_shown (core_of handle.old.slot.held) }
    ensures same { handle.new.slot.held ≡ handle.old.slot.held }
{
    handle.queued_count()
}

/// Copies the resource that parent, domain and name of the struct name.
#[unsafe(no_mangle)]
pub extern "C" fn vlm_find(handle: &mut Handle, resource: &mut VlmResource) -> u32
    ensures told { Told (option_map resource_of (found_shown (core_of handle.old.slot.held) (key_of resource.old)))
        resource.old resource.new result }
    ensures same { handle.new.slot.held ≡ handle.old.slot.held }
{
    let shown = handle.find(resource).map(|found| resource_of(&found));
    copy_out(shown, resource)
}

/// Copies the resource after the named resource, or with serial 0 the first one. After the last one it copies a
/// resource with serial 0.
#[unsafe(no_mangle)]
pub extern "C" fn vlm_next_resource(handle: &mut Handle, resource: &mut VlmResource) -> u32
    ensures told { Told (sized (resource.old.size == 144) (option_map resource_or_none
        (next_resource_shown (core_of handle.old.slot.held) (resource.old.serial == 0) (key_of resource.old))))
        resource.old resource.new result }
    ensures same { handle.new.slot.held ≡ handle.old.slot.held }
{
    let shown = handle
        .next_resource(resource)
        .map(|next| resource_or_none(&next));
    copy_out(sized(resource.size == RESOURCE_SIZE, shown), resource)
}
