//! The calls of a port. include/vlm_hub.h describes them for their callers.
//!
//! Each checks all its arguments except pointers and handles. It answers BADPARAM and changes nothing if an argument is
//! malformed, the handle has no port, or the step is not one of the port's node. No call takes memory or waits.

ghost use Rattle.std.specs.Prelude.{◌≡◌, ◌==◌, None, Some};
ghost use Rattle.std.specs.Option.{option_map};
ghost use Rattle.vlm_words.specs.declared.steps.Step.TheVariants.{Convert, Declare, Deq, Enq, Leave, Rundown, Search, SetValue};
ghost use Rattle.vlm_capi.specs.Structs.{conversion_of, declaration_of, dequeue_of, request_of, setting_of};
ghost use Rattle.vlm_capi.specs.Hubs.{port_node};
ghost use Rattle.vlm_capi.specs.Posts.{CountsItems, Posts, PostsAs, TakesItemIf};

use crate::arguments::{
    VlmDeclaration, VlmDequeue, VlmRequest, VlmSetting, conversion_of, declaration_of, dequeue_of,
    request_of, setting_of,
};
use crate::copies::copy_out;
use crate::handle::Handle;
use crate::items::{ITEM_SIZE, VlmItem, answer_item, ast_item, no_item};
use crate::posts::{count_items, post_bye, post_search, post_status, post_step, take_item};
use crate::replies::status;
use std::alloc::Global;
use vlm_ports::Item;
use vlm_words::conditions::Cond;
use vlm_words::steps::Step;

// Posts the step that the fields of a call name.
#[inline(always)]
fn post(handle: &mut Handle, step: Option<Step>) -> u32
    ensures { Posts step handle.old.slot.held handle.new.slot.held result }
{
    let Some(step) = step else {
        return status(Cond::Badparam);
    };
    post_status(handle.with_port(|port| post_step(port, step)))
}

/// Posts a declaration of a process.
#[unsafe(no_mangle)]
pub extern "C" fn vlm_port_declare(handle: &mut Handle, declaration: &VlmDeclaration) -> u32
    ensures { Posts (option_map Declare (declaration_of declaration.now)) handle.old.slot.held
        handle.new.slot.held result }
{
    post(
        handle,
        declaration_of(declaration).map(|step| Step::Declare(step)),
    )
}

/// Posts a step that sets the value part of a status block.
#[unsafe(no_mangle)]
pub extern "C" fn vlm_port_set_value(handle: &mut Handle, setting: &VlmSetting) -> u32
    ensures { Posts (option_map SetValue (setting_of setting.now)) handle.old.slot.held
        handle.new.slot.held result }
{
    post(handle, setting_of(setting).map(|step| Step::SetValue(step)))
}

/// Posts a request for a new lock ($ENQ).
#[unsafe(no_mangle)]
pub extern "C" fn vlm_port_enq(handle: &mut Handle, request: &VlmRequest, name: &[u8]) -> u32
    ensures { Posts (option_map Enq (request_of request.now name.now)) handle.old.slot.held
        handle.new.slot.held result }
{
    post(
        handle,
        request_of(request, name).map(|step| Step::Enq(step)),
    )
}

/// Posts a request for another mode of a granted lock ($ENQ with LCK$M_CONVERT).
#[unsafe(no_mangle)]
pub extern "C" fn vlm_port_convert(handle: &mut Handle, request: &VlmRequest) -> u32
    ensures { Posts (option_map Convert (conversion_of request.now)) handle.old.slot.held
        handle.new.slot.held result }
{
    post(
        handle,
        conversion_of(request).map(|step| Step::Convert(step)),
    )
}

/// Posts a dequeue ($DEQ).
#[unsafe(no_mangle)]
pub extern "C" fn vlm_port_deq(handle: &mut Handle, dequeue: &VlmDequeue) -> u32
    ensures { Posts (option_map Deq (dequeue_of dequeue.now)) handle.old.slot.held
        handle.new.slot.held result }
{
    post(handle, dequeue_of(dequeue).map(|step| Step::Deq(step)))
}

/// Posts the rundown of a process.
#[unsafe(no_mangle)]
pub extern "C" fn vlm_port_rundown(handle: &mut Handle, pid: u32) -> u32
    ensures { Posts (Some (Rundown pid)) handle.old.slot.held handle.new.slot.held result }
{
    post(handle, Some(Step::Rundown(pid)))
}

/// Posts a search for a deadlock.
#[unsafe(no_mangle)]
pub extern "C" fn vlm_port_search(handle: &mut Handle) -> u32
    ensures { PostsAs (λ p. Search p.node) handle.old.slot.held handle.new.slot.held result }
{
    post_status(handle.with_port(|port| post_search(port)))
}

/// Posts the departure of the port's node.
#[unsafe(no_mangle)]
pub extern "C" fn vlm_port_bye(handle: &mut Handle) -> u32
    ensures { PostsAs (λ p. Leave p.node) handle.old.slot.held handle.new.slot.held result }
{
    post_status(handle.with_port(|port| post_bye(port)))
}

/// Takes the next item, and writes it. Without one it writes that there is no item.
#[unsafe(no_mangle)]
pub extern "C" fn vlm_port_take(handle: &mut Handle, out: &mut VlmItem) -> u32
    ensures { TakesItemIf (out.old.size == 64) handle.old.slot.held handle.new.slot.held
        out.old out.new result }
{
    if out.size != ITEM_SIZE {
        return status(Cond::Badparam);
    }
    match handle.with_port(|port| take_item(port)) {
        Some(Some(Item::Answer(answer))) => *out = answer_item(&answer),
        Some(Some(Item::Ast(pid, ast))) => *out = ast_item(pid, &ast),
        Some(None) => *out = no_item(),
        None => return status(Cond::Badparam),
    }
    status(Cond::Normal)
}

/// Counts the items that have come and are not taken.
#[unsafe(no_mangle)]
pub extern "C" fn vlm_port_waiting(handle: &mut Handle, items: &mut usize) -> u32
    ensures { CountsItems handle.old.slot.held handle.new.slot.held items.old items.new result }
{
    copy_out(handle.with_port(|port| count_items(port)), items)
}

/// The node of the port, or 0 without a port.
#[unsafe(no_mangle)]
pub extern "C" fn vlm_port_node(handle: &mut Handle) -> u32
    ensures told { result ≡ port_node handle.old.slot.held }
    ensures same { handle.new.slot.held ≡ handle.old.slot.held }
{
    match handle.with_port(|port| port.node()) {
        Some(node) => u32::from(node),
        None => 0,
    }
}

/// Frees what a handle has, if anything.
#[unsafe(no_mangle)]
pub extern "C" fn vlm_port_close(alloc: Global, handle: &mut Handle)
    ensures { handle.new.slot.held ≡ None }
{
    *handle = Handle::closed(alloc);
}
