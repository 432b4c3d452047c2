//! Prints all resources of a core, with their queues or with their tails.

ghost use Rattle.std.specs.Prelude.{◌≡◌, ◌++◌, IfSome, OnOk, flat_map};
ghost use Rattle.vlm_queue.specs.Views.{resource_view};
ghost use Rattle.vlm_queue.specs.Walks.{HasResource, plain_resource_at, rows_queued};
ghost use Rattle.vlm_lines.specs.Texts.{no_resources_line, resource_line, row_line, tail_line};
ghost use Rattle.vlm_script.specs.Texts.{part_text, parts_text, queue_lines, resource_text};

use std::alloc::AllocError;
use vlm_core::{Core, ResourceView, RowView};
use vlm_lines::{no_resources_line, resource_line, row_line, tail_line};
use vlm_queue::{ResAt, Store, first_resource, head, next, next_resource, resource_view, row_view};
use vlm_words::resources::Queue;

#[derive(Clone, Copy)]
pub(crate) enum Part {
    Queues,
    Tail,
}

/// Prints every resource by rising serial, or a line that says that there is none.
pub(crate) fn show(core: &Core, part: Part, out: &mut Vec<u8>) -> Result<(), AllocError>
    ensures { OnOk result (out.new.items
        ≡ out.old.items ++ parts_text part core.now.resources) }
{
    if core.resource_count() == 0 {
        show_no_resources(out)
    } else {
        show_resources(core, part, out)
    }
}

fn show_resources(core: &Core, part: Part, out: &mut Vec<u8>) -> Result<(), AllocError>
    ensures { OnOk result (out.new.items
        ≡ out.old.items ++ flat_map (part_text part) core.now.resources) }
{
    let store = core.store();
    let mut next = first_resource(store);
    while let Some(res) = next {
        show_part(store, res, part, out)?;
        next = next_resource(store, res);
    }
    Ok(())
}

fn show_part(store: &Store, res: ResAt, part: Part, out: &mut Vec<u8>) -> Result<(), AllocError>
    requires { HasResource res store.now }
    ensures { OnOk result (IfSome (plain_resource_at res store.now)
        (λ r. out.new.items ≡ out.old.items ++ part_text part r)) }
{
    match part {
        Part::Queues => show_resource(store, res, out),
        Part::Tail => show_tail(store, res, out),
    }
}

fn show_resource(store: &Store, res: ResAt, out: &mut Vec<u8>) -> Result<(), AllocError>
    requires { HasResource res store.now }
    ensures { OnOk result (IfSome (plain_resource_at res store.now)
        (λ r. out.new.items ≡ out.old.items ++ resource_text r)) }
{
    show_own_line(&resource_view(store, res), out)?;
    show_queue(store, res, Queue::Granted, out)?;
    show_queue(store, res, Queue::Conversion, out)?;
    show_queue(store, res, Queue::Waiting, out)?;
    Ok(())
}

fn show_queue(store: &Store, res: ResAt, queue: Queue, out: &mut Vec<u8>) -> Result<(), AllocError>
    requires { HasResource res store.now }
    ensures { OnOk result (out.new.items
        ≡ out.old.items ++ queue_lines queue (rows_queued res queue store.now)) }
{
    let mut at = head(store, res, queue);
    while let Some(lock) = at {
        show_row(queue, &row_view(store, lock), out)?;
        at = next(store, lock);
    }
    Ok(())
}

fn show_no_resources(out: &mut Vec<u8>) -> Result<(), AllocError>
    ensures { OnOk result (out.new.items ≡ out.old.items ++ no_resources_line) }
{
    out.extend_from_slice(no_resources_line())
}

fn show_own_line(view: &ResourceView, out: &mut Vec<u8>) -> Result<(), AllocError>
    ensures { OnOk result (out.new.items ≡ out.old.items ++ resource_line view.now) }
{
    out.extend_from_slice(&resource_line(view))
}

fn show_row(queue: Queue, row: &RowView, out: &mut Vec<u8>) -> Result<(), AllocError>
    ensures { OnOk result (out.new.items ≡ out.old.items ++ row_line queue row.now) }
{
    out.extend_from_slice(&row_line(queue, row))
}

fn show_tail(store: &Store, res: ResAt, out: &mut Vec<u8>) -> Result<(), AllocError>
    requires { HasResource res store.now }
    ensures { OnOk result (IfSome (plain_resource_at res store.now)
        (λ r. out.new.items ≡ out.old.items ++ tail_line (resource_view r))) }
{
    out.extend_from_slice(&tail_line(&resource_view(store, res)))
}
