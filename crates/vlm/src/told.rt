//! Prints the items of each node, line by line.

ghost use Rattle.std.specs.Prelude.{◌≡◌, ◌≤◌, ◌++◌, IfOk, IfSome, OnOk, length, vec_len};
ghost use Rattle.vlm_cluster.specs.Reports.{entries_of};
ghost use Rattle.vlm.specs.Clusters.{item_line, items_text, nodes_text, report_text};

use std::alloc::{AllocError, Global};
use vlm_cluster::Report;
use vlm_journal::entries::Item;
use vlm_script::{answer_item_line, ast_item_line, journal_line};

/// The printed text of a report. A journal with more entries than `usize` can count is refused as `Memory`.
pub(crate) fn report_text(alloc: Global, report: &Report) -> Result<Vec<u8>, AllocError>
    requires { vec_len report.now.items ≤ 8 }
    ensures { IfOk result (λ text. text.items ≡ report_text report.now) }
{
    let mut text = Vec::new(alloc);
    nodes_text(&mut text, report.items.as_slice())?;
    let Some(entries) = entry_count(report) else {
        return Err(AllocError);
    };
    journal_line(&mut text, entries)?;
    Ok(text)
}

// How many entries the journal has, unless they are more than `usize` can count.
fn entry_count(report: &Report) -> Option<usize>
    ensures { IfSome result (λ count. count ≡ length (entries_of report.now)) }
{
    let mut count = report.rest.entries.len();
    for part in report.parts.as_slice() {
        count = count.checked_add(part.entries.len())?;
    }
    Some(count)
}

// The lines of each node, node 1 first.
fn nodes_text(text: &mut Vec<u8>, nodes: &[Vec<Item>]) -> Result<(), AllocError>
    requires { length nodes.now ≤ 8 }
    ensures { OnOk result (text.new.items ≡ text.old.items ++ nodes_text 0 nodes.now) }
{
    for (index, items) in nodes.iter().enumerate() {
        items_text(text, index as u8 + 1, items.as_slice())?;
    }
    Ok(())
}

// The lines of a node's items, in order.
fn items_text(text: &mut Vec<u8>, node: u8, items: &[Item]) -> Result<(), AllocError>
    ensures { OnOk result (text.new.items ≡ text.old.items ++ items_text node 0 items.now) }
{
    for (index, item) in items.iter().enumerate() {
        item_line(text, node, index + 1, *item)?;
    }
    Ok(())
}

// The line of an item.
fn item_line(text: &mut Vec<u8>, node: u8, number: usize, item: Item) -> Result<(), AllocError>
    ensures { OnOk result (text.new.items ≡ text.old.items ++ item_line node number item) }
{
    match item {
        Item::Answer(answer) => answer_item_line(text, node, number, answer),
        Item::Ast(pid, ast) => ast_item_line(text, node, number, pid, ast),
    }
}
