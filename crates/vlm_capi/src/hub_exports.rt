//! The calls of a hub. include/vlm_hub.h describes them for their callers.
//!
//! Each checks all its arguments except pointers and handles. It answers BADPARAM and changes nothing if an argument is
//! malformed or the handle has no hub. No call waits.

ghost use Rattle.std.specs.Prelude.{◌≡◌, ◌==◌, ◌&&◌, length, nat_le, nat_lt, slice_get, None};
ghost use Rattle.std.specs.Option.{option_map};
ghost use Rattle.vlm_capi.specs.Copies.{Told, sized};
ghost use Rattle.vlm_capi.specs.Structs.{is_options};
ghost use Rattle.vlm_capi.specs.Entries.{entry_of};
ghost use Rattle.vlm_capi.specs.Shown.{block_shown, lksb_of};
ghost use Rattle.vlm_capi.specs.Lending.{IsSameHeld};
ghost use Rattle.vlm_capi.specs.Replay.{FitsStructs, Replayed, step_of};
ghost use Rattle.vlm_journal.specs.declared.entries.Entry.{Entry};
ghost use Rattle.vlm_capi.specs.Hubs.{CountsPosts, CutsHubIf, GivesPortIf, LosesNode, OpensHubIf, TurnsHub, cut_of, entries_shown, hub_state, lost_status, node_count, turn_count, turn_status};

use crate::arguments::{VlmOptions, keys_of};
use crate::copies::{copy_out, sized};
use crate::entries::{CUT_SIZE, ENTRY_SIZE, VlmCut, VlmEntry, write_entries};
use crate::handle::Handle;
use crate::owned_hubs::new_hub;
use crate::replies::status;
use crate::shown::{LKSB_SIZE, VlmLksb, lksb_of};
use std::alloc::{AllocError, Global};
use vlm_ports::{Part, Turn};
use vlm_words::conditions::Cond;
use vlm_words::ids::NODES;

/// Puts a new hub of 1 to 8 nodes into a handle that has nothing. The options must be of this version.
#[unsafe(no_mangle)]
pub extern "C" fn vlm_hub_open(
    alloc: Global,
    handle: &mut Handle,
    nodes: u32,
    options: &VlmOptions,
) -> u32
    ensures { OpensHubIf (is_options options.now && nat_lt 0 nodes && nat_le nodes 8) nodes
        handle.old.slot.held handle.new.slot.held result }
{
    let Some(keys) = keys_of(options) else {
        return status(Cond::Badparam);
    };
    if nodes == 0 || nodes as usize > NODES || handle.is_open() {
        return status(Cond::Badparam);
    }
    match new_hub(alloc, keys, nodes as usize) {
        Ok(held) => {
            *handle = Handle::holding(held, alloc);
            status(Cond::Normal)
        }
        Err(_) => status(Cond::Insfmem),
    }
}

/// Puts the port of a node into a handle that has nothing. The hub gives each port once.
#[unsafe(no_mangle)]
pub extern "C" fn vlm_hub_port(
    alloc: Global,
    handle: &mut Handle,
    node: u32,
    port: &mut Handle,
) -> u32
    ensures { GivesPortIf port.old.slot.held node handle.old.slot.held handle.new.slot.held
        port.new.slot.held result }
{
    if port.is_open() {
        return status(Cond::Badparam);
    }
    match handle.with_hub(|owned| owned.give_port(alloc, node)) {
        Some(Ok(held)) => {
            *port = Handle::holding(held, alloc);
            status(Cond::Normal)
        }
        Some(Err(cond)) => status(cond),
        None => status(Cond::Badparam),
    }
}

fn turn_status(turn: &Option<Turn>) -> u32
    ensures { result ≡ turn_status turn.now }
{
    match turn {
        Some(Turn::Served(_)) | Some(Turn::Idle) => status(Cond::Normal),
        Some(Turn::NoMemory(_)) => status(Cond::Insfmem),
        None => status(Cond::Badparam),
    }
}

fn turn_count(turn: &Option<Turn>) -> usize
    ensures { result ≡ turn_count turn.now }
{
    match turn {
        Some(Turn::Served(made)) | Some(Turn::NoMemory(made)) => *made,
        Some(Turn::Idle) | None => 0,
    }
}

/// Attends to each node once, and writes how many entries that made.
#[unsafe(no_mangle)]
pub extern "C" fn vlm_hub_turn(handle: &mut Handle, made: &mut usize) -> u32
    ensures { TurnsHub handle.old.slot.held handle.new.slot.held result made.new }
{
    let turn = handle.with_hub(|owned| owned.turn());
    *made = turn_count(&turn);
    turn_status(&turn)
}

fn lost_status(lost: &Option<Option<Result<Cond, AllocError>>>) -> u32
    ensures { result ≡ lost_status lost.now }
{
    match lost {
        Some(Some(Ok(cond))) => status(*cond),
        Some(Some(Err(_))) => status(Cond::Insfmem),
        Some(None) | None => status(Cond::Badparam),
    }
}

/// Makes the departure of a node whose thread is gone.
#[unsafe(no_mangle)]
pub extern "C" fn vlm_hub_lost(handle: &mut Handle, node: u32) -> u32
    ensures { LosesNode node handle.old.slot.held handle.new.slot.held result }
{
    let lost = handle.with_hub(|owned| owned.depart(node));
    lost_status(&lost)
}

/// Counts the posts of a node that the hub has not made.
#[unsafe(no_mangle)]
pub extern "C" fn vlm_hub_waiting(handle: &mut Handle, node: u32, posts: &mut usize) -> u32
    ensures { CountsPosts node handle.old.slot.held handle.new.slot.held posts.old posts.new result }
{
    match handle.with_hub(|owned| owned.posts_waiting(node)) {
        Some(Some(count)) => {
            *posts = count;
            status(Cond::Normal)
        }
        Some(None) | None => status(Cond::Badparam),
    }
}

/// Copies a status block of a process of the hub.
#[unsafe(no_mangle)]
#[tactic(auto, unfolding(crate::specs::Shown::block_shown))]
pub extern "C" fn vlm_hub_block(handle: &mut Handle, pid: u32, block: u32, out: &mut VlmLksb) -> u32
    ensures told { Told (sized (out.old.size == 80)
        (option_map lksb_of (block_shown (hub_state handle.old.slot.held) pid block))) out.old out.new result }
    ensures same { IsSameHeld handle.old.slot.held handle.new.slot.held }
{
    let block = handle.with_hub(|owned| owned.block(pid, block)).flatten();
    let shown = block.map(|block| lksb_of(&block));
    copy_out(sized(out.size == LKSB_SIZE, shown), out)
}

/// Counts the nodes that the hub serves.
#[unsafe(no_mangle)]
pub extern "C" fn vlm_hub_nodes(handle: &mut Handle) -> usize
    ensures told { result ≡ node_count handle.old.slot.held }
    ensures same { IsSameHeld handle.old.slot.held handle.new.slot.held }
{
    handle.with_hub(|owned| owned.node_count()).unwrap_or(0)
}

/// Counts the entries since the last cut.
#[unsafe(no_mangle)]
pub extern "C" fn vlm_hub_entries(handle: &mut Handle) -> usize
    ensures told { result ≡ length (entries_shown handle.old.slot.held) }
    ensures same { IsSameHeld handle.old.slot.held handle.new.slot.held }
{
    handle.with_hub(|owned| owned.entry_count()).unwrap_or(0)
}

/// Copies the entry at a place, from 0, since the last cut.
#[unsafe(no_mangle)]
pub extern "C" fn vlm_hub_entry(handle: &mut Handle, place: usize, out: &mut VlmEntry) -> u32
    ensures told { Told (sized (out.old.size == 512)
        (option_map entry_of (slice_get (entries_shown handle.old.slot.held) place)))
        out.old out.new result }
    ensures same { IsSameHeld handle.old.slot.held handle.new.slot.held }
{
    let shown = handle.with_hub(|owned| owned.entry(place)).flatten();
    copy_out(sized(out.size == ENTRY_SIZE, shown), out)
}

fn cut_of(part: &Part) -> VlmCut
    ensures { result ≡ cut_of part.now }
{
    VlmCut {
        size: CUT_SIZE,
        entry_size: ENTRY_SIZE,
        base: part.base,
        count: part.entries.len() as u64,
        reserved: [0; 2],
    }
}

/// Hands out the entries since the last cut, if the slice has room for them, and begins a new part of the journal.
#[unsafe(no_mangle)]
pub extern "C" fn vlm_hub_cut(
    handle: &mut Handle,
    entries: &mut [VlmEntry],
    cut: &mut VlmCut,
) -> u32
    ensures { CutsHubIf (cut.old.size == 32 && cut.old.entry_size == 512) handle.old.slot.held
        handle.new.slot.held entries.old entries.new cut.old cut.new result }
{
    if cut.size != CUT_SIZE || cut.entry_size != ENTRY_SIZE {
        return status(Cond::Badparam);
    }
    let most = entries.len();
    match handle.with_hub(|owned| owned.cut_within(most)) {
        Some(Some(part)) => {
            write_entries(part.entries.as_slice(), entries);
            *cut = cut_of(&part);
            status(Cond::Normal)
        }
        Some(None) => status(Cond::Ivbuflen),
        None => status(Cond::Badparam),
    }
}

/// Frees what a handle has, if anything; with a hub also the ports that it has not given.
#[unsafe(no_mangle)]
pub extern "C" fn vlm_hub_close(alloc: Global, handle: &mut Handle)
    ensures { handle.new.slot.held ≡ None }
{
    *handle = Handle::closed(alloc);
}

/// Makes the step of a journal's entry on a core, and compares the answer with the entry's. The step of an entry that a
/// hub wrote is the step that the hub made.
#[unsafe(no_mangle)]
#[tactic(auto, using(crate::proofs::EntriesBack::entry_back))]
pub extern "C" fn vlm_replay(handle: &mut Handle, entry: &VlmEntry) -> u32
    ensures replayed { Replayed entry.now handle.old.slot.held handle.new.slot.held result }
    ensures step { (made : Entry) → FitsStructs made.step → entry.now ≡ entry_of made
        → step_of entry.now ≡ Some made.step }
{
    handle.replay(entry)
}
