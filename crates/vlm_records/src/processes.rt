//! The record of a process.

ghost use Rattle.std.specs.Prelude.{◌≡◌, ◌≢◌, ◌≤◌, ◌+◌, ℕ, None, Some, refl};
ghost use Rattle.std.specs.Option.{option_map};
ghost use Rattle.slab.specs.Slab.{get, HasRoomFor};
ghost use Rattle.vlm_collections.specs.Lists.{IsIn, IsLinked, IsNoList, handles_of, without};
ghost use Rattle.vlm_words.specs.Processes.{new_process, process_with_block};
ghost use Rattle.vlm_records.specs.Kin.{but_order, plain_process, process_links};
ghost use Rattle.vlm_records.specs.Shown.{room_in};
ghost use Rattle.vlm_records.specs.StatusBlocks.{requested, with_changed_block, with_status};
ghost use Rattle.vlm_records.specs.Changes.{AddsProcess};

use crate::ast_queues::AstQueue;
use crate::locks::OfProcess;
use crate::resources::InOrder;
use slab::Slab;
use vlm_collections::{LAST_HANDLE, Linked, LinkedList, Links};
use vlm_words::blocks::Block;
use vlm_words::steps::Declaration;

/// The group, quota and privilege of a process, as declared.
#[derive(Clone, Copy)]
pub struct Authorization {
    /// Its UIC group.
    pub group: u16,
    /// How many locks it may have, waiting ones included (ENQLM).
    pub quota: u16,
    /// Whether it has the privilege SYSLCK.
    pub syslck: bool,
}

/// The record of a living process.
#[derive(Drop)]
pub struct Process {
    /// Its ID, node x 65,536 + ordinal.
    pub pid: u32,
    pub authorization: Authorization,
    /// Its status blocks. Block n is at index n - 1.
    pub blocks: Vec<Block>,
    /// Its pending ASTs, oldest first, and room for its due ASTs.
    pub asts: AstQueue,
    /// Its locks in the order of making, waiting ones included.
    pub own: LinkedList<OfProcess>,
    pub(crate) in_order: Links,
}

impl Process {
    pub fn new(pid: u32, declaration: &Declaration, blocks: Vec<Block>) -> Self
        requires { blocks.items ≡ (new_process pid declaration.now).blocks }
        ensures plain { plain_process result ≡ new_process pid declaration.now }
        ensures due { result.asts.due ≡ 0 }
        ensures own { IsNoList result.own }
    {
        Process {
            pid,
            authorization: Authorization {
                group: declaration.group,
                quota: declaration.quota,
                syslck: declaration.syslck,
            },
            blocks,
            asts: AstQueue::new(),
            own: LinkedList::new(),
            in_order: Links::none(),
        }
    }

    /// Replaces the status block with this number, from 1, if there is one.
    pub fn put_status_block(&mut self, number: u8, block: Block)
        ensures plain { plain_process self.new
            ≡ process_with_block number block (plain_process self.old) }
        ensures due { self.new.asts.due ≡ self.old.asts.due }
        ensures own { self.new.own ≡ self.old.own }
        ensures order { process_links self.new ≡ process_links self.old }
    {
        let Some(index) = usize::from(number).checked_sub(1) else {
            return;
        };
        if let Some(old) = self.blocks.get_mut(index) {
            *old = block;
        }
    }

    pub fn set_status(&mut self, number: u8, status: u8)
        ensures plain { plain_process self.new
            ≡ with_changed_block number (with_status status) (plain_process self.old) }
        ensures due { self.new.asts.due ≡ self.old.asts.due }
        ensures own { self.new.own ≡ self.old.own }
        ensures order { process_links self.new ≡ process_links self.old }
    {
        let Some(index) = usize::from(number).checked_sub(1) else {
            return;
        };
        if let Some(block) = self.blocks.get_mut(index) {
            block.status = status;
        }
    }

    /// Writes status and lock of a status block. Status 0 means that the request is pending. Value part and tail stay.
    pub fn set_request(&mut self, number: u8, status: u8, lkid: u32)
        ensures plain { plain_process self.new
            ≡ with_changed_block number (requested status lkid) (plain_process self.old) }
        ensures due { self.new.asts.due ≡ self.old.asts.due }
        ensures own { self.new.own ≡ self.old.own }
        ensures order { process_links self.new ≡ process_links self.old }
    {
        let Some(index) = usize::from(number).checked_sub(1) else {
            return;
        };
        if let Some(block) = self.blocks.get_mut(index) {
            block.status = status;
            block.lkid = lkid;
        }
    }
}

/// Adds a process, last in the order of making. The caller made the room.
pub fn put_in(
    processes: &mut Slab<Process>,
    order: &mut LinkedList<InOrder>,
    process: Process,
) -> usize
    requires linked { IsLinked process_links processes.old order.old }
    requires room { HasRoomFor processes.old 1 }
    requires last { processes.old.vacant_key ≤ LAST_HANDLE }
    ensures { AddsProcess result process order.old order.new processes.old processes.new }
{
    let at = processes.insert_reserved(process);
    order.push_back(processes, at);
    at
}

pub fn take_out(processes: &mut Slab<Process>, order: &mut LinkedList<InOrder>, at: usize)
    requires linked { IsLinked process_links processes.old order.old }
    requires listed { IsIn at (handles_of process_links processes.old order.old) }
    ensures linked { IsLinked process_links processes.new order.new }
    ensures order { handles_of process_links processes.new order.new
        ≡ without at (handles_of process_links processes.old order.old) }
    ensures gone { get processes.new at ≡ None }
    ensures others { (other : ℕ) → other ≢ at → option_map but_order (get processes.new other)
        ≡ option_map but_order (get processes.old other) }
    ensures given_back { room_in processes.new ≡ ((room_in processes.old).0 + 1, at) }
{
    order.unlink(processes, at);
    processes.remove(at);
}

impl Linked<InOrder> for Process {
    ghost links = { λ p. p.in_order };

    ghost with_links = { λ p pair. record p { in_order = pair } };

    ghost links_written = { λ p pair. refl };

    ghost written_twice = { λ p a b. refl };

    ghost written_as_was = { λ p. refl };

    fn links(&self) -> Links {
        self.in_order
    }

    fn set_links(&mut self, pair: Links) {
        self.in_order = pair;
    }
}
