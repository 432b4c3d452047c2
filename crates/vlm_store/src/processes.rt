//! The processes: their records, status blocks, ASTs and numbers of locks.

ghost use Rattle.std.specs.Prelude.{◌≡◌, ◌<◌, ◌≤◌, ℕ, [], ◌∷◌, ◌++◌, length, replicate, slice_get, IfOk, IfSome, IsOk, OnErr, OnOk};
ghost use Rattle.std.specs.Bool.{OnFalse, OnTrue};
ghost use Rattle.std.specs.Option.{option_map};
ghost use Rattle.vlm_words.specs.Processes.{oldest, without_oldest_ast, new_process, new_status_block, process_with_block};
ghost use Rattle.vlm_records.specs.Kin.{plain_process};
ghost use Rattle.vlm_records.specs.StatusBlocks.{requested, with_changed_block, with_status};
ghost use Rattle.vlm_store.specs.Pending.{IsFirstLiving};
ghost use Rattle.vlm_store.specs.Plain.{plain_processes};
ghost use Rattle.vlm_store.specs.Records.{AreSound, FindsProcess, HasNoLocks, HasNoSublocks, HasProcess, HasRoomForProcess, IsGivenBack, IsNewProcess, IsOwed, IsProcess, IsSound, IsStored, IsTaken, IsUnchanged, NoneIsLoose, authorization_of, new_stored_process, on_process, on_stored, owed_less, owed_more, own_at, owned_by, process_after, process_at, with_owed_ast, with_process_room, without_process};

use crate::store::Store;
use std::alloc::AllocError;
use vlm_collections::reserve_slot;
use vlm_records::{LockAt, ProcAt, Process, put_in, take_out};
use vlm_words::asts::Ast;
use vlm_words::blocks::Block;
use vlm_words::ids::process_ordinal;
use vlm_words::steps::Declaration;

impl Store {
    /// The living process with this ID, if there is one.
    pub fn process(&self, pid: u32) -> Option<ProcAt>
        ensures found { FindsProcess self.now pid result }
        ensures there { IfSome result (λ at. HasProcess at self.now) }
        ensures sound { IsSound self.now }
    {
        // The index keeps the order of making. As long as one node declares and nobody ends, a process stands at its
        // ordinal less one. If many have ended, a new process is the last one. This guess saves the hash.
        let guess = usize::from(process_ordinal(pid))
            .min(self.process_index.len())
            .wrapping_sub(1);
        match self.process_index.get_index(guess) {
            Some((found, at)) if *found == pid => Some(*at),
            _ => self.process_index.get(&pid).copied(),
        }
    }

    /// The first living process of a node: the least ID. Nodes are 1 to 8.
    pub fn first_of(&self, node: u8) -> Option<u32>
        ensures first { IsFirstLiving node self.now.processes result }
        ensures sound { IsSound self.now }
    {
        self.living.first(node)
    }

    /// New status blocks for a process that is to be added.
    pub fn new_status_blocks(&self, count: u8) -> Result<Vec<Block>, AllocError>
        ensures { IfOk result (λ blocks. blocks.items ≡ replicate count new_status_block) }
    {
        vec![in self.alloc; Block::new(); usize::from(count)]
    }

    /// Adds a process without locks, last in the order of making. If memory is refused or no handle is left, nothing
    /// is changed, except that there may be more room.
    pub fn add_process(
        &mut self,
        pid: u32,
        declaration: &Declaration,
        blocks: Vec<Block>,
    ) -> Result<ProcAt, AllocError>
        requires new { IsNewProcess pid self.old }
        requires blocks { blocks.items ≡ (new_process pid declaration.now).blocks }
        ensures added { IfOk result (λ at. self.new
            ≡ with_process_room self.new.room.processes (record self.old {
              processes = self.old.processes ++ new_stored_process at pid declaration.now ∷ [];
            })) }
        ensures fresh { IfOk result (λ at. ¬ HasProcess at self.old) }
        ensures taken { OnOk result (IsTaken self.old.room.processes self.new.room.processes) }
        ensures sound { OnOk result (AreSound self.old self.new) }
        ensures succeeds { HasRoomForProcess pid self.old → IsOk result }
        ensures err { OnErr result (IsUnchanged self.old self.new) }
    {
        reserve_slot(&mut self.processes)?;
        self.living.make_room(pid)?;
        self.pending.make_room(pid)?;
        // The index has the handle first, since nothing after it needs memory.
        let at = ProcAt::of(self.processes.vacant_key());
        self.process_index.insert(pid, at)?;
        let process = Process::new(pid, declaration, blocks);
        put_in(&mut self.processes, &mut self.process_order, process);
        self.living.mark(pid);
        Ok(at)
    }

    /// Removes a process that has no locks, with its status blocks and ASTs. The other processes keep their order.
    pub fn remove_process(&mut self, at: ProcAt)
        requires there { HasProcess at self.old }
        requires idle { HasNoLocks at self.old }
        ensures removed { self.new ≡ with_process_room self.new.room.processes
            (record self.old { processes = without_process at self.old.processes }) }
        ensures given_back { IsGivenBack self.old.room.processes self.new.room.processes }
        ensures sound { AreSound self.old self.new }
    {
        let pid = self.processes[at.slot()].pid;
        take_out(&mut self.processes, &mut self.process_order, at.slot());
        self.process_index.swap_remove(&pid);
        self.living.unmark(pid);
        self.pending.unmark(pid);
    }

    /// The record of a process. Status block n is at index n - 1.
    pub fn process_record(&self, at: ProcAt) -> &Process
        requires { HasProcess at self.now }
        ensures authorization { IfSome (process_at at self.now.processes)
            (λ p. result.now.authorization ≡ authorization_of p.process) }
        ensures blocks { IfSome (process_at at self.now.processes)
            (λ p. result.now.blocks.items ≡ p.process.blocks) }
        ensures asts { IfSome (process_at at self.now.processes)
            (λ p. result.now.asts.pending ≡ p.process.asts) }
        ensures sound { IsSound self.now }
    {
        &self.processes[at.slot()]
    }

    /// The process at an index, from 0, in the order of making. It walks to that index.
    pub fn nth_process(&self, index: usize) -> Option<&Process>
        ensures { option_map (λ p. plain_process p.now) result
            ≡ slice_get (plain_processes self.now) index }
    {
        let at = self.process_order.nth(&self.processes, index)?;
        Some(&self.processes[at])
    }

    /// The process after this one in the order of making, if there is one.
    pub fn next_process(&self, at: ProcAt) -> Option<&Process>
        requires { HasProcess at self.now }
        ensures { option_map (λ p. plain_process p.now) result ≡ process_after at self.now.processes }
    {
        let next = self.process_order.next(&self.processes, at.slot())?;
        Some(&self.processes[next])
    }

    /// Replaces the status block with this number, from 1, if there is one.
    pub fn set_status_block(&mut self, at: ProcAt, number: u8, block: Block)
        requires { HasProcess at self.old }
        ensures written { self.new ≡ record self.old {
          processes = on_process at (process_with_block number block) self.old.processes;
        } }
        ensures sound { IsSound self.old }
    {
        self.processes[at.slot()].put_status_block(number, block);
    }

    /// Writes the status of the status block with this number, from 1, if there is one. The rest of the block stays.
    pub fn set_status(&mut self, at: ProcAt, number: u8, status: u8)
        requires { HasProcess at self.old }
        ensures written { self.new ≡ record self.old {
          processes = on_process at (with_changed_block number (with_status status))
              self.old.processes;
        } }
        ensures sound { IsSound self.old }
    {
        self.processes[at.slot()].set_status(number, status);
    }

    /// Writes status and lock of a status block. Status 0 means that the request is pending. Value part and tail stay.
    pub fn set_request(&mut self, at: ProcAt, number: u8, status: u8, lkid: u32)
        requires { HasProcess at self.old }
        ensures written { self.new ≡ record self.old {
          processes = on_process at (with_changed_block number (requested status lkid))
              self.old.processes;
        } }
        ensures sound { IsSound self.old }
    {
        self.processes[at.slot()].set_request(number, status, lkid);
    }

    /// Takes the oldest AST of a process, if there is one.
    pub fn take_ast(&mut self, at: ProcAt) -> Option<Ast>
        requires { HasProcess at self.old }
        ensures taken { IfSome (process_at at self.old.processes)
            (λ p. result ≡ oldest p.process.asts) }
        ensures left { self.new ≡ record self.old {
          processes = on_process at without_oldest_ast self.old.processes;
        } }
        ensures sound { IsSound self.old }
    {
        self.processes[at.slot()].take_ast(&mut self.pending)
    }

    /// Makes room for this many more ASTs of a process, and counts them as due. Changes nothing if memory is refused.
    pub fn owe(&mut self, at: ProcAt, count: usize) -> Result<(), AllocError>
        requires { HasProcess at self.old }
        ensures owed { OnOk result (self.new ≡ record self.old {
          processes = on_stored at (owed_more count) self.old.processes;
        }) }
        ensures succeeds { count ≡ 0 → IsOk result }
        ensures refused { OnErr result (self.new ≡ self.old) }
        ensures sound { IsSound self.old }
    {
        let alloc = self.alloc;
        self.processes[at.slot()].asts.owe(alloc, count)
    }

    /// Queues one of the ASTs that a process is owed, at the end. It takes no memory.
    pub fn queue_ast(&mut self, at: ProcAt, ast: Ast)
        requires there { HasProcess at self.old }
        requires owed { IsOwed at 1 self.old }
        ensures queued { self.new ≡ record self.old {
          processes = on_stored at (with_owed_ast ast) self.old.processes;
        } }
        ensures sound { IsSound self.old }
    {
        self.processes[at.slot()].queue_ast(&mut self.pending, ast);
    }

    /// Gives back the room of this many due ASTs, which will not come.
    pub fn forgive(&mut self, at: ProcAt, count: usize)
        requires there { HasProcess at self.old }
        requires owed { IsOwed at count self.old }
        ensures forgiven { self.new ≡ record self.old {
          processes = on_stored at (owed_less count) self.old.processes;
        } }
        ensures sound { IsSound self.old }
    {
        self.processes[at.slot()].asts.forgive(count);
    }

    /// How many locks a process has, waiting ones included.
    pub fn own_lock_count(&self, at: ProcAt) -> usize
        requires { HasProcess at self.now }
        ensures own { result ≡ length (own_at at self.now) }
        ensures owned { NoneIsLoose self.now → (pid : ℕ) → IsProcess at pid self.now
            → result ≡ owned_by pid self.now }
    {
        self.processes[at.slot()].own.len(&self.queues.locks)
    }

    /// Whether a lock has sublocks.
    pub fn has_sublocks(&self, lock: LockAt) -> bool
        requires { IsStored lock self.now }
        ensures none { OnFalse result (HasNoSublocks lock self.now) }
        ensures some { OnTrue result (¬ HasNoSublocks lock self.now) }
    {
        self.queues.locks[lock.slot()]
            .sublocks
            .len(&self.queues.locks)
            > 0
    }
}
