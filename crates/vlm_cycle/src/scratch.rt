//! The memory of a search: two sets of processes, and their ranks.

ghost use Rattle.std.specs.Prelude.{◌≡◌, ◌/◌, ℕ, true, OnOk};
ghost use Rattle.vlm_records.specs.NodeMarks.{is_marked, is_node};
ghost use Rattle.vlm_cycle.specs.Marking.{HasRoomInBoth, IsClear, TakesNext, KeepsRoom, Marks};

use crate::ranks::Ranks;
use std::alloc::{AllocError, Global};
use vlm_records::NodeMarks;

/// The marks of a search, with the room that was made for them.
#[derive(Drop)]
pub struct Scratch {
    pub(crate) seen: NodeMarks,
    // the found processes to which the search still has to go
    pub(crate) todo: NodeMarks,
    // hints that save most searches
    pub(crate) ranks: Ranks,
}

impl Scratch {
    /// No room for any process. It takes no memory.
    pub fn new(alloc: Global) -> Scratch {
        Scratch {
            seen: NodeMarks::new(alloc),
            todo: NodeMarks::new(alloc),
            ranks: Ranks::new(alloc),
        }
    }

    /// Makes room to mark the process, for 64 of its node at a time, and to rank it beside this many living processes.
    /// If memory is refused, there may be more room than before.
    pub fn make_room(&mut self, pid: u32, living: usize) -> Result<(), AllocError>
        ensures room { OnOk result (HasRoomInBoth self.new pid) }
        ensures kept { KeepsRoom self.old self.new }
    {
        self.seen.make_room(pid)?;
        self.todo.make_room(pid)?;
        self.ranks.make_room(living)
    }

    pub(crate) fn clear(&mut self)
        ensures clear { IsClear self.new }
        ensures room { KeepsRoom self.old self.new }
        ensures ranks { self.new.ranks ≡ self.old.ranks }
    {
        self.seen.clear();
        self.todo.clear();
    }

    /// Marks a process as found. If it is new, the search has to go to it.
    pub(crate) fn find(&mut self, pid: u32)
        requires room { HasRoomInBoth self.old pid }
        requires node { is_node (pid / 65536) ≡ true }
        ensures { Marks (λ other. other ≡ pid) self.old self.new }
    {
        if !self.seen.has(pid) {
            self.seen.mark(pid);
            self.todo.mark(pid);
        }
    }

    pub(crate) fn take(&mut self) -> Option<u32>
        requires { (pid : ℕ) → is_marked self.old.todo pid ≡ true → HasRoomInBoth self.old pid }
        ensures { TakesNext result self.old self.new }
    {
        for node in 1..9 {
            if let Some(pid) = self.todo.first(node) {
                self.todo.unmark(pid);
                return Some(pid);
            }
        }
        None
    }
}
