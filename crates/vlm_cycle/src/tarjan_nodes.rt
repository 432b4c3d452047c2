//! The notes of Tarjan's walk, one for each process.

ghost use Rattle.std.specs.Prelude.{◌≡◌};
ghost use Rattle.std.specs.Option.{ForSome};
ghost use Rattle.vlm_store.specs.Records.{IsStored, Records};
ghost use Rattle.vlm_cycle.specs.Notes.{AreNotes, IsTarjanNode};
ghost use Rattle.vlm_cycle.specs.Ranks.{blank_node};

use crate::ranks::{Ranks, TarjanNode};
use vlm_store::{LockAt, ProcAt};

/// A part of the locks for which a queued request waits.
#[derive(Clone, Copy)]
pub(crate) enum BlockerKind {
    /// The earlier requests of its queue, back to the first that covers those before it.
    Before,
    /// The requests before that one: does one that covers want the same mode? It waits for the same holders.
    Alike,
    Granted,
    /// The converting locks: their held modes, and for a waiting request also their requests.
    Converting,
}

impl TarjanNode {
    pub(crate) fn blank() -> TarjanNode
        ensures { result ≡ blank_node }
    {
        TarjanNode {
            rank: 0,
            index: 0,
            low: 0,
            tree_parent: None,
            stack_next: None,
            own: None,
            part: BlockerKind::Before,
            at: None,
        }
    }

    pub(crate) fn located(
        &self,
        own: Option<LockAt>,
        part: BlockerKind,
        at: Option<LockAt>,
    ) -> TarjanNode
        ensures { (s : Records) → IsTarjanNode s self.now → ForSome own (λ lock. IsStored lock s)
            → ForSome at (λ lock. IsStored lock s) → IsTarjanNode s result }
    {
        TarjanNode {
            rank: self.rank,
            index: self.index,
            low: self.low,
            tree_parent: self.tree_parent,
            stack_next: self.stack_next,
            own,
            part,
            at,
        }
    }

    /// The note with this rank, and with the least number to which the process leads back.
    pub(crate) fn ranked(&self, rank: u32, low: u32) -> TarjanNode
        ensures { (s : Records) → IsTarjanNode s self.now → IsTarjanNode s result }
    {
        TarjanNode {
            rank,
            index: self.index,
            low,
            tree_parent: self.tree_parent,
            stack_next: self.stack_next,
            own: self.own,
            part: self.part,
            at: self.at,
        }
    }
}

impl Ranks {
    /// Notes that a process, if there is one, leads back to the process with this number.
    pub(crate) fn lower(&mut self, process: Option<ProcAt>, low: u32)
        ensures { (s : Records) → AreNotes s self.old → AreNotes s self.new }
    {
        let Some(process) = process else {
            return;
        };
        let note = self.note(process);
        if low < note.low {
            self.put(process, note.ranked(note.rank, low));
        }
    }
}
