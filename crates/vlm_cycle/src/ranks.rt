//! The ranks of processes. They are hints: each use checks them first.

ghost use Rattle.std.specs.Prelude.{◌≡◌, ◌≤◌, [], length, slice_index_or, slice_set};
ghost use Rattle.std.specs.List.{All};
ghost use Rattle.vlm_store.specs.Records.{Records};
ghost use Rattle.vlm_cycle.specs.Notes.{AreNotes, IsTarjanNode};
ghost use Rattle.vlm_cycle.specs.Ranking.{rank_at};
ghost use Rattle.vlm_cycle.specs.Ranks.{blank_dated, blank_node};

use crate::tarjan_nodes::BlockerKind;
use std::alloc::{AllocError, Global};
use std::marker::Model;
use vlm_store::{LockAt, ProcAt};

/// The note of a process.
#[derive(Clone, Copy)]
pub(crate) struct TarjanNode {
    /// Its rank, from 1, once its component is closed; 0 before.
    pub(crate) rank: u32,
    /// Its number in the order in which processes were found, from 1; 0 while it is not found.
    pub(crate) index: u32,
    /// The least number, of processes that are not closed, to which it is known to lead back.
    pub(crate) low: u32,
    /// The process from which the walk came to it.
    pub(crate) tree_parent: Option<ProcAt>,
    /// The process found last before it, of those that are not closed.
    pub(crate) stack_next: Option<ProcAt>,
    /// Where its walk is: at its own lock `own`, in the part `part` of the locks for which `own` waits, there at `at`.
    pub(crate) own: Option<LockAt>,
    pub(crate) part: BlockerKind,
    pub(crate) at: Option<LockAt>,
}

/// A note, and the number of the search that wrote it.
#[derive(Clone, Copy)]
struct DatedNode {
    search: u64,
    note: TarjanNode,
}

impl DatedNode {
    fn blank() -> DatedNode
        ensures { result ≡ blank_dated }
    {
        DatedNode {
            search: 0,
            note: TarjanNode::blank(),
        }
    }
}

/// The notes of the processes, each by its slot. A search reads the notes of earlier searches as blank. So it begins
/// with the next number and clears nothing.
#[derive(Drop)]
pub(crate) struct Ranks {
    // the last note of each process
    notes: Vec<DatedNode>,
    search: u64,
}

impl Model for Ranks {
    ghost use Rattle.std.specs.Prelude.{List};
    ghost use Rattle.vlm_cycle.specs.declared.ranks.TarjanNode.{TarjanNode};

    ghost Value = { List TarjanNode };

    ghost use Rattle.vlm_cycle.specs.Ranks.{IsDated, notes_read};

    ghost view = { notes_read };

    ghost invariant = { IsDated };
}

impl Ranks {
    /// No note of any process. It takes no memory.
    pub(crate) fn new(alloc: Global) -> Ranks
        ensures { result ≡ [] }
    {
        Ranks {
            notes: Vec::new(alloc),
            search: 0,
        }
    }

    /// How many processes there is room for.
    pub(crate) fn len(&self) -> usize
        ensures { result ≡ length self.now }
    {
        self.notes.len()
    }

    /// The note of a process; a blank one if there is no room for it.
    pub(crate) fn note(&self, process: ProcAt) -> TarjanNode
        ensures note { result ≡ slice_index_or self.now process blank_node }
        ensures there { (s : Records) → AreNotes s self.now → IsTarjanNode s result }
    {
        match self.notes.get(process.slot()) {
            Some(dated) if dated.search == self.search => dated.note,
            _ => TarjanNode::blank(),
        }
    }

    /// The rank of a process; 0 if it has none.
    pub(crate) fn of(&self, process: ProcAt) -> u32
        ensures { result ≡ rank_at self.now process }
    {
        match self.notes.get(process.slot()) {
            Some(dated) if dated.search == self.search => dated.note.rank,
            _ => 0,
        }
    }

    /// Writes the note of a process, if there is room for it.
    pub(crate) fn put(&mut self, process: ProcAt, note: TarjanNode)
        ensures noted { self.new ≡ slice_set self.old process note }
        ensures there { (s : Records) → AreNotes s self.old → IsTarjanNode s note → AreNotes s self.new }
    {
        if process.slot() < self.notes.len() {
            self.notes[process.slot()] = DatedNode {
                search: self.search,
                note,
            };
        }
    }

    /// Begins a search: all notes become blank. It takes constant time. After 2^64 searches the numbers begin anew and
    /// the room for notes is lost, so that search has no ranks.
    pub(crate) fn begin(&mut self)
        ensures blank { All (λ note. note ≡ blank_node) self.new }
        ensures no_more { length self.new ≤ length self.old }
    {
        match self.search.checked_add(1) {
            Some(search) => self.search = search,
            None => {
                self.notes.clear();
                self.search = 0;
            }
        }
    }

    /// Makes room for the notes of this many processes and one more. The memory doubles as it grows, so most calls move
    /// nothing.
    pub(crate) fn make_room(&mut self, living: usize) -> Result<(), AllocError> {
        if self.notes.len() <= living {
            let Some(count) = living.checked_add(1) else {
                return Err(AllocError);
            };
            self.notes.resize(count, DatedNode::blank())?;
        }
        Ok(())
    }
}
