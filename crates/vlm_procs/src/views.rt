//! A view of a process, as a copy that outlives the next step.

ghost use Rattle.std.specs.Prelude.{◌≡◌, slice_get};
ghost use Rattle.std.specs.Option.{option_map};
ghost use Rattle.vlm_records.specs.Kin.{plain_process};
ghost use Rattle.vlm_store.specs.Plain.{plain_processes};
ghost use Rattle.vlm_procs.specs.Views.{process_view};

use vlm_store::{Process, Store};
use vlm_words::ids::process_node;

/// A process as it was declared, and how many ASTs are pending for it, without its locks.
#[derive(Clone, Copy)]
pub struct ProcessView {
    /// Its ID.
    pub pid: u32,
    /// The node that declared it, 1 to 8.
    pub node: u16,
    /// Its UIC group.
    pub group: u16,
    /// Whether it has the privilege SYSLCK.
    pub syslck: bool,
    /// How many locks it may have, counting waiting ones (ENQLM).
    pub quota: u16,
    /// How many status blocks it has. They are numbered from 1.
    pub blocks: usize,
    /// How many ASTs are pending for it.
    pub pending: usize,
}

impl ProcessView {
    /// The view of a record.
    pub fn of(process: &Process) -> ProcessView
        ensures { result ≡ process_view (plain_process process.now) }
    {
        ProcessView {
            pid: process.pid,
            node: process_node(process.pid),
            group: process.authorization.group,
            syslck: process.authorization.syslck,
            quota: process.authorization.quota,
            blocks: process.blocks.len(),
            pending: process.asts.len(),
        }
    }
}

/// The process at an index, from 0, in the order of making, or `None` after the last. The cost grows with the index.
pub fn process_at(store: &Store, index: usize) -> Option<ProcessView>
    ensures { result ≡ option_map process_view (slice_get (plain_processes store.now) index) }
{
    let process = store.nth_process(index)?;
    Some(ProcessView::of(process))
}
