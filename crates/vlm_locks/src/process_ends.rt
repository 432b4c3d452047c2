//! Ends processes: all their locks go.

ghost use Rattle.std.specs.Prelude.{◌==◌, ◌≤◌, ℕ};
ghost use Rattle.vlm_store.specs.Records.{HasProcess, IsProcess};
ghost use Rattle.vlm_words.specs.Steps.{is_of_node};
ghost use Rattle.vlm_locks.specs.RunningDown.{AreEnded, CanEndProcesses, HasRunDown};

use crate::located_locks::located_lock;
use crate::releases::withdraw;
use crate::touched::{Note, Touched};
use crate::withdrawals::Withdrawal;
use vlm_store::{ProcAt, Store};

// The last lock goes first, so that sublocks go before their parents.
fn run_down(store: &mut Store, touched: &mut Touched, owner: ProcAt)
    requires owner { HasProcess owner store.old }
    requires can_end { CanEndProcesses touched.old store.old }
    ensures { (pid : ℕ) → IsProcess owner pid store.old
        → HasRunDown owner pid store.old store.new touched.old touched.new }
{
    while let Some(lock) = store.last_own(owner) {
        let located = located_lock(store, lock);
        withdraw(store, &located, &Withdrawal::rundown(located.row.lkid()));
        touched.note(Note::of_resource(store, located.res));
    }
}

/// Ends a process. First it withdraws all its locks: their requests end without a status or an AST, and the value block
/// of a resource is marked invalid if one of them holds PW or EX there. Then the process goes, with its status blocks
/// and its ASTs. It notes the touched resources. The cost grows with the locks that go.
pub fn end_process(store: &mut Store, touched: &mut Touched, owner: ProcAt)
    requires owner { HasProcess owner store.old }
    requires can_end { CanEndProcesses touched.old store.old }
    ensures ended { (pid : ℕ) → IsProcess owner pid store.old
        → AreEnded (λ p. p == pid) store.old store.new touched.old touched.new }
    ensures can_end { CanEndProcesses touched.new store.new }
{
    run_down(store, touched, owner);
    store.remove_process(owner);
}

/// Ends all processes of a node, as [`end_process`] ends one. The cost grows with the processes and locks that go.
pub fn end_processes_of(store: &mut Store, touched: &mut Touched, node: u8)
    requires first { 1 ≤ node }
    requires last { node ≤ 8 }
    requires can_end { CanEndProcesses touched.old store.old }
    ensures ended { AreEnded (is_of_node node) store.old store.new touched.old touched.new }
    ensures can_end { CanEndProcesses touched.new store.new }
{
    while let Some(pid) = store.first_of(node) {
        let Some(owner) = store.process(pid) else {
            break;
        };
        end_process(store, touched, owner);
    }
}
