//! The transitions of locks: a lock enters a resource, converts, or is withdrawn; a process ends; a resource is swept.
//!
//! A transition touches only the lock's own resource. Only an entry, and a conversion that names a routine, take
//! memory, and they take it before they change anything.
#![tactic(auto)]

mod conversions;
mod endings;
mod joint_withdrawals;
mod located_locks;
mod new_locks;
mod noted_locks;
mod process_ends;
mod releases;
mod routines;
mod services;
mod sweeps;
mod touched;
mod warnings;
mod withdrawals;

pub use conversions::{convert, converts_at_once};
pub use joint_withdrawals::{JointWithdrawal, Scope, give_up_together};
pub use located_locks::{LocatedLock, find_lock, located_lock};
pub use new_locks::{NewLock, enter, enters_at_once};
pub use process_ends::{end_process, end_processes_of};
pub use releases::withdraw;
pub use sweeps::{sweep, sweep_resource};
pub use touched::{Note, Touched};
pub use withdrawals::{EndReason, Withdrawal};
