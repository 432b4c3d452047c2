//! The lock manager's core: whole steps of the lock machine, and readers.
//!
//! A machine of records makes the parts of a step (`vlm_machine`). [`Core`] makes only whole steps, so every law of the
//! plain machine holds of every core (`public`). The readers show processes with their status blocks and pending ASTs,
//! resources with their queues, and how a root is used (`readers`), single locks (`locks`), and what keeps a request
//! waiting (`blockers`). [`run_steps`] makes many steps in order (`runs`).
#![tactic(auto)]

mod blockers;
mod locks;
mod public;
mod readers;
mod runs;

pub use locks::LockView;
pub use public::Core;
pub use runs::{Stopped, run_steps};
pub use vlm_procs::ProcessView;
pub use vlm_queue::{ResourceView, RowView, Usage};
pub use vlm_store::HashKeys;
