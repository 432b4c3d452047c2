//! The queues of a resource, walks over resources and queues, and views of resources and locks.
//!
//! The crate knows no rules of granting. The steps of the machine move locks by `Store::move_lock`, which also writes
//! the row.
#![tactic(auto)]

mod queues;
mod views;
mod walks;

pub use queues::{can_hold, head, is_empty, is_idle, next, pop_front, push_back, unlink};
pub use views::{ResourceView, RowView, Usage, resource_view, row_view, usage_of};
pub use vlm_store::{LockAt, ResAt, Store};
pub use walks::{first_resource, next_resource, resource_at, row_at};
