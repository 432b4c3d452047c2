//! The store of the lock machine: every record, found by its ID or its key.
//!
//! # Implementation
//!
//! A `Store` has three slabs: locks, resources and processes. `vlm_records` has the records and the lists through
//! them. Three indexes lead to handles: from the ID of a lock, from the key of a resource, and from the
//! ID of a process. A caller sees no links: contracts speak of `Records`, plain lists of records with
//! their handles.
//!
//! Two sets of marks find the first living process of a node, and the first with a pending AST, without a walk.
//!
//! A slab and its index grow before a record is added, so a refusal changes nothing but the room. The indexes of
//! resources and of processes grow as they take the new handle, which spares a second look at their room. Three other
//! things take memory: the status blocks of a new process, its marks, and the room for ASTs that a process is owed.
//! Nothing shrinks.
#![tactic(auto)]

mod armed;
mod hashed;
mod key_index;
pub mod laws;
mod neighbours;
mod other_keys;
mod pending_processes;
mod processes;
mod store;
mod wait_list;

pub use store::Store;
pub use vlm_collections::HashKeys;
pub use vlm_records::{
    Armed, Authorization, Lock, LockAt, LockKind, Place, ProcAt, Process, ProcessKind, ResAt,
    Resource, ResourceKind, StoredState,
};
pub use wait_list::QueuedLocks;
