//! The records of the lock machine, and the lists that run through them.
//!
//! # Implementation
//!
//! Three slabs have the records of locks, resources and processes. A handle (`At`) is a place in a slab, in four
//! bytes. It is valid until its record is removed; after that another record may get it.
//!
//! A lock is in one queue of a resource, or loose: in no queue, between two calls of its owner. It is in the list of
//! its process and, if it has a parent lock, in the sublocks of that lock. For each list it has a pair of links. The
//! ends of the lists are in the other records. Three more lists have only some locks: the armed locks of a resource
//! above NL, those above CR, both in the order of the granted queue, and the wait list, which has the queued locks of
//! all resources. Resources and processes are linked in the order of making.
//!
//! Memory is read a line of 64 bytes at a time. So the fields that neighbours write and that each step reads stand
//! first in a record, and those of few steps last.
//!
//! A resource counts its locks by mode in a tally: a granted lock as holding, a waiting lock as wanting, and a
//! converting lock as both. So two questions take constant time: does a mode fit beside all others, and is a held mode
//! in the way of a queued request? A lock that moves leaves the armed locks, is counted out, is linked anew, is counted
//! in, and joins the armed locks again if it is armed. One case is shorter: a granted lock that is last in its queue,
//! and goes to the end of that queue with the same armed rank, keeps its links. Only its row and the counts change.
//!
//! # Queues with reserved room
//!
//! A process keeps its ASTs in an `AstQueue`. Room is reserved when a request is accepted (`owe`). Only that call may
//! need memory: an AST is queued into room that is there, and cannot fail. Room that no AST will need is given back
//! (`forgive`). `NodeMarks` are sets of processes, one for each node, whose least member is found at once.
//!
//! # What links what
//!
//! `Queues` has the slabs of locks and resources, and links the lists of a resource (`queues`, `counts`, `armed`).
//! The store has the slab of processes, the wait list, and the two orders of making, so functions beside `Queues` link
//! their lists and the sublocks (`kin`, `wait_list`). Nothing here takes memory or looks up a record: the caller made
//! the room, and has the handle.
#![tactic(auto)]

mod armed;
mod ast_queues;
mod ast_rings;
mod counts;
mod handles;
mod kin;
mod locks;
mod node_marks;
mod process_asts;
mod processes;
mod queues;
mod resources;
mod rows;
mod tallies;
mod wait_list;

pub use ast_queues::AstQueue;
pub use handles::{Armed, LockAt, LockKind, Place, ProcAt, ProcessKind, ResAt, ResourceKind};
pub use kin::{join_parent, join_process, leave_parent, leave_process};
pub use locks::{InAboveCr, InAboveNl, InQueue, InWaitList, Lock, OfParent, OfProcess};
pub use node_marks::NodeMarks;
pub use processes::{Authorization, Process, put_in, take_out};
pub use queues::Queues;
pub use resources::{InOrder, Resource};
pub use rows::StoredState;
pub use wait_list::{join_wait_list, leave_wait_list};
