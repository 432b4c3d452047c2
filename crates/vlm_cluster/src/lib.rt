//! Serves lists of steps from up to eight nodes. A worker thread posts each list, while the hub makes
//! its turns in the caller's thread.
//!
//! [`serve_lists`] starts a worker for each list. The worker asks its [`Gate`] before each step, posts the list and
//! then the departure of its node, and takes items until every post is answered. The hub cuts its journal into parts as
//! it goes. When all workers have finished, the caller's thread serves and takes what is left on the rings. The
//! [`Report`] says what happened.
#![tactic(auto)]

mod client;
mod finish;
mod gate;
mod hub_driver;
mod laws;
mod lists;
mod pause;
mod posts;
mod preallocated;
mod report;
mod settlement;
mod signals;
mod threads;
mod worker;

pub use gate::{Gate, Go, OpenGate};
pub use lists::{serve_lists, serve_lists_over};
pub use posts::posts_of;
pub use report::{Fault, Report};
