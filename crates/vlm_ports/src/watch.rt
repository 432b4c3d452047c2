//! Watchers: threads that see how resources are used, and never wait.
//!
//! A [`Board`] publishes a row for each of up to 16 root resources. A [`Watcher`] reads the last published row on a
//! thread of its own, while the lock manager goes on with its work. The published changes are a list that only grows. A
//! watcher sees a first part of this list, and that part never shrinks. A [`Told`] value carries the published list to
//! a watcher, which then sees that much or more.
//!
//! # Implementation
//!
//! The kit's `left_right` has two copies of a sheet: readers read one while the writer changes the other. A sheet has
//! only the last change. The list of all changes exists only in proofs, as the log of a book of the kit's `logbook`;
//! its length is one word. A sheet and a told value carry the first part of the list that they belong to, which takes
//! no room. So a watcher compares two counts, and two changes if the counts are equal, and knows which list begins with
//! the other. A publish appends to the writer's log, which is the only growth. Then it lengthens the list, and swaps
//! the copies as soon as no reader is in the spare one.
mod board;
mod faults;
mod history;
mod publisher;
mod rows;
mod sheet;
mod told;
mod view;
mod watcher;

pub use board::Board;
pub use faults::BoardFault;
pub use rows::{RootKey, Row};
pub use told::Told;
pub use watcher::Watcher;
