//! Collections that the records are kept in. Each makes its room beforehand, and no removal takes memory:
//!
//! - `LinkedList`: doubly linked lists that run through the records of a slab.
//! - `PartedIndex`: a record found by its number.
//! - `Marks`: a set of small numbers, whose least member is found at once.
//!
//! # Linked lists
//!
//! A record has a pair of links for each kind of list: the handle of the record before it and of the record after it,
//! each in four bytes. `Linked<Kind>` says which pair is meant, so a record may be in several lists at once, one of
//! each kind. A list has its first record, its last, and its length. Where a record has no neighbour, the list's end
//! takes the neighbour's part. A join writes the record's pair, one link of the last record, and the list. A leave
//! writes a link of each neighbour, or an end of the list, and the length.
//!
//! # Marks
//!
//! A number has a bit in a word of 64. Two more levels of words say which words of the level below are not 0. So three
//! words lead from the top to the least number.
#![tactic(auto)]

mod bit_words;
mod growth;
mod handles;
mod hashers;
mod link;
mod lists;
mod marks;
mod number_map;
mod parted;
mod sip;

pub use growth::reserve_slot;
pub use handles::{At, MaybeAt};
pub use hashers::{HashKeys, HashSpread};
pub use link::{LAST_HANDLE, Links};
pub use lists::{Linked, LinkedList};
pub use marks::Marks;
pub use parted::PartedIndex;
