//! The printed text of nodes and of watched resources. Each call appends to the bytes that it is given.
//!
//! If memory is refused, a part of the text may be appended.

pub use items::{answer_item_line, ast_item_line, journal_line};
pub use rows::{WatchedRow, watch_line};

mod items;
mod rows;
mod texts;
