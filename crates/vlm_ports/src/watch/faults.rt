//! The faults that a board is refused by.

use thiserror::Error;

/// Why there is no board.
#[derive(Clone, Copy, Debug, Error, PartialEq, Eq)]
pub enum BoardFault {
    /// Memory was refused.
    #[error("memory")]
    Memory,
    /// A place for a watcher was refused.
    #[error("no seat")]
    Seat,
}
