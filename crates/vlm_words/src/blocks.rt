//! Lock status blocks.

ghost use Rattle.std.specs.Prelude.{◌≡◌};
ghost use Rattle.vlm_words.specs.Processes.{new_status_block};

/// A status block of a process. Requests name it by its number, and their ends write it.
#[derive(Clone, Copy, Debug, PartialEq, Eq)]
pub struct Block {
    /// The number of the last end's condition, or 0 while a request is pending and before the first end.
    pub status: u8,
    /// The lock of the last accepted request that named this block, or 0.
    pub lkid: u32,
    /// The value part: what SetValue wrote or a grant returned, and what a conversion writes from.
    pub value: [u8; 16],
    /// The tail of the value part, for requests with WIDE.
    pub tail: [u8; 48],
}

impl Block {
    /// A new status block: all zeros.
    pub fn new() -> Block
        ensures { result ≡ new_status_block }
    {
        Block {
            status: 0,
            lkid: 0,
            value: [0; 16],
            tail: [0; 48],
        }
    }
}
