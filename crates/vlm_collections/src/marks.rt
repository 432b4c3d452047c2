//! A set of numbers, in three levels of words.

ghost use Rattle.std.specs.Prelude.{◌≡◌, ◌≤◌, ◌<◌, ◌-◌, ◌*◌, ◌/◌, ◌++◌, [], false, length, position, replicate, slice_index_or, slice_set, true, IsOk, OnErr, OnOk};

use crate::bit_words::{clear_bit, first_bit, has_bit, set_bit};
use std::alloc::{AllocError, Global};
use std::marker::Model;

/// A set of numbers from 0 to 65,535. A mark says that a number is in the set.
#[derive(Drop)]
pub struct Marks {
    // a bit for each number that there is room for: 1 if it is marked
    numbers: Vec<u64>,
    // a bit for each word of `numbers`: 1 if the word is not 0
    words: [u64; 16],
    // a bit for each word of `words`: 1 if the word is not 0
    top: [u64; 1],
}

impl Model for Marks {
    ghost use Rattle.std.specs.Prelude.{Bool, List};

    // For each number that there is room for: whether it is marked.
    ghost Value = { List Bool };

    ghost use Rattle.vlm_collections.specs.Marks.{IsLevelled, marks_shown};

    ghost view = { marks_shown };

    ghost invariant = { IsLevelled };
}

impl Marks {
    /// An empty set without room. It takes no memory.
    pub fn new(alloc: Global) -> Self
        ensures { result ≡ [] }
    {
        Marks {
            numbers: Vec::new(alloc),
            words: [0; 16],
            top: [0],
        }
    }

    /// Makes room for the number, the lower ones and at most 63 higher ones, all new ones unmarked. If memory is
    /// refused, nothing is changed. The memory doubles as it grows, so the words seldom move.
    pub fn make_room(&mut self, number: u16) -> Result<(), AllocError>
        ensures room { OnOk result (number < length self.new) }
        ensures unmarked { OnOk result (self.new
            ≡ self.old ++ replicate (length self.new - length self.old) false) }
        ensures succeeds { 64 * (number / 64) < length self.old → IsOk result }
        ensures refused { OnErr result (self.new ≡ self.old) }
    {
        let count = usize::from(number) / 64 + 1;
        if self.numbers.len() < count {
            self.numbers.resize(count, 0)?;
        }
        Ok(())
    }

    pub fn mark(&mut self, number: u16)
        requires { number < length self.old }
        ensures { self.new ≡ slice_set self.old number true }
    {
        let number = usize::from(number);
        set_bit(&mut self.numbers, number);
        set_bit(&mut self.words, number / 64);
        set_bit(&mut self.top, number / 64 / 64);
    }

    pub fn unmark(&mut self, number: u16)
        requires { number < length self.old }
        ensures { self.new ≡ slice_set self.old number false }
    {
        let number = usize::from(number);
        if !clear_bit(&mut self.numbers, number) {
            return;
        }
        if clear_bit(&mut self.words, number / 64) {
            clear_bit(&mut self.top, number / 64 / 64);
        }
    }

    /// Removes all marks, one after another. The room stays.
    pub fn clear(&mut self)
        ensures { self.new ≡ replicate (length self.old) false }
    {
        while let Some(number) = self.first() {
            self.unmark(number);
        }
    }

    pub fn has(&self, number: u16) -> bool
        ensures { result ≡ slice_index_or self.now number false }
    {
        has_bit(&self.numbers, usize::from(number))
    }

    pub fn first(&self) -> Option<u16>
        ensures { result ≡ position (λ is_marked. is_marked) self.now }
    {
        if self.top[0] == 0 {
            return None;
        }
        let top = first_bit(&self.top, 0);
        let word = first_bit(&self.words, top);
        Some(first_bit(&self.numbers, word) as u16)
    }
}
