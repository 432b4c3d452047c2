//! An index of handles by number, in parts.

ghost use Rattle.std.specs.Prelude.{◌≡◌, ◌<◌, ℕ, None, Some, is_none, IfOk, IsOk, OnErr, OnOk};
ghost use Rattle.std.specs.Bool.{OnFalse, OnTrue};
ghost use Rattle.indexmap.specs.IndexMap.{IsEmpty};
ghost use Rattle.vlm_collections.specs.Parts.{FindsSame, KeepsSpares, UsesOneSpare, Writes, handle_in, spare_for, spares_of};

use crate::handles::At;
use crate::number_map::NumberMap;
use std::alloc::{AllocError, Global};
use std::array::from_fn;
use std::marker::Model;

const PARTS: usize = 64;

// How many numbers that follow each other share a part.
const RUN: usize = 1_024;

// How many numbers a part has at least to be grown early, and for how many more. It gets about a run of random numbers
// from one look to the next.
const LARGE: usize = 2_048;

const EARLY: usize = 1_200;

/// Finds handles by number. It has 64 parts, since a large index in one piece would stop the machine each time that it
/// grows and moves. A full part grows alone, so a growth moves about a 64th of the index, in a 64th of the time. 1,024
/// numbers that follow each other share a part, so that parts grow far from each other if numbers come in order. If
/// they come at random, all parts are full at nearly the same time: then call [`PartedIndex::grow_early`] now and then.
#[derive(Drop)]
pub struct PartedIndex<Kind> {
    // part k has the numbers whose run has remainder k modulo 64
    parts: [NumberMap<Kind>; PARTS],
}

impl<Kind> Model for PartedIndex<Kind> {
    ghost use Rattle.std.specs.Prelude.{◌≡◌, length};
    ghost use Rattle.std.specs.Coded.{coded_list, coded_ℕ};
    ghost use Rattle.indexmap.specs.Layout.{hash_map_code};
    ghost use Rattle.vlm_collections.specs.Parts.{Parts};
    ghost use Rattle.vlm_collections.specs.contracts.hashers.HashSpread.{the_row as spread};

    ghost Value = { Parts };

    ghost coded = { coded_list (hash_map_code coded_ℕ coded_ℕ spread.coded) };

    ghost view = { λ x. x.parts };

    ghost invariant = { λ x. length x.parts ≡ 64 };
}

impl<Kind> PartedIndex<Kind> {
    /// An empty index. It takes no memory.
    pub fn new(alloc: Global) -> Self
        ensures { (number : ℕ) → handle_in result number ≡ None }
    {
        PartedIndex {
            parts: from_fn(
                |_|
                    ensures { IsEmpty result }
                { NumberMap::new(alloc) },
            ),
        }
    }

    #[inline(always)]
    pub fn get(&self, number: u32) -> Option<At<Kind>>
        ensures { result ≡ handle_in self.now number }
    {
        let at = self.parts[number as usize / RUN % PARTS].get(number)?;
        Some(At::from_raw(at))
    }

    /// Makes room for one more number in the part of this number.
    #[inline(always)]
    pub fn reserve(&mut self, number: u32) -> Result<(), AllocError>
        ensures same { FindsSame self.old self.new }
        ensures room { KeepsSpares (spares_of self.old) (spares_of self.new) }
        ensures find { OnOk result (0 < spare_for (spares_of self.new) number) }
        ensures succeeds { 0 < spare_for (spares_of self.old) number → IsOk result }
    {
        self.parts[number as usize / RUN % PARTS].reserve(1)
    }

    /// Looks at the part of this number, and makes room in it if it is large and nearly full. If memory is refused,
    /// nothing changes. A caller whose numbers come at random counts its inserts, and calls this with each 1,024th
    /// count: so it looks at the parts by turns, and at most one large part grows in a row of 1,024 inserts.
    #[inline(never)]
    pub fn grow_early(&mut self, number: u32)
        ensures same { FindsSame self.old self.new }
        ensures room { KeepsSpares (spares_of self.old) (spares_of self.new) }
    {
        if self.parts[number as usize / RUN % PARTS].len() >= LARGE {
            let _ = self.parts[number as usize / RUN % PARTS].reserve(EARLY);
        }
    }

    /// Gives a number this handle, if it has none. Whether it had none. If memory is refused, nothing is changed.
    #[inline(always)]
    pub fn insert(&mut self, number: u32, at: At<Kind>) -> Result<bool, AllocError>
        ensures is_new { IfOk result (λ new. new ≡ is_none (handle_in self.old number)) }
        ensures writes { IfOk result (λ new. OnTrue new (Writes number (Some at) self.old self.new)) }
        ensures same { IfOk result (λ new. OnFalse new (FindsSame self.old self.new)) }
        ensures taken { UsesOneSpare (spares_of self.old) (spares_of self.new) }
        ensures succeeds { 0 < spare_for (spares_of self.old) number → IsOk result }
        ensures refused { OnErr result (FindsSame self.old self.new) }
        ensures kept { OnErr result (KeepsSpares (spares_of self.old) (spares_of self.new)) }
    {
        self.parts[number as usize / RUN % PARTS].insert(number, at.raw())
    }

    #[inline(always)]
    pub fn remove(&mut self, number: u32)
        ensures writes { Writes number None self.old self.new }
        ensures room { KeepsSpares (spares_of self.old) (spares_of self.new) }
    {
        self.parts[number as usize / RUN % PARTS].remove(number);
    }
}
