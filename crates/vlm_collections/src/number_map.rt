//! A map from numbers to handles.

ghost use Rattle.std.specs.Prelude.{◌≡◌, ◌<◌, ◌≤◌, ◌+◌, ℕ, None, Some, is_none, IfOk, IsOk, OnErr, OnOk, nat_eq};
ghost use Rattle.std.specs.Bool.{OnFalse, OnTrue};
ghost use Rattle.indexmap.specs.IndexMap.{IsEmpty, IsUnchanged, get, spare};
ghost use Rattle.vlm_collections.specs.NumberMaps.{WritesOne};

use crate::hashers::HashSpread;
use indexmap::IndexSet;
use std::alloc::{AllocError, Global};
use std::hash::{Hash, Hasher};
use std::marker::{Model, PhantomData};

/// A number and the handle that is found by it, as it is stored.
#[derive_where(Clone, Copy)]
struct Numbered<Kind> {
    number: u32,
    at: u32,
    // names the kind, and takes no memory
    kind: PhantomData<Kind>,
}

// Only the numbers are compared and hashed.
impl<Kind> PartialEq for Numbered<Kind> {
    ghost use Rattle.std.specs.Cmp.{partial_equiv_from_equiv};
    ghost use Rattle.vlm_collections.specs.NumberMaps.{is_same_number, is_same_number-IsEquivalence};

    ghost eq = { is_same_number };

    ghost laws = { partial_equiv_from_equiv is_same_number-IsEquivalence };

    fn eq(&self, other: &Numbered<Kind>) -> bool {
        self.number == other.number
    }
}

impl<Kind> Eq for Numbered<Kind> {
    ghost use Rattle.vlm_collections.specs.NumberMaps.{is_same_number-IsEquivalence};

    ghost laws = { is_same_number-IsEquivalence };
}

impl<Kind> Hash for Numbered<Kind> {
    ghost use Rattle.vlm_collections.specs.NumberMaps.{number_input, number_input-Alike};

    ghost hash_input = { number_input };

    ghost respects_eq = { number_input-Alike.fed };

    fn hash<H: Hasher>(&self, state: &mut H) {
        state.write_u32(self.number);
    }
}

/// Finds handles by number. A set of numbers with their handles reads one line of memory where a map of the kit reads
/// two, since that keeps its keys and its values apart.
#[derive(Drop)]
pub(crate) struct NumberMap<Kind> {
    numbered: IndexSet<Numbered<Kind>, HashSpread>,
}

impl<Kind> Model for NumberMap<Kind> {
    ghost use Rattle.std.specs.Prelude.{ℕ};
    ghost use Rattle.std.specs.Coded.{coded_ℕ};
    ghost use Rattle.indexmap.specs.IndexMap.{IndexMap};
    ghost use Rattle.indexmap.specs.IndexSet.{IsUnique};
    ghost use Rattle.indexmap.specs.Layout.{hash_map_code};
    ghost use Rattle.vlm_collections.specs.declared.hashers.HashSpread.{HashSpread as Spread};
    ghost use Rattle.vlm_collections.specs.contracts.hashers.HashSpread.{the_row as spread};
    ghost use Rattle.vlm_collections.specs.NumberMaps.{handles_by_number, is_same_number};

    ghost Value = { IndexMap ℕ ℕ Spread };

    ghost coded = { hash_map_code coded_ℕ coded_ℕ spread.coded };

    ghost view = { λ m. handles_by_number m.numbered };

    ghost invariant = { λ m. IsUnique is_same_number m.numbered };
}

impl<Kind> NumberMap<Kind> {
    /// No numbers. It takes no memory.
    pub fn new(alloc: Global) -> Self
        ensures { IsEmpty result }
    {
        NumberMap {
            numbered: IndexSet::with_hasher(alloc, HashSpread::new()),
        }
    }

    pub fn len(&self) -> usize {
        self.numbered.len()
    }

    #[inline(always)]
    pub fn get(&self, number: u32) -> Option<u32>
        ensures { result ≡ get nat_eq self.now number }
    {
        let sought = Numbered {
            number,
            at: 0,
            kind: PhantomData,
        };
        let found = self.numbered.get(&sought)?;
        Some(found.at)
    }

    /// Makes room for as many more numbers.
    #[inline(always)]
    pub fn reserve(&mut self, additional: usize) -> Result<(), AllocError>
        ensures entries { IsUnchanged self.old self.new }
        ensures room { spare self.old ≤ spare self.new }
        ensures ok { OnOk result (additional ≤ spare self.new) }
        ensures succeeds { additional ≤ spare self.old → IsOk result }
    {
        self.numbered.reserve(additional)
    }

    /// Gives a number this handle, if it has none. Whether it had none. If memory is refused, nothing is changed.
    #[inline(always)]
    pub fn insert(&mut self, number: u32, at: u32) -> Result<bool, AllocError>
        ensures is_new { IfOk result (λ new. new ≡ is_none (get nat_eq self.old number)) }
        ensures writes { IfOk result (λ new. OnTrue new (WritesOne number (Some at) self.old self.new)) }
        ensures same { IfOk result (λ new. OnFalse new (IsUnchanged self.old self.new)) }
        ensures taken { spare self.old ≤ spare self.new + 1 }
        ensures succeeds { 0 < spare self.old → IsOk result }
        ensures refused { OnErr result (IsUnchanged self.old self.new) }
        ensures kept { OnErr result (spare self.old ≤ spare self.new) }
    {
        let numbered = Numbered {
            number,
            at,
            kind: PhantomData,
        };
        let is_new = self.numbered.insert(numbered)?;
        Ok(is_new)
    }

    #[inline(always)]
    pub fn remove(&mut self, number: u32)
        ensures writes { WritesOne number None self.old self.new }
        ensures room { spare self.old ≤ spare self.new }
    {
        let sought = Numbered {
            number,
            at: 0,
            kind: PhantomData,
        };
        self.numbered.swap_remove(&sought);
    }
}
