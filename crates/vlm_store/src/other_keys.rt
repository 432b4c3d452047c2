//! An index of the few resources whose hash another resource had when they came.

ghost use Rattle.std.specs.Prelude.{◌≡◌, ◌≤◌, ◌+◌, None, Some};
ghost use Rattle.indexmap.specs.IndexMap.{Updates, get, spare};
ghost use Rattle.vlm_store.specs.HashedKeys.{is_same_hashed};
ghost use Rattle.vlm_store.specs.OtherKeys.{HasRoomMade, TakesOut};

use crate::hashed::HashedKey;
use indexmap::IndexMap;
use std::alloc::{AllocError, Global};
use std::marker::Model;
use vlm_collections::HashSpread;
use vlm_records::ResAt;
use vlm_words::resources::Key;

// The length of the array that notes which hashes occur. A hash is at its remainder.
const REMAINDERS: usize = 1_024;

/// Finds a resource by its key. An array notes which hashes occur, so a hash that no resource here has nearly always
/// costs one look into the array.
#[derive(Drop)]
pub(crate) struct OtherKeys {
    resources: IndexMap<HashedKey, ResAt, HashSpread>,
    // whether a resource here may have a hash with this remainder
    may_have: [bool; REMAINDERS],
    // whether there is room for one more resource; if not, there may still be room
    has_room: bool,
}

impl Model for OtherKeys {
    ghost use Rattle.std.specs.Coded.{coded_ℕ};
    ghost use Rattle.indexmap.specs.Layout.{hash_map_code};
    ghost use Rattle.vlm_store.specs.OtherKeys.{KeyMap};
    ghost use Rattle.vlm_store.specs.contracts.hashed.HashedKey.{the_row as hashed};
    ghost use Rattle.vlm_collections.specs.contracts.hashers.HashSpread.{the_row as spread};

    ghost Value = { KeyMap };

    ghost coded = { hash_map_code hashed.coded coded_ℕ spread.coded };

    ghost use Rattle.vlm_store.specs.OtherKeys.{AreNoted};

    ghost view = { λ x. x.resources };

    ghost invariant = { AreNoted };
}

impl OtherKeys {
    /// No resource. It takes no memory.
    pub fn new(alloc: Global) -> Self
        ensures { (k : HashedKey) → get is_same_hashed result k ≡ None }
    {
        OtherKeys {
            resources: IndexMap::with_hasher(alloc, HashSpread::new()),
            may_have: [false; REMAINDERS],
            has_room: false,
        }
    }

    /// Makes room for one more resource, if there is no room.
    #[inline(always)]
    pub fn reserve(&mut self) -> Result<(), AllocError>
        ensures { HasRoomMade self.old self.new result }
    {
        if self.has_room {
            return Ok(());
        }
        self.make_room()
    }

    #[inline(never)]
    fn make_room(&mut self) -> Result<(), AllocError>
        ensures { HasRoomMade self.old self.new result }
    {
        self.resources.reserve(1)?;
        self.has_room = true;
        Ok(())
    }

    #[inline(always)]
    pub fn get(&self, key: &Key, hash: u32) -> Option<ResAt>
        ensures { result ≡ get is_same_hashed self.now (record { key = key.now; hash = hash }) }
    {
        if !self.may_have[hash as usize % REMAINDERS] {
            return None;
        }
        self.find(key, hash)
    }

    // Looks into the map.
    #[inline(never)]
    fn find(&self, key: &Key, hash: u32) -> Option<ResAt>
        ensures { result ≡ get is_same_hashed self.now (record { key = key.now; hash = hash }) }
    {
        let found = HashedKey { key: *key, hash };
        self.resources.get(&found).copied()
    }

    #[inline(always)]
    pub fn insert(&mut self, key: &Key, hash: u32, at: ResAt)
        requires { 1 ≤ spare self.old }
        ensures updates { Updates is_same_hashed self.old self.new (record { key = key.now; hash = hash }) (Some at) }
        ensures spare { spare self.old ≤ spare self.new + 1 }
    {
        self.may_have[hash as usize % REMAINDERS] = true;
        self.has_room = false;
        let _ = self.resources.insert(HashedKey { key: *key, hash }, at);
    }

    /// Whether the resource with this key was here. It is not here any more.
    #[inline(always)]
    pub fn remove(&mut self, key: &Key, hash: u32) -> bool
        ensures { TakesOut (record { key = key.now; hash = hash }) self.old self.new result }
    {
        if !self.may_have[hash as usize % REMAINDERS] {
            return false;
        }
        self.take_out(key, hash)
    }

    #[inline(never)]
    fn take_out(&mut self, key: &Key, hash: u32) -> bool
        ensures { TakesOut (record { key = key.now; hash = hash }) self.old self.new result }
    {
        let found = HashedKey { key: *key, hash };
        let was_here = self.resources.swap_remove(&found).is_some();
        if self.resources.is_empty() {
            self.may_have = [false; REMAINDERS];
        }
        was_here
    }
}
