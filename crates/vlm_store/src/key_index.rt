//! The index of resources by their keys.

ghost use Rattle.std.specs.Prelude.{◌≡◌, ◌+◌, ◌<◌, ℕ, Some, IsOk, OnErr, OnOk};
ghost use Rattle.slab.specs.Slab.{ContainsKey};
ghost use Rattle.vlm_collections.specs.Parts.{FindsSame, KeepsSpares, UsesOneSpare, spare_for, spares_of};
ghost use Rattle.vlm_store.specs.HashedKeys.{hashed_in};
ghost use Rattle.vlm_store.specs.KeyIndexes.{Enters, FindsNothing, IsSame, Leaves, found_by, main_of, spares_in};

use crate::other_keys::OtherKeys;
use slab::Slab;
use std::alloc::{AllocError, Global};
use vlm_collections::PartedIndex;
use vlm_records::{ResAt, Resource, ResourceKind};
use vlm_words::resources::Key;

/// Finds resources by their keys. The index has hashes of 32 bits; the keys are in the records. If several resources
/// have one hash, `main` leads to one of them, and `others` finds the rest by their keys. There are few of these, since
/// nobody can choose names with equal hashes without the keys of the hash.
pub(crate) struct KeyIndex {
    // the resource of each hash; if several have it, one that came when no other had it
    main: PartedIndex<ResourceKind>,
    // all other resources, by their keys; nearly always empty
    others: OtherKeys,
    // how many resources were to be added
    inserts: u32,
}

// How many resources are added between two looks at a part of the index.
const BETWEEN_LOOKS: u32 = 1_024;

// Written out: a drop is then one call in each owner of an index.
impl Drop for KeyIndex {
    fn drop(self) {
        let KeyIndex {
            main: _,
            others: _,
            inserts: _,
        } = self;
    }
}

impl KeyIndex {
    /// An empty index. It takes no memory.
    pub fn new(alloc: Global) -> Self
        ensures { FindsNothing result }
    {
        KeyIndex {
            main: PartedIndex::new(alloc),
            others: OtherKeys::new(alloc),
            inserts: 0,
        }
    }

    // Counts the inserts. One of 1,024 looks at a part of the index, each at the next part.
    #[inline(always)]
    fn look_ahead(&mut self)
        ensures main { FindsSame self.old.main self.new.main }
        ensures room { KeepsSpares (spares_of self.old.main) (spares_of self.new.main) }
        ensures others { self.new.others ≡ self.old.others }
    {
        self.inserts = self.inserts.wrapping_add(1);
        if self.inserts % BETWEEN_LOOKS == 0 {
            self.main.grow_early(self.inserts);
        }
    }

    pub fn get(&self, resources: &Slab<Resource>, key: &Key, hash: u32) -> Option<ResAt>
        requires { (at : ℕ) → main_of self.now hash ≡ Some at → ContainsKey resources.now at }
        ensures { result ≡ found_by self.now resources.now (record { key = key.now; hash = hash }) }
    {
        if let Some(at) = self.main.get(hash) {
            if resources[at.slot()].key == *key {
                return Some(at);
            }
        }
        self.others.get(key, hash)
    }

    /// Adds a resource. If another resource has the same hash, the new one goes to `others`. If memory is refused,
    /// nothing is changed, except that there may be more room.
    pub fn insert(&mut self, key: &Key, hash: u32, at: ResAt) -> Result<(), AllocError>
        ensures enters { OnOk result (Enters (record { key = key.now; hash = hash }) at self.old self.new) }
        ensures taken { OnOk result (UsesOneSpare (spares_in self.old) (spares_in self.new)) }
        ensures succeeds { 0 < spare_for (spares_in self.old) hash → IsOk result }
        ensures refused { OnErr result (IsSame self.old self.new) }
        ensures kept { OnErr result (KeepsSpares (spares_in self.old) (spares_in self.new)) }
    {
        self.look_ahead();
        self.others.reserve()?;
        if !self.main.insert(hash, at)? {
            self.others.insert(key, hash, at);
        }
        Ok(())
    }

    pub fn remove(&mut self, resource: &Resource)
        ensures leaves { Leaves (hashed_in resource.now) self.old self.new }
        ensures room { KeepsSpares (spares_in self.old) (spares_in self.new) }
    {
        if self.others.remove(&resource.key, resource.hash) {
            return;
        }
        self.main.remove(resource.hash);
    }
}
