//! The key of a resource with its hash.

use std::hash::{Hash, Hasher};
use vlm_words::resources::Key;

/// A key with its hash under the store's keys, so that the key is hashed only once.
#[derive(Clone, Copy)]
pub(crate) struct HashedKey {
    pub key: Key,
    pub hash: u32,
}

impl PartialEq for HashedKey {
    ghost use Rattle.std.specs.Cmp.{decided, partial_equiv_from_equiv};
    ghost use Rattle.vlm_store.specs.HashedKeys.{is_same_hashed, is_same_hashed-Decides};

    ghost eq = { is_same_hashed };

    ghost laws = { partial_equiv_from_equiv (decided is_same_hashed is_same_hashed-Decides) };

    fn eq(&self, other: &HashedKey) -> bool {
        self.hash == other.hash && self.key == other.key
    }
}

impl Eq for HashedKey {
    ghost use Rattle.std.specs.Cmp.{decided};
    ghost use Rattle.vlm_store.specs.HashedKeys.{is_same_hashed, is_same_hashed-Decides};

    ghost laws = { decided is_same_hashed is_same_hashed-Decides };
}

impl Hash for HashedKey {
    ghost use Rattle.std.specs.Hash.{same_Alike};
    ghost use Rattle.vlm_store.specs.HashedKeys.{is_same_hashed-Decides, hashed_input};

    ghost hash_input = { hashed_input };

    ghost respects_eq = { (same_Alike hashed_input is_same_hashed-Decides).fed };

    // Feeds only the hash, which is cheap. That is safe: nobody can foresee the hash of a name without the keys.
    fn hash<H: Hasher>(&self, state: &mut H) {
        state.write_u32(self.hash);
    }
}
