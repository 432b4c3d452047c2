//! The hashes of the indexes.

ghost use Rattle.std.specs.Prelude.{◌≡◌};
ghost use Rattle.std.specs.Hash.DefaultHasher.{initial as empty, write};
ghost use Rattle.vlm_collections.specs.Hashing.{hash_of, key_words, spreading};
ghost use Rattle.vlm_collections.specs.Sip.{initial};

use crate::sip::SipState;
use std::hash::{BuildHasher, DefaultHasher, Hasher};

// 2^64 over the golden ratio. Its multiples are far apart.
const SPREAD: u64 = 0x9E37_79B9_7F4A_7C15;

/// The keyed hash of names: SipHash with secret keys. A caller who does not know the keys cannot choose names with
/// equal hashes. No answer depends on the keys.
#[derive(Clone, Copy)]
pub struct HashKeys {
    // the state of SipHash after the keys: `words` hashes words, `bytes` hashes bytes
    words: SipState,
    bytes: DefaultHasher,
}

impl HashKeys {
    /// Fixed keys. Callers can choose names with equal hashes, which makes lookups slow.
    pub fn fixed() -> HashKeys
        ensures words { result.words ≡ initial 0 0 }
        ensures bytes { result.bytes ≡ empty }
    {
        HashKeys {
            words: SipState::new(0, 0),
            bytes: DefaultHasher::new(),
        }
    }

    /// These keys. If they are random and secret, nobody can choose names with equal hashes.
    pub fn of(key: [u8; 16]) -> HashKeys
        ensures words { result.words ≡ (let words = key_words key in initial words.0 words.1) }
        ensures bytes { result.bytes ≡ write empty key }
    {
        let mut bytes = DefaultHasher::new();
        bytes.write(&key);
        let both = u128::from_le_bytes(key);
        HashKeys {
            words: SipState::new((both & 0xFFFF_FFFF_FFFF_FFFF) as u64, (both >> 64) as u64),
            bytes,
        }
    }

    /// The hash of these words. It costs one round for each word, and three more.
    #[tactic(auto, using(std::proofs::lemmas::List::Sums::fold_more), unfolding(crate::specs::Hashing::hash_of))]
    pub fn hash_of(&self, words: &[u64]) -> u32
        ensures { result ≡ hash_of self.now words.now }
    {
        let mut state = self.words;
        match *words {
            // The keys of names with up to 16 bytes, without a loop's counting.
            [first, second] => {
                state.compress(first);
                state.compress(second);
            }
            [first, second, third] => {
                state.compress(first);
                state.compress(second);
                state.compress(third);
            }
            _ => {
                for word in words {
                    state.compress(*word);
                }
            }
        }
        state.finish()
    }
}

impl BuildHasher for HashKeys {
    type Hasher = DefaultHasher;

    ghost build_hasher = { λ keys. keys.bytes };

    fn build_hasher(&self) -> DefaultHasher {
        self.bytes
    }
}

/// The hash of numbers of 32 bits: the upper half of a product, which depends on every bit of the number. Callers
/// cannot choose these numbers: the machine gives IDs in order, and resource keys are hashed with keys.
#[derive(Clone, Copy)]
pub struct HashSpread {
    // the hash of the number that was written; 0 before, and after input that is not four bytes long
    spread: u64,
}

impl HashSpread {
    pub fn new() -> HashSpread
        ensures { result.spread ≡ 0 }
    {
        HashSpread { spread: 0 }
    }
}

impl Hasher for HashSpread {
    ghost write = { spreading };

    ghost finish = { λ h. h.spread };

    fn finish(&self) -> u64 {
        self.spread
    }

    fn write(&mut self, bytes: &[u8]) {
        self.spread = match <[u8; 4]>::try_from(bytes) {
            Ok(number) => u64::from(u32::from_le_bytes(number)).wrapping_mul(SPREAD) >> 32,
            Err(_) => 0,
        };
    }
}

impl BuildHasher for HashSpread {
    type Hasher = HashSpread;

    ghost build_hasher = { λ h. h };

    fn build_hasher(&self) -> HashSpread {
        *self
    }
}
