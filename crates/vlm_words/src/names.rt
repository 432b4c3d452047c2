//! The names of resources, before and after their check.

ghost use Rattle.std.specs.Cmp.Lexicographic.{pointwise};
ghost use Rattle.std.specs.Prelude.{◌≡◌, true, length, nat_eq, take};
ghost use Rattle.vlm_words.specs.NameWords.{name_words};
ghost use Rattle.vlm_words.specs.Names.{is_name, name_of};

use crate::conditions::Cond;
use crate::texts::Text;
use std::marker::Model;

/// A resource's name: 1 to 31 bytes.
#[derive(Clone, Copy)]
pub struct Name {
    text: Text<31>,
}

impl Model for Name {
    ghost use Rattle.std.specs.Prelude.{◌≡◌, ℕ, List, true};
    ghost use Rattle.vlm_words.specs.Names.{is_name};

    ghost Value = { List ℕ };

    ghost view = { λ n. n.text };

    ghost invariant = { λ n. is_name n.text ≡ true };

    ghost inverse = { λ bytes. record { text = bytes } };
}

impl Name {
    /// The bytes as a name. IVBUFLEN if there are 0 bytes, or more than 31.
    #[tactic(auto, unfolding(crate::specs::Names::name_of))]
    pub fn new(bytes: &[u8]) -> Result<Name, Cond>
        ensures { result ≡ name_of bytes.now }
    {
        let len = bytes.len();
        if 0 < len && len <= 31 {
            Ok(Name {
                text: Text::of(bytes),
            })
        } else {
            Err(Cond::Ivbuflen)
        }
    }

    /// The name as four words of eight bytes, low byte first, padded with zeros. A name has at most 31 bytes, so the
    /// last word begins at byte 23 and shares that byte with the third.
    pub fn words(&self) -> [u64; 4]
        ensures { result ≡ name_words self.now }
    {
        [
            self.text.word(0),
            self.text.word(8),
            self.text.word(16),
            self.text.word(23),
        ]
    }

    /// Whether the names are equal. It compares whole words.
    pub fn is_same(&self, other: &Name) -> bool
        ensures { result ≡ pointwise nat_eq self.now other.now }
    {
        self.text.is_same(&other.text)
    }

    /// The number of bytes, 1 to 31.
    pub fn len(&self) -> u8
        ensures { result ≡ length self.now }
    {
        self.text.len()
    }

    /// The bytes without the padding.
    pub fn bytes(&self) -> &[u8]
        ensures { result.now ≡ self.now }
    {
        self.text.bytes()
    }
}

/// A resource name as the caller gives it, unchecked. It keeps at most 32 bytes: a longer name is refused anyway.
#[derive(Clone, Copy)]
pub struct NameArg {
    text: Text<32>,
}

impl Model for NameArg {
    ghost use Rattle.std.specs.Prelude.{ℕ, List};

    ghost Value = { List ℕ };

    ghost view = { λ n. n.text };

    ghost inverse = { λ bytes. record { text = bytes } };
}

impl NameArg {
    /// Keeps the first 32 bytes, or all if there are fewer.
    pub fn of(bytes: &[u8]) -> NameArg
        ensures { result ≡ take 32 bytes.now }
    {
        NameArg {
            text: Text::of(bytes),
        }
    }

    /// Whether the bytes are a name: 1 to 31 of them.
    pub fn is_name(&self) -> bool
        ensures { result ≡ is_name self.now }
    {
        0 < self.text.len() && self.text.len() <= 31
    }

    /// The name, after `is_name` has accepted it.
    pub fn checked(&self) -> Name
        requires { is_name self.now ≡ true }
        ensures { result ≡ self.now }
    {
        Name {
            text: self.text.narrowed(),
        }
    }

    /// The name. IVBUFLEN if the bytes are not a name.
    #[tactic(auto, unfolding(crate::specs::Names::name_of))]
    pub fn name(&self) -> Result<Name, Cond>
        ensures { result ≡ name_of self.now }
    {
        if self.is_name() {
            Ok(self.checked())
        } else {
            Err(Cond::Ivbuflen)
        }
    }
}
