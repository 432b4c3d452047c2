//! The place of a resource in its tree, its value block, and its three queues.

ghost use Rattle.std.specs.Prelude.{◌≡◌, ◌<◌, ◌^◌};
ghost use Rattle.vlm_words.specs.Keys.{name_space};
ghost use Rattle.vlm_words.specs.NameWords.{key_words, word_count};
ghost use Rattle.vlm_words.specs.Resources.{key_name, key_parent};
ghost use Rattle.vlm_words.specs.ValueBlocks.{invalid_value_block, new_value_block, return_status, written_value_block};

use crate::conditions::Cond;
use crate::names::Name;

/// The name space of a root. Sub-resources are in the domain of their root.
#[derive(Clone, Copy, PartialEq, Eq)]
pub enum Domain {
    /// The names of one UIC group.
    Group(u16),
    /// The names of the whole system.
    System,
}

/// What a resource is found by. No two resources have one key.
#[derive(Clone, Copy)]
pub enum Key {
    /// A root, by its domain and its name.
    Root(Domain, Name),
    /// A sub-resource, by the serial of its parent resource and its name.
    Below(u32, Name),
}

/// Where a resource is: its key, its domain, and its level below the root.
#[derive(Clone, Copy)]
pub struct Site {
    /// What it is found by.
    pub key: Key,
    /// The domain of its root.
    pub domain: Domain,
    /// 0 for a root, at most 15.
    pub level: u8,
}

impl Key {
    /// The serial of the parent resource, or 0 for a root.
    pub fn parent(&self) -> u32
        ensures { result ≡ key_parent self.now }
    {
        match self {
            Key::Root(_, _) => 0,
            Key::Below(parent, _) => *parent,
        }
    }

    /// The name of the resource.
    pub fn name(&self) -> Name
        ensures { result ≡ key_name self.now }
    {
        match self {
            Key::Root(_, name) | Key::Below(_, name) => *name,
        }
    }

    /// The words that are hashed for a key: its name space with the length of the name, then the words of the name.
    pub fn words(&self) -> [u64; 5]
        ensures { result ≡ key_words self.now }
    {
        let name = self.name();
        let [first, second, third, last] = name.words();
        let space = 256 * self.name_space() + u64::from(name.len());
        [space, first, second, third, last]
    }

    /// How many of these words to hash. The words after them are zeros.
    pub fn word_count(&self) -> usize
        ensures { result ≡ word_count self.now }
    {
        match self.name().len() {
            0..=8 => 2,
            9..=16 => 3,
            _ => 5,
        }
    }

    // The name space as one number. Groups, the system's domain and parent resources have ranges of their own.
    fn name_space(&self) -> u64
        ensures space { result ≡ name_space self.now }
        ensures below { result < 2 ^ 33 }
    {
        match self {
            Key::Root(Domain::Group(group), _) => u64::from(*group),
            Key::Root(Domain::System, _) => 1 << 16,
            Key::Below(parent, _) => (1 << 32) + u64::from(*parent),
        }
    }
}

impl PartialEq for Key {
    ghost use Rattle.std.specs.Cmp.{decided, partial_equiv_from_equiv};
    ghost use Rattle.vlm_words.specs.Keys.{is_same_key, is_same_key-Decides};

    ghost eq = { is_same_key };

    ghost laws = { partial_equiv_from_equiv (decided is_same_key is_same_key-Decides) };

    // Kept out of line: inlined, it would cost each step registers.
    #[inline(never)]
    fn eq(&self, other: &Key) -> bool {
        match (self, other) {
            (Key::Root(domain, name), Key::Root(other_domain, other_name)) => {
                *domain == *other_domain && name.is_same(other_name)
            }
            (Key::Below(parent, name), Key::Below(other_parent, other_name)) => {
                *parent == *other_parent && name.is_same(other_name)
            }
            _ => false,
        }
    }
}

impl Eq for Key {
    ghost use Rattle.std.specs.Cmp.{decided};
    ghost use Rattle.vlm_words.specs.Keys.{is_same_key, is_same_key-Decides};

    ghost laws = { decided is_same_key is_same_key-Decides };
}

/// The value block of a resource: a value of 16 bytes, a tail of 48 (own), and a mark for each that says whether it
/// is valid. The tail is valid only if the value is.
#[derive(Clone, Copy)]
pub struct ValueBlock {
    /// The 16 bytes, valid or not.
    pub value: [u8; 16],
    /// False after a writer marked the value block invalid, until the next write.
    pub valid: bool,
    /// The 48 bytes of the tail, valid or not.
    pub tail: [u8; 48],
    /// False after a write of 16 bytes too, since the tail belonged to the overwritten value.
    pub tail_valid: bool,
}

impl ValueBlock {
    /// A new value block: zeros, all valid.
    pub fn new() -> ValueBlock
        ensures { result ≡ new_value_block }
    {
        ValueBlock {
            value: [0; 16],
            valid: true,
            tail: [0; 48],
            tail_valid: true,
        }
    }

    /// Writes the value, and the tail if one is given. What is written becomes valid. Without a given tail the old
    /// one keeps its bytes and becomes invalid.
    pub fn write(&mut self, value: [u8; 16], tail: Option<[u8; 48]>)
        ensures { self.new ≡ written_value_block value tail self.old }
    {
        self.value = value;
        self.valid = true;
        self.tail_valid = tail.is_some();
        if let Some(tail) = tail {
            self.tail = tail;
        }
    }

    /// Marks value and tail invalid. The bytes stay.
    pub fn invalidate(&mut self)
        ensures { self.new ≡ invalid_value_block self.old }
    {
        self.valid = false;
        self.tail_valid = false;
    }

    /// The status of a grant that returns this value block: VALNOTVALID if the value is invalid; else WIDENOTVALID if
    /// the tail is, for a wide return; else NORMAL.
    pub fn return_status(&self, wide: bool) -> Cond
        ensures { result ≡ return_status wide self.now }
    {
        if !self.valid {
            Cond::Valnotvalid
        } else if wide && !self.tail_valid {
            Cond::Widenotvalid
        } else {
            Cond::Normal
        }
    }
}

/// A queue of a resource. Each queue is first in, first out.
#[derive(Clone, Copy, PartialEq, Eq)]
pub enum Queue {
    /// Locks that hold a mode and want nothing.
    Granted,
    /// Locks that hold a mode and want another.
    Conversion,
    /// Locks that hold nothing and want a mode.
    Waiting,
}
