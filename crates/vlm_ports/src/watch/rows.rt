//! Rows of resources, and changes: the rows of up to 16 resources.

ghost use Rattle.std.specs.Prelude.{◌≡◌, ◌≤◌, IsTrue, length};
ghost use Rattle.vlm_ports.specs.Rows.{IsChangeOf, absent, row_of, row_with};

use vlm_core::Usage;
use vlm_journal::journaled_core::JournaledCore;
use vlm_words::names::Name;
use vlm_words::resources::Domain;

/// The key of a root resource: its domain and its name.
#[derive(Clone, Copy)]
pub struct RootKey {
    /// Its domain.
    pub domain: Domain,
    /// Its name.
    pub name: Name,
}

/// How a resource is used. The row of a resource that does not exist has no locks, and a valid value block of zeros.
#[derive(Clone, Copy, Debug)]
pub struct Row {
    /// How many granted and converting locks hold each mode, from NL to EX.
    pub held: [u32; 6],
    /// How many conversions wait.
    pub conversions: u32,
    /// How many new requests wait.
    pub waiters: u32,
    /// The value block.
    pub value: [u8; 16],
    /// Whether the value block is valid.
    pub valid: bool,
    /// How many entries the hub had made when the row was published; `u64::MAX` if there were more; 0 before the first
    /// publish.
    pub journal: u64,
}

/// The rows that are published at once: those of the keys in their order, and then rows of resources that do not exist.
#[derive(Clone, Copy)]
pub(crate) struct Change {
    pub(crate) rows: [Row; 16],
}

impl Row {
    pub(crate) fn absent() -> Row
        ensures { result ≡ absent }
    {
        Row {
            held: [0; 6],
            conversions: 0,
            waiters: 0,
            value: [0; 16],
            valid: true,
            journal: 0,
        }
    }

    fn of(usage: Option<Usage>, journal: u64) -> Row
        ensures { result ≡ row_with usage journal }
    {
        let mut row = Row::absent();
        row.journal = journal;
        if let Some(usage) = usage {
            let (held, value) = (usage.held, usage.value);
            row.held = held;
            row.conversions = usage.conversions;
            row.waiters = usage.waiters;
            row.value = value;
            row.valid = usage.valid;
        }
        row
    }

    // Whether the two are equal. The contract of a derived `==` says less about arrays.
    fn is_same(&self, other: &Row) -> bool
        ensures { IsTrue result → self.now ≡ other.now }
    {
        if self.held != other.held || self.value != other.value {
            return false;
        }
        if self.conversions != other.conversions || self.waiters != other.waiters {
            return false;
        }
        self.valid == other.valid && self.journal == other.journal
    }
}

fn root_row(journaled: &JournaledCore, key: &RootKey) -> Row
    ensures { result ≡ row_of journaled.now key.now }
{
    Row::of(journaled.usage(key.domain, key.name), journaled.made())
}

impl Change {
    pub(crate) fn of(journaled: &JournaledCore, keys: &[RootKey]) -> Change
        requires { length keys.now ≤ 16 }
        ensures { IsChangeOf journaled.now keys.now result }
    {
        let mut rows = [Row::absent(); 16];
        for (at, key) in keys.iter().enumerate() {
            rows[at] = root_row(journaled, key);
        }
        Change { rows }
    }

    pub(crate) fn is_same(&self, other: &Change) -> bool
        ensures { IsTrue result → self.now ≡ other.now }
    {
        for at in 0..16 {
            if !self.rows[at].is_same(&other.rows[at]) {
                return false;
            }
        }
        true
    }
}
