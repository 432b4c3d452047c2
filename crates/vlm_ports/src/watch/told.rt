//! Told values, which carry the published list to a watcher.

ghost use Rattle.std.specs.Prelude.{◌≡◌, length, IsTrue, None};
ghost use Rattle.std.specs.List.{last_or};
ghost use mathlib.Core.List.{IsPrefix};

use crate::watch::history::History;
use crate::watch::rows::Change;
use crate::watch::sheet::Sheet;

/// The changes that were published up to a moment, for one watcher of the same board. It takes no memory.
#[derive(Drop)]
pub struct Told {
    pub(crate) history: History,
    pub(crate) count: u64,
    pub(crate) last: Option<Change>,
    ghost counted: { count ≡ length history.log },
    ghost ends: { last ≡ last_or None history.log },
}

impl Told {
    ghost use Rattle.vlm_ports.specs.Sheets.{changes_to};

    /// Whether the changes up to the sheet begin with these. It is true of each sheet that is read later.
    pub(crate) fn begins(&self, sheet: &Sheet) -> bool
        requires book { self.now.history.book ≡ sheet.now.before.book }
        requires count { sheet.now.count ≡ length (changes_to sheet.now) }
        ensures { IsTrue result → IsPrefix self.now.history.log (changes_to sheet.now) }
    {
        let mut reached = sheet.before.again();
        reached.learn(&self.history);
        if self.count < sheet.count {
            return true;
        }
        if self.count != sheet.count {
            return false;
        }
        is_same(&self.last, &sheet.last)
    }

    /// The longer of the two, which begins with the other.
    pub(crate) fn longer(self, other: Told) -> Told
        requires { other.history.book ≡ self.history.book }
        ensures book { result.history.book ≡ self.history.book }
        ensures this { IsPrefix self.history.log result.history.log }
        ensures that { IsPrefix other.history.log result.history.log }
    {
        let mut reached = self.history.again();
        reached.learn(&other.history);
        if self.count < other.count {
            other
        } else {
            self
        }
    }
}

fn is_same(one: &Option<Change>, other: &Option<Change>) -> bool
    ensures { IsTrue result → one.now ≡ other.now }
{
    match (one, other) {
        (Some(one), Some(other)) => one.is_same(other),
        (None, None) => true,
        _ => false,
    }
}
