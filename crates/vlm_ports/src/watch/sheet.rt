//! Sheets, which readers read, and updates, which a publish makes.

ghost use Rattle.std.specs.Prelude.{◌≡◌, ◌<◌, None};
ghost use Rattle.vlm_ports.specs.Sheets.{row_in};

use crate::watch::history::History;
use crate::watch::rows::{Change, Row};
use left_right::Absorb;
use std::alloc::AllocError;

/// A sheet: the last change, if there was one, the number of changes, and the history before the last.
#[derive(Drop)]
pub(crate) struct Sheet {
    pub(crate) last: Option<Change>,
    pub(crate) count: u64,
    pub(crate) before: History,
}

#[derive(Drop)]
pub(crate) struct Update {
    pub(crate) change: Change,
    pub(crate) count: u64,
    pub(crate) before: History,
}

// A sheet is written whole, so an update that no reader saw leaves no trace.
impl Absorb<Update> for Sheet {
    ghost use Rattle.vlm_ports.specs.Sheets.{updated};

    type State = Sheet;

    ghost state = { λ sheet. sheet };

    ghost applied = { updated };

    ghost never_fails = { Unit {0} };

    fn absorb_first(&mut self, update: &Update, _other: &Sheet) -> Result<(), AllocError> {
        self.last = Some(update.change);
        self.count = update.count;
        self.before = update.before.again();
        Ok(())
    }
}

impl Sheet {
    pub(crate) fn blank(history: &History) -> Sheet
        ensures { result ≡ record { last = None; count = 0; before = history.now } }
    {
        Sheet {
            last: None,
            count: 0,
            before: history.again(),
        }
    }

    pub(crate) fn again(&self) -> Sheet
        ensures { result ≡ self.now }
    {
        Sheet {
            last: self.last,
            count: self.count,
            before: self.before.again(),
        }
    }

    /// The row at a place of the last change; if there was no change, the row of a resource that does not exist.
    pub(crate) fn row(&self, place: usize) -> Row
        requires { place < 16 }
        ensures { result ≡ row_in self.now.last place }
    {
        match self.last {
            Some(change) => change.rows[place],
            None => Row::absent(),
        }
    }
}
