//! A watcher: the reading end of a board.

ghost use Rattle.std.specs.Prelude.{◌≡◌, ◌<◌, ◌≤◌, true, take, length, IfSome, IfNone, IsTrue, OnSome};
ghost use mathlib.Core.List.{IsPrefix};
ghost use Rattle.left_right.specs.Sides.{view};
ghost use Rattle.vlm_ports.specs.Rule.{book_of};
ghost use Rattle.vlm_ports.specs.Sheets.{changes_to, row_shown};

use crate::watch::rows::Row;
use crate::watch::sheet::Sheet;
use crate::watch::told::Told;
use crate::watch::view::{Sees, SheetReader};
use core::mem::replace_with;

/// A watcher of a hub, for a thread of its own. Its calls never wait, and take no memory.
#[derive(Drop)]
pub struct Watcher {
    pub(crate) reader: SheetReader,
    pub(crate) keys: usize,
    // the longest list that it has learned
    pub(crate) learnt: Told,
    // the last sheet that it showed
    pub(crate) shown: Sheet,
    ghost few: { keys ≤ 16 },
    ghost knows: { (view reader.place).knows ≡ true },
    ghost home: { learnt.history.book ≡ book_of (view reader.place) },
    ghost counted: { shown.count ≡ length (changes_to shown) },
    ghost same: { shown.before.book ≡ learnt.history.book },
    ghost saw: { take (length (changes_to shown)) (view reader.place).seen ≡ changes_to shown },
}

impl Watcher {
    ghost use Rattle.vlm_ports.specs.Watching.{IsAsBefore, board_of, learnt, seen, told_board, told_changes};

    fn look(self, place: usize) -> (Watcher, Option<Row>)
        requires { place < self.keys }
        ensures same { IsAsBefore self result.0 }
        ensures learnt { learnt result.0 ≡ learnt self }
        ensures row { IfSome result.1 (λ row. row ≡ row_shown (seen result.0) place) }
        ensures saw { OnSome result.1 (IsPrefix (seen self) (seen result.0)) }
        ensures told { OnSome result.1 (IsPrefix (learnt self) (seen result.0)) }
        ensures none { IfNone result.1 (seen result.0 ≡ seen self) }
    {
        let Watcher {
            reader,
            keys,
            learnt,
            shown,
        } = self;
        let reading = match reader.enter_as::<Sees>() {
            Ok(reading) => reading,
            Err(reader) => {
                let same = Watcher {
                    reader,
                    keys,
                    learnt,
                    shown,
                };
                return (same, None);
            }
        };
        let sheet = reading.get();
        if !learnt.begins(sheet) {
            let same = Watcher {
                reader: reading.leave(),
                keys,
                learnt,
                shown,
            };
            return (same, None);
        }
        let shown = sheet.again();
        let row = shown.row(place);
        let watcher = Watcher {
            reader: reading.leave(),
            keys,
            learnt,
            shown,
        };
        (watcher, Some(row))
    }

    /// The row of the key at a place, from 0, in the last change of a list. That list begins with all changes that this
    /// watcher has seen or learned of. Before any change it is the row of a resource that does not exist, with
    /// `journal` 0. `None` if the hub is finished, and then nothing is changed. (It is also `None` if the list is
    /// shorter than what was learned, which never happens: a change is published before it is told.) The time does not
    /// depend on how much is held.
    pub fn see(&mut self, place: usize) -> Option<Row>
        requires { place < self.old.keys }
        ensures same { IsAsBefore self.old self.new }
        ensures learnt { learnt self.new ≡ learnt self.old }
        ensures row { IfSome result (λ row. row ≡ row_shown (seen self.new) place) }
        ensures saw { OnSome result (IsPrefix (seen self.old) (seen self.new)) }
        ensures told { OnSome result (IsPrefix (learnt self.old) (seen self.new)) }
        ensures none { IfNone result (seen self.new ≡ seen self.old) }
    {
        replace_with(self, place, |watcher, place| watcher.look(place))
    }

    fn learning(self, told: Told) -> (Watcher, ())
        requires { told_board told ≡ board_of self }
        ensures same { IsAsBefore self result.0 }
        ensures seen { seen result.0 ≡ seen self }
        ensures learnt { IsPrefix (learnt self) (learnt result.0) }
        ensures told { IsPrefix (told_changes told) (learnt result.0) }
    {
        let Watcher {
            reader,
            keys,
            learnt,
            shown,
        } = self;
        let watcher = Watcher {
            reader,
            keys,
            learnt: learnt.longer(told),
            shown,
        };
        (watcher, ())
    }

    /// All that this watcher sees later begins with the told changes. `told` is of the same hub, and is used up.
    pub fn learn(&mut self, told: Told)
        requires { told_board told ≡ board_of self.old }
        ensures same { IsAsBefore self.old self.new }
        ensures seen { seen self.new ≡ seen self.old }
        ensures learnt { IsPrefix (learnt self.old) (learnt self.new) }
        ensures told { IsPrefix (told_changes told) (learnt self.new) }
    {
        replace_with(self, told, |watcher, told| watcher.learning(told))
    }

    /// Whether the last row that it showed is of the last change in `told`, and of no later one. `told` is of the same
    /// hub. It takes constant time.
    pub fn has_seen(&self, told: &Told) -> bool
        requires { told_board told.now ≡ board_of self.now }
        ensures { IsTrue result → seen self.now ≡ told_changes told.now }
    {
        if self.shown.count != told.count {
            return false;
        }
        told.begins(&self.shown)
    }
}
