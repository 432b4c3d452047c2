//! The publisher: the writer of the sheets, and the history of the published changes.

ghost use Rattle.std.specs.Prelude.{◌≡◌, ◌<◌, ◌≤◌, ◌++◌, ◌∷◌, [], All, IfOk, OnErr, OnOk, length, true, vec_len};
ghost use Rattle.left_right.specs.Sides.{view};
ghost use Rattle.vlm_ports.specs.Histories.{word_of};
ghost use Rattle.vlm_ports.specs.Rule.{book_of};
ghost use Rattle.vlm_ports.specs.Sheets.{changes_to};

use crate::watch::faults::BoardFault;
use crate::watch::history::{Count, History, empty, lengthen};
use crate::watch::rows::Change;
use crate::watch::sheet::{Sheet, Update};
use crate::watch::told::Told;
use crate::watch::view::{Notes, Opens, Publishes, SheetWriter};
use crate::watch::watcher::Watcher;
use core::mem::replace_with;
use std::alloc::{AllocError, Global};
use std::sync::Wait;

/// The publisher of a board. It can't be dropped: end it by `close`.
pub(crate) struct Publisher {
    writer: SheetWriter,
    // the number of changes, which only the publisher has
    count: Count,
    pub(crate) history: History,
    ghost word: { count ≡ word_of history.book },
    ghost shows: { changes_to writer.desk.shown.value ≡ history.log },
    ghost counts: { writer.desk.shown.value.count ≡ length history.log },
    ghost saw: { (view writer.desk.place).seen ≡ history.log },
    ghost of: { writer.desk.shown.value.before.book ≡ history.book },
    ghost knows: { (view writer.desk.place).knows ≡ true },
    ghost home: { book_of (view writer.desk.place) ≡ history.book },
}

impl Publisher {
    ghost use Rattle.vlm_ports.specs.Watching.{IsNew, told_board, told_changes};

    /// A publisher for this many readers, with nothing published. If it is refused, no memory stays taken.
    pub(crate) fn open<R: Wait>(
        rt: &R,
        alloc: Global,
        readers: usize,
    ) -> Result<Publisher, AllocError>
        requires { (0 < readers) × (readers ≤ 8) }
        ensures { IfOk result (λ p. p.history.log ≡ []) }
    {
        let (count, history) = empty();
        let first = Sheet::blank(&history);
        let second = Sheet::blank(&history);
        let writer = SheetWriter::new(alloc, first, second, readers)?;
        let (writer, _) = writer.publish_as::<Opens, R>(rt);
        Ok(Publisher {
            writer,
            count,
            history,
        })
    }

    // A watcher of this many keys, before anything is published. Refused if there is no place for one.
    fn watcher(&mut self, keys: usize) -> Result<Watcher, AllocError>
        requires keys { keys ≤ 16 }
        requires first { self.old.history.log ≡ [] }
        ensures same { self.new.history ≡ self.old.history }
        ensures new { IfOk result (IsNew self.old.history.book keys) }
    {
        let learnt = self.tell();
        let shown = Sheet::blank(&self.history);
        let mut reader = self.writer.factory().reader()?;
        reader.learn::<Notes>(self.writer.tell::<Notes>());
        Ok(Watcher {
            reader,
            keys,
            learnt,
            shown,
        })
    }

    pub(crate) fn watchers(
        &mut self,
        alloc: Global,
        keys: usize,
        count: usize,
    ) -> Result<Vec<Watcher>, BoardFault>
        requires keys { keys ≤ 16 }
        requires first { self.old.history.log ≡ [] }
        ensures same { self.new.history ≡ self.old.history }
        ensures count { IfOk result (λ all. vec_len all ≡ count) }
        ensures each { IfOk result (λ all. All (IsNew self.old.history.book keys) all.items) }
    {
        let mut all = Vec::new(alloc);
        for _ in 0..count {
            let Ok(()) = all.reserve(1) else {
                return Err(BoardFault::Memory);
            };
            let Ok(watcher) = self.watcher(keys) else {
                return Err(BoardFault::Seat);
            };
            all.push_reserved(watcher);
        }
        Ok(all)
    }

    fn publish_change<R: Wait>(self, rt: &R, change: Change) -> (Publisher, Result<(), AllocError>)
        ensures book { result.0.history.book ≡ self.history.book }
        ensures ok { OnOk result.1 (result.0.history.log ≡ self.history.log ++ change ∷ []) }
        ensures refused { OnErr result.1 (result.0.history.log ≡ self.history.log) }
    {
        let number = self.writer.published().count;
        if number == u64::MAX {
            return (self, Err(AllocError));
        }
        let Publisher {
            mut writer,
            count,
            history,
        } = self;
        let update = Update {
            change,
            count: number + 1,
            before: history.again(),
        };
        let Ok(()) = writer.append(update) else {
            let same = Publisher {
                writer,
                count,
                history,
            };
            return (same, Err(AllocError));
        };
        let mut longer = history.again();
        // Only the publisher has the number, so this always succeeds.
        if !lengthen(&count, &mut longer, number, &change) {
            let same = Publisher {
                writer,
                count,
                history,
            };
            return (same, Err(AllocError));
        }
        let (writer, done) = writer.publish_as::<Publishes, R>(rt);
        let publisher = Publisher {
            writer,
            count,
            history: longer,
        };
        (publisher, done)
    }

    /// Publishes a change, and answers a told value of all that is published. If it is refused, nothing is published.
    pub(crate) fn publish<R: Wait>(&mut self, rt: &R, change: Change) -> Result<Told, AllocError>
        ensures book { self.new.history.book ≡ self.old.history.book }
        ensures ok { OnOk result (self.new.history.log ≡ self.old.history.log ++ change ∷ []) }
        ensures told { IfOk result (λ told. (told_board told ≡ self.old.history.book)
            × (told_changes told ≡ self.new.history.log)) }
        ensures refused { OnErr result (self.new.history.log ≡ self.old.history.log) }
    {
        replace_with(
            self,
            (rt, change),
            |publisher, (rt, change)| publisher.publish_change(rt, change),
        )?;
        Ok(self.tell())
    }

    pub(crate) fn tell(&self) -> Told
        ensures board { told_board result ≡ self.now.history.book }
        ensures told { told_changes result ≡ self.now.history.log }
    {
        let sheet = self.writer.published();
        Told {
            history: self.history.again(),
            count: sheet.count,
            last: sheet.last,
        }
    }

    /// Ends it, once no reader is reading.
    pub(crate) fn close<R: Wait>(self, rt: &R) {
        let Publisher {
            writer,
            count: _count,
            history: _history,
        } = self;
        writer.take(rt);
    }
}
