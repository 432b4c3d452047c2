//! A watcher that keeps the rows that it has seen.

ghost use Rattle.std.specs.Prelude.{◌≡◌, ◌<◌};
ghost use Rattle.vlm_ports.specs.Watching.{IsAsBefore, board_of, told_board};

use vlm_ports::{Row, Told, Watcher};

/// A watcher, and the rows that it has seen of the first resource.
#[derive(Drop)]
pub struct Onlooker {
    pub(crate) watcher: Watcher,
    /// The row that it saw last.
    pub last: Option<Row>,
    /// Whether a row ever had fewer entries than an earlier row.
    pub fell: bool,
}

impl Onlooker {
    /// A watcher that has not looked yet.
    pub(crate) fn new(watcher: Watcher) -> Onlooker
        ensures { result.watcher ≡ watcher }
    {
        Onlooker {
            watcher,
            last: None,
            fell: false,
        }
    }

    pub(crate) fn learn(&mut self, told: Told)
        requires { told_board told ≡ board_of self.old.watcher }
        ensures { IsAsBefore self.old.watcher self.new.watcher }
    {
        self.watcher.learn(told);
    }

    /// What it sees of the resource at a place.
    pub(crate) fn see(&mut self, place: usize) -> Option<Row>
        requires { place < self.old.watcher.keys }
        ensures { IsAsBefore self.old.watcher self.new.watcher }
    {
        self.watcher.see(place)
    }

    // Looks at the first resource, and keeps the row.
    fn look(&mut self)
        requires { 0 < self.old.watcher.keys }
        ensures { IsAsBefore self.old.watcher self.new.watcher }
    {
        let Some(row) = self.see(0) else {
            return;
        };
        if let Some(last) = self.last {
            self.fell = self.fell || row.journal < last.journal;
        }
        self.last = Some(row);
    }

    pub(crate) fn look_often(&mut self, times: usize)
        requires { 0 < self.old.watcher.keys }
        ensures { IsAsBefore self.old.watcher self.new.watcher }
    {
        for _ in 0..times {
            self.look();
        }
    }
}
