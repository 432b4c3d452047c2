//! The rule of a board, and the facts that each step on it gives.

use crate::watch::rows::Change;
use crate::watch::sheet::{Sheet, Update};
use atomic_table::{Join, Split};
use crossbeam_utils::rule::{Outcome, Protocol};
use left_right::reader::Reader;
use left_right::writer::Writer;

/// What a place at the board knows: the changes that it saw, and its board, by the numbers of the board's book, once it
/// knows them. No value of this type is made: a clause reads the array as a list of any length.
pub(crate) struct View {
    pub(crate) seen: [Change; 0],
    pub(crate) knows: bool,
    pub(crate) number: u64,
    pub(crate) log_name: u64,
    pub(crate) cells_name: u64,
}

/// Each place saw a first part of the published changes.
pub(crate) struct BeginsWithWhatWasSeen;

impl Protocol<Sheet, View> for BeginsWithWhatWasSeen {
    ghost use Rattle.vlm_ports.specs.Rule.{Kept, newcomer};

    ghost holds = { Kept };

    ghost first = { newcomer };
}

/// A reader enters: it sees all that is published.
pub(crate) struct Sees;

impl Outcome<Sheet, View> for Sees {
    ghost use Rattle.vlm_ports.specs.Rule.{See};

    ghost then = { See };
}

/// The writer shows a sheet with one more change.
pub(crate) struct Publishes;

impl Outcome<Sheet, View> for Publishes {
    ghost use Rattle.vlm_ports.specs.Rule.{Publish};

    ghost then = { Publish };
}

/// The writer shows the first sheet, and learns its board.
pub(crate) struct Opens;

impl Outcome<Sheet, View> for Opens {
    ghost use Rattle.vlm_ports.specs.Rule.{Open};

    ghost then = { Open };
}

/// A note names the board, and no changes. A place that takes it keeps what it saw.
pub(crate) struct Notes;

impl Split<View> for Notes {
    ghost use Rattle.vlm_ports.specs.Rule.{note_of};

    ghost left = { λ view. view };

    ghost right = { note_of };
}

impl Join<View> for Notes {
    ghost use Rattle.vlm_ports.specs.Rule.{informed, newcomer};

    ghost both = { informed };

    ghost spent = { newcomer };
}

pub(crate) type SheetReader = Reader<Sheet, View, BeginsWithWhatWasSeen>;

pub(crate) type SheetWriter = Writer<Sheet, Update, View, BeginsWithWhatWasSeen>;
