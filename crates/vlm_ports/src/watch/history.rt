//! The published changes, in order. They exist only in proofs, except for a word with their number.

ghost use Rattle.std.specs.Prelude.{◌≡◌, ◌+◌, ◌<◌, ◌^◌, ◌++◌, ◌∷◌, [], length, IsTrue};
ghost use Rattle.vlm_ports.specs.Histories.{word_of};

use crate::watch::rows::Change;
use logbook::{Gain, Offer, Plain, Play, Rule, Seen, Start, Word};

/// The rule of the book: its one word that changes is the number of changes in its log.
pub(crate) struct IsCounted;

impl Rule<Change, u64> for IsCounted {
    ghost use Rattle.std.specs.Prelude.{[]};
    ghost use base.Fml.{ftrue};
    ghost use Rattle.vlm_ports.specs.Histories.{Counts};

    ghost holds = { λ cells log. Counts cells log };

    ghost first = { [] };

    ghost hinted = { λ value log. Unit {0} };

    ghost shows = { λ log. [] };

    ghost keeps = { λ names log. ftrue };

    ghost moves = { λ ask before after answer. Unit {0} };
}

/// A step of the book takes nothing and gives nothing.
pub(crate) struct NoGain;

impl Gain<Change, u64> for NoGain {
    ghost use base.Fml.{ftrue};

    ghost after = { λ names about answer. ftrue };
}

pub(crate) struct Lengthening;

impl Play<Change, u64> for Lengthening {
    ghost use Rattle.vlm_ports.specs.Histories.{Lengthens};

    ghost then = { Lengthens };
}

impl Plain<Change, Change, u64> for Lengthening {
    ghost use Rattle.std.specs.Prelude.{None};

    ghost ask = { λ change. change };

    ghost state = { λ change. None };
}

/// A first part of the published changes. It takes no room.
pub(crate) type History = Seen<Change, u64, IsCounted>;

pub(crate) type Count = Word<Change, u64, IsCounted>;

pub(crate) fn empty() -> (Count, History)
    ensures word { result.0 ≡ word_of result.1.book }
    ensures empty { result.1.log ≡ [] }
{
    let (history, mut pen, _spare) = History::open(Start::alone(), 0, 0);
    (Count::tracked(0, &mut pen), history)
}

/// Adds a change after this part, and says whether it did: not if there are more changes already.
pub(crate) fn lengthen(word: &Count, history: &mut History, count: u64, change: &Change) -> bool
    requires word { word.now ≡ word_of history.old.book }
    requires count { count ≡ length history.old.log }
    requires room { count + 1 < 2 ^ 64 }
    ensures book { history.new.book ≡ history.old.book }
    ensures added { IsTrue result → history.new.log ≡ history.old.log ++ change.now ∷ [] }
{
    let mut offer: Offer<Change, u64, IsCounted, NoGain> = history.plain::<
        NoGain,
        Change,
        Lengthening,
    >(change);
    let mut pen = history.no_pen();
    let found = word.compare_exchange::<Lengthening, NoGain>(
        count,
        count + 1,
        history,
        &mut offer,
        &mut pen,
    );
    found == count
}
