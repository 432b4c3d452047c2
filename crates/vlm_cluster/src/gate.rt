//! The gate of a list: it decides when each step is posted, and hears each item.

ghost use Rattle.std.specs.Prelude.{◌≡◌, ◌≢◌, Bool, true};

use vlm_journal::entries::Item;

/// What a worker does with the next step of its list.
#[derive(Clone, Copy, Debug, PartialEq, Eq)]
pub enum Go {
    Post,
    /// Takes an item, if one has come, and asks again.
    Later,
    /// Posts no more steps of the list. The departure of the node comes next.
    Stop,
}

/// Decides when a worker posts, and hears each item that the worker takes. Each worker has its own gate.
pub trait Gate: Drop {
    ghost use Rattle.std.specs.Prelude.{ℕ, ⊤};
    ghost use Rattle.vlm_journal.specs.declared.entries.Item.{Item};
    ghost use Rattle.vlm_cluster.specs.declared.gate.Go.{Go};
    ghost use Rattle.vlm_cluster.specs.declared.gate.Go.TheVariants.{Stop};

    /// Whether `before` never answers [`Go::Stop`].
    ghost never_stops: { Bool };

    /// `answers old n go new`: asked for step `n` in state `old`, the gate may answer `go`, which leaves it in state
    /// `new`. The default says nothing.
    ghost answers: { Self → ℕ → Go → Self → Type 0 } = { λ _ _ _ _. ⊤ };

    /// `hears old item new`: the gate hears `item` in state `old` and may come to `new`. The default says nothing.
    ghost hears: { Self → Item → Self → Type 0 } = { λ _ _ _. ⊤ };

    /// The worker asks this before it posts step `n` of its list, counted from 0. After [`Go::Later`] it asks for the
    /// same step again. It does not ask for the departure.
    fn before(&mut self, n: usize) -> Go
        ensures stops { Self.never_stops ≡ true → result ≢ Stop }
        ensures answers { Self.answers self.old n result self.new };

    /// The worker calls this with each item that it takes, in order.
    fn after(&mut self, item: &Item)
        ensures { Self.hears self.old item.now self.new };
}

/// A gate that lets each step be posted at once.
#[derive(Clone, Copy, Drop)]
pub struct OpenGate;

impl Gate for OpenGate {
    ghost never_stops = { true };

    fn before(&mut self, _n: usize) -> Go {
        Go::Post
    }

    fn after(&mut self, _item: &Item) {}
}
