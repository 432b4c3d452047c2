//! The counts of one resource.

ghost use Rattle.std.specs.Prelude.{◌≡◌, ◌+◌, ◌<◌, ◌≤◌, ◌^◌, not};
ghost use Rattle.vlm_words.specs.declared.modes.Mode.{Mode};
ghost use Rattle.vlm_words.specs.Modes.{is_compatible};
ghost use Rattle.vlm_records.specs.Tallies.{Count, by_mode, count_of, counted_mode, counted_request, counts_fit, has_mode, held_beside, how_many, mode_in, none_or, one_if};
ghost use Rattle.vlm_records.specs.Tallies.Count.{of_held, of_wanted};

use crate::rows::StoredState;
use vlm_words::modes::{Mode, compatible};
use vlm_words::resources::Queue;

/// For each mode, how many locks of a resource hold it, and how many want it.
#[derive(Clone, Copy)]
pub struct Tally {
    // by rank, how many granted and converting locks hold each mode
    held: [u32; 6],
    // by rank, how many converting and waiting locks want each mode
    wanted: [u32; 6],
}

/// The modes by which a lock is counted.
#[derive(Clone, Copy)]
pub(crate) struct Counted {
    held: Option<Mode>,
    wanted: Option<Mode>,
}

impl Counted {
    /// The modes of a lock in this queue. A waiting lock holds nothing, and a granted lock wants nothing.
    pub(crate) fn of(queue: Queue, state: &StoredState) -> Self
        ensures { (count : Count) → counted_mode count result
            ≡ mode_in (counted_request count queue state.now) }
    {
        match queue {
            Queue::Granted => Counted {
                held: state.held_mode(),
                wanted: None,
            },
            Queue::Conversion => Counted {
                held: state.held_mode(),
                wanted: state.wanted_mode(),
            },
            Queue::Waiting => Counted {
                held: None,
                wanted: state.wanted_mode(),
            },
        }
    }
}

// One more lock holds or wants this mode, if there is one.
fn count_in(counts: &mut [u32; 6], counted: Option<Mode>)
    requires { (mode : Mode) → count_of counts.old mode + 1 < 2 ^ 32 }
    ensures { (mode : Mode) → count_of counts.new mode
        ≡ count_of counts.old mode + one_if (has_mode mode counted) }
{
    if let Some(mode) = counted {
        counts[mode.rank()] += 1;
    }
}

// One lock less holds or wants this mode, if there is one.
fn count_out(counts: &mut [u32; 6], counted: Option<Mode>)
    requires { (mode : Mode) → one_if (has_mode mode counted) ≤ count_of counts.old mode }
    ensures { (mode : Mode) → count_of counts.new mode + one_if (has_mode mode counted)
        ≡ count_of counts.old mode }
{
    if let Some(mode) = counted {
        counts[mode.rank()] -= 1;
    }
}

fn is_free(counts: &[u32; 6], mode: Mode, counted: Mode) -> bool
    ensures { result ≡ none_or (is_compatible mode) (count_of counts.now) counted }
{
    counts[counted.rank()] == 0 || compatible(mode, counted)
}

#[tactic(auto, unfolding(crate::specs::Tallies::counts_fit))]
fn counts_fit(counts: &[u32; 6], mode: Mode) -> bool
    ensures { result ≡ counts_fit mode (count_of counts.now) }
{
    is_free(counts, mode, Mode::Nl)
        && is_free(counts, mode, Mode::Cr)
        && is_free(counts, mode, Mode::Cw)
        && is_free(counts, mode, Mode::Pr)
        && is_free(counts, mode, Mode::Pw)
        && is_free(counts, mode, Mode::Ex)
}

impl Tally {
    ghost use Rattle.vlm_records.specs.Tallies.{no_tally};

    /// The counts of no locks.
    pub fn new() -> Self
        ensures { result ≡ no_tally }
    {
        Tally {
            held: [0; 6],
            wanted: [0; 6],
        }
    }

    /// Counts a lock in.
    pub(crate) fn add(&mut self, counted: Counted)
        requires { (count : Count) (mode : Mode) → how_many count self.old mode + 1 < 2 ^ 32 }
        ensures { (count : Count) (mode : Mode) → how_many count self.new mode
            ≡ how_many count self.old mode + one_if (has_mode mode (counted_mode count counted)) }
    {
        count_in(&mut self.held, counted.held);
        count_in(&mut self.wanted, counted.wanted);
    }

    /// Counts a lock out, with the modes by which it was counted in.
    pub(crate) fn remove(&mut self, counted: Counted)
        requires { (count : Count) (mode : Mode) → one_if (has_mode mode (counted_mode count counted))
            ≤ how_many count self.old mode }
        ensures { (count : Count) (mode : Mode) → how_many count self.new mode
            + one_if (has_mode mode (counted_mode count counted)) ≡ how_many count self.old mode }
    {
        count_out(&mut self.held, counted.held);
        count_out(&mut self.wanted, counted.wanted);
    }

    /// How many locks hold each mode, from NL to EX, granted or converting.
    pub fn held(&self) -> [u32; 6]
        ensures { result ≡ by_mode (how_many of_held self.now) }
    {
        self.held
    }

    /// Whether the mode is compatible with every held mode.
    pub fn fits(&self, mode: Mode) -> bool
        ensures { result ≡ counts_fit mode (how_many of_held self.now) }
    {
        counts_fit(&self.held, mode)
    }

    /// Whether the mode is compatible with every held mode, if one lock that holds `own` is left out.
    pub fn fits_beside(&self, mode: Mode, own: Option<Mode>) -> bool
        requires { (mode : Mode) → one_if (has_mode mode own) ≤ how_many of_held self.now mode }
        ensures { result ≡ counts_fit mode (held_beside own self.now) }
    {
        let mut held = self.held;
        count_out(&mut held, own);
        counts_fit(&held, mode)
    }

    /// Whether the mode is incompatible with some wanted mode.
    pub fn blocks_a_request(&self, mode: Mode) -> bool
        ensures { result ≡ not (counts_fit mode (how_many of_wanted self.now)) }
    {
        !counts_fit(&self.wanted, mode)
    }
}
