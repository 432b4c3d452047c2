//! The six lock modes.

ghost use Rattle.std.specs.Prelude.{◌≡◌, ◌<◌};
ghost use Rattle.vlm_words.specs.Modes.{is_compatible, is_queued_legally, rank, value_action};

/// A lock mode, from weak to strong.
#[derive(Clone, Copy)]
pub enum Mode {
    /// Null: interest without access.
    Nl,
    /// Concurrent read.
    Cr,
    /// Concurrent write.
    Cw,
    /// Protected read.
    Pr,
    /// Protected write.
    Pw,
    /// Exclusive.
    Ex,
}

impl Mode {
    /// The position of the mode, from 0 for the weakest to 5.
    pub fn rank(self) -> usize
        ensures rank { result ≡ rank self }
        ensures below { result < 6 }
    {
        match self {
            Mode::Nl => 0,
            Mode::Cr => 1,
            Mode::Cw => 2,
            Mode::Pr => 3,
            Mode::Pw => 4,
            Mode::Ex => 5,
        }
    }
}

const Y: bool = true;

const N: bool = false;

// The rows and columns of each table are the modes by rank.
const COMPATIBLE: [[bool; 6]; 6] = [
    // NL CR CW PR PW EX
    [Y, Y, Y, Y, Y, Y], // NL
    [Y, Y, Y, Y, Y, N], // CR
    [Y, Y, Y, N, N, N], // CW
    [Y, Y, N, Y, N, N], // PR
    [Y, Y, N, N, N, N], // PW
    [Y, N, N, N, N, N], // EX
];

/// Whether two locks may hold one resource in these modes together.
#[tactic(auto, unfolding(crate::specs::Modes::is_compatible))]
pub fn compatible(a: Mode, b: Mode) -> bool
    ensures { result ≡ is_compatible a b }
{
    COMPATIBLE[a.rank()][b.rank()]
}

/// What VALBLK does on a conversion.
#[derive(Clone, Copy)]
pub enum Act {
    /// The value block is neither returned nor written.
    Nothing,
    /// The resource's value block is returned to the status block.
    Return,
    /// The status block's value part is written to the resource's value block.
    Write,
}

const R: Act = Act::Return;

const W: Act = Act::Write;

const O: Act = Act::Nothing;

// Rows are held modes, columns wanted modes.
const VALUE_ACTIONS: [[Act; 6]; 6] = [
    // NL CR CW PR PW EX
    [R, R, R, R, R, R], // NL
    [O, R, R, R, R, R], // CR
    [O, O, R, R, R, R], // CW
    [O, O, O, R, R, R], // PR
    [W, W, W, W, W, R], // PW
    [W, W, W, W, W, W], // EX
];

/// What VALBLK does on a conversion from the held to the wanted mode, after the table of $ENQ.
#[tactic(auto, unfolding(crate::specs::Modes::value_action))]
pub fn value_action(held: Mode, want: Mode) -> Act
    ensures { result ≡ value_action held want }
{
    VALUE_ACTIONS[held.rank()][want.rank()]
}

// Rows are held modes, columns wanted modes.
const QUEUED_LEGALLY: [[bool; 6]; 6] = [
    // NL CR CW PR PW EX
    [N, Y, Y, Y, Y, Y], // NL
    [N, N, Y, Y, Y, Y], // CR
    [N, N, N, Y, Y, Y], // CW
    [N, N, Y, N, Y, Y], // PR
    [N, N, N, N, N, Y], // PW
    [N, N, N, N, N, N], // EX
];

/// Whether QUECVT may go with a conversion from the held to the wanted mode.
#[tactic(auto, unfolding(crate::specs::Modes::is_queued_legally))]
pub fn quecvt_legal(held: Mode, want: Mode) -> bool
    ensures { result ≡ is_queued_legally held want }
{
    QUEUED_LEGALLY[held.rank()][want.rank()]
}
