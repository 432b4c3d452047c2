//! The numbers that C has for modes and nodes.

ghost use Rattle.std.specs.Prelude.{◌≡◌};
ghost use Rattle.vlm_capi.specs.Structs.{mode_number, mode_of, node_of};

use vlm_words::modes::Mode;

/// The mode with this number, 0 (NL) to 5 (EX).
#[tactic(auto, unfolding(crate::specs::Structs::mode_of))]
pub(crate) fn mode_of(number: u32) -> Option<Mode>
    ensures { result ≡ mode_of number }
{
    match number {
        0 => Some(Mode::Nl),
        1 => Some(Mode::Cr),
        2 => Some(Mode::Cw),
        3 => Some(Mode::Pr),
        4 => Some(Mode::Pw),
        5 => Some(Mode::Ex),
        _ => None,
    }
}

/// The number of a mode, 0 (NL) to 5 (EX), or 255 for no mode.
pub(crate) fn mode_number(mode: Option<Mode>) -> u32
    ensures { result ≡ mode_number mode }
{
    match mode {
        Some(Mode::Nl) => 0,
        Some(Mode::Cr) => 1,
        Some(Mode::Cw) => 2,
        Some(Mode::Pr) => 3,
        Some(Mode::Pw) => 4,
        Some(Mode::Ex) => 5,
        None => 255,
    }
}

/// Every byte passes. The core checks that it is a node.
pub(crate) fn node_of(number: u32) -> Option<u8>
    ensures { result ≡ node_of number }
{
    if number <= 255 {
        Some(number as u8)
    } else {
        None
    }
}
