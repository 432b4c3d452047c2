//! The locks and requests that keep a queued request waiting.

ghost use Rattle.std.specs.Bool.{OnFalse, OnTrue};
ghost use Rattle.vlm_model.specs.Deadlocks.{BlocksThoseBehind, HoldsAgainst};

use vlm_words::flags::EnqFlags;
use vlm_words::locks::Request;
use vlm_words::modes::{Mode, compatible};

/// Whether a held request keeps a request of this mode waiting: its mode is incompatible, and it is without NODLCKBLK.
pub(crate) fn holds_against(mode: Mode, held: &Option<Request>) -> bool
    ensures yes { OnTrue result (HoldsAgainst mode held.now) }
    ensures no { OnFalse result (¬ HoldsAgainst mode held.now) }
{
    match held {
        Some(held) => !compatible(mode, held.mode) && !held.flags.has(EnqFlags::NODLCKBLK),
        None => false,
    }
}

/// Whether later requests wait for a request: it is without NODLCKBLK.
pub(crate) fn blocks_those_behind(want: &Option<Request>) -> bool
    ensures yes { OnTrue result (BlocksThoseBehind want.now) }
    ensures no { OnFalse result (¬ BlocksThoseBehind want.now) }
{
    match want {
        Some(want) => !want.flags.has(EnqFlags::NODLCKBLK),
        None => false,
    }
}
