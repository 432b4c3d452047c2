//! The reasons that end a watch.

use std::alloc::AllocError;
use vlm_ports::BoardFault;
use vlm_script::PlayFault;

/// Why a watch ended before the last step of its script.
#[derive(Drop)]
pub enum WatchFault {
    /// A fault that also ends a script's run.
    Play(PlayFault),
    /// There is no seat for the watcher, or it sees nothing.
    NoSeat,
    NoAnswer,
}

impl From<PlayFault> for WatchFault {
    ghost use Rattle.std.specs.Prelude.{◌≡◌};
    ghost use Rattle.vlm.specs.declared.monitor.ends.WatchFault.TheVariants.{Play};

    ghost from_gives = { λ fault ended. ended ≡ Play fault };

    fn from(fault: PlayFault) -> WatchFault {
        WatchFault::Play(fault)
    }
}

impl From<AllocError> for WatchFault {
    ghost use Rattle.std.specs.Prelude.{◌≡◌};
    ghost use Rattle.vlm_script.specs.declared.faults.PlayFault.TheVariants.{Memory};
    ghost use Rattle.vlm.specs.declared.monitor.ends.WatchFault.TheVariants.{Play};

    ghost from_gives = { λ _ ended. ended ≡ Play Memory };

    fn from(_refused: AllocError) -> WatchFault {
        WatchFault::Play(PlayFault::Memory)
    }
}

impl From<BoardFault> for WatchFault {
    ghost use Rattle.vlm.specs.Watches.{EndsSteps};

    ghost from_gives = { λ _ ended. EndsSteps ended };

    /// Without a board there is no watch.
    fn from(fault: BoardFault) -> WatchFault {
        match fault {
            BoardFault::Memory => WatchFault::Play(PlayFault::Memory),
            BoardFault::Seat => WatchFault::NoSeat,
        }
    }
}
