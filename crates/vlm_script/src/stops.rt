//! Why a line ends the run of its script.

ghost use Rattle.std.specs.Prelude.{◌≡◌};
ghost use Rattle.vlm_script.specs.Sessions.{stopped_at};

use crate::faults::PlayFault;
use std::alloc::AllocError;
use vlm_lines::LineFault;

#[derive(Clone, Copy)]
pub(crate) enum Stop {
    Fault(LineFault),
    Memory,
}

impl From<AllocError> for Stop {
    ghost use Rattle.std.specs.Prelude.{◌≡◌};
    ghost use Rattle.vlm_script.specs.declared.stops.Stop.TheVariants.{Memory};

    ghost from_gives = { λ _ stop. stop ≡ Memory };

    fn from(_refused: AllocError) -> Stop {
        Stop::Memory
    }
}

impl From<LineFault> for Stop {
    ghost use Rattle.std.specs.Prelude.{◌≡◌};
    ghost use Rattle.vlm_script.specs.declared.stops.Stop.TheVariants.{Fault};

    ghost from_gives = { λ fault stop. stop ≡ Fault fault };

    fn from(fault: LineFault) -> Stop {
        Stop::Fault(fault)
    }
}

impl Stop {
    /// The fault of the run that stopped at the line of this number.
    pub(crate) fn at(self, number: usize) -> PlayFault
        ensures { result ≡ stopped_at number self }
    {
        match self {
            Stop::Fault(fault) => PlayFault::Line(number, fault),
            Stop::Memory => PlayFault::Memory,
        }
    }
}
