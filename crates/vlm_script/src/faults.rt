//! The faults that end the run of a script.

use std::alloc::AllocError;
use thiserror::Error;
use vlm_lines::LineFault;

/// A fault that ended the run of a script.
#[derive(Debug, Drop, Error)]
pub enum PlayFault {
    /// The number of a line, from 1, and its fault.
    #[error("line {0}: {text}", text = .1.text())]
    Line(usize, LineFault),
    /// Memory ran out.
    #[error("memory")]
    Memory,
    /// The script could not be read.
    #[error("read")]
    Read,
    /// The printed text could not be written.
    #[error("write")]
    Write,
    /// The script has more than 16,777,216 bytes.
    #[error("script too long")]
    Long,
}

impl From<AllocError> for PlayFault {
    ghost use Rattle.std.specs.Prelude.{◌≡◌};
    ghost use Rattle.vlm_script.specs.declared.faults.PlayFault.TheVariants.{Memory};

    ghost from_gives = { λ _ fault. fault ≡ Memory };

    fn from(_refused: AllocError) -> PlayFault {
        PlayFault::Memory
    }
}
