//! The words of locks.

ghost use Rattle.std.specs.Prelude.{◌≡◌};
ghost use Rattle.vlm_lines.specs.Lines.{lock_named};

use crate::faults::LineFault;
use crate::numbers::{byte, long};
use crate::words::after_key;
use vlm_words::steps::Which;

/// A lock: `@N` is the lock in status block N, and a number is the ID of the lock.
#[tactic(auto, unfolding(crate::specs::Lines::lock_named))]
pub(crate) fn lock(word: &[u8]) -> Result<Which, LineFault>
    ensures { result ≡ lock_named word.now }
{
    if let Some(digits) = after_key(b"@", word) {
        let block = byte(digits)?;
        Ok(Which::Block(block))
    } else {
        let lkid = long(word)?;
        Ok(Which::Id(lkid))
    }
}
