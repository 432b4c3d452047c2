//! The words of flags.

ghost use Rattle.std.specs.Prelude.{◌≡◌};
ghost use Rattle.vlm_lines.specs.Lines.{deq_flag, enq_flag, flag_once, flag_word, flags_of};

use crate::faults::LineFault;
use crate::keyed::once;
use crate::numbers::short;
use crate::words::{after_key, is_text};
use bitflags::Flags;
use vlm_words::flags::{DeqFlags, EnqFlags};

/// The flags that a line has given so far.
#[derive(Clone, Copy, Default)]
pub(crate) struct FlagWords {
    // the bits of the flags that came as words
    pub(crate) words: u16,
    // the bits that came as a number
    pub(crate) bits: Option<u16>,
}

impl FlagWords {
    /// Adds one more word: `bits=`, or this flag.
    #[tactic(auto, unfolding(crate::specs::Lines::flag_word))]
    pub(crate) fn with(self, word: &[u8], flag: Option<u16>) -> Result<Self, LineFault>
        ensures { result ≡ flag_word self word.now flag }
    {
        if let Some(digits) = after_key(b"bits=", word) {
            let bits = once(self.bits, short(digits))?;
            Ok(FlagWords { bits, ..self })
        } else {
            let words = flag_once(self.words, flag)?;
            Ok(FlagWords { words, ..self })
        }
    }

    #[tactic(auto, unfolding(crate::specs::Lines::flags_of))]
    pub(crate) fn flags(self) -> u16
        ensures { result ≡ flags_of self }
    {
        self.words | self.bits.unwrap_or(0)
    }
}

/// The flag of a word of an enq or cvt line.
#[tactic(auto, unfolding(crate::specs::Lines::enq_flag))]
pub(crate) fn enq_flag(word: &[u8]) -> Option<u16>
    ensures { result ≡ enq_flag word.now }
{
    if is_text(word, b"valblk") {
        Some(EnqFlags::VALBLK.bits())
    } else if is_text(word, b"noqueue") {
        Some(EnqFlags::NOQUEUE.bits())
    } else if is_text(word, b"syncsts") {
        Some(EnqFlags::SYNCSTS.bits())
    } else if is_text(word, b"system") {
        Some(EnqFlags::SYSTEM.bits())
    } else if is_text(word, b"expedite") {
        Some(EnqFlags::EXPEDITE.bits())
    } else if is_text(word, b"quecvt") {
        Some(EnqFlags::QUECVT.bits())
    } else if is_text(word, b"nodlckwt") {
        Some(EnqFlags::NODLCKWT.bits())
    } else if is_text(word, b"nodlckblk") {
        Some(EnqFlags::NODLCKBLK.bits())
    } else if is_text(word, b"wide") {
        Some(EnqFlags::WIDE.bits())
    } else {
        None
    }
}

#[tactic(auto, unfolding(crate::specs::Lines::deq_flag))]
pub(crate) fn deq_flag(word: &[u8]) -> Option<u16>
    ensures { result ≡ deq_flag word.now }
{
    if is_text(word, b"deqall") {
        Some(DeqFlags::DEQALL.bits())
    } else if is_text(word, b"cancel") {
        Some(DeqFlags::CANCEL.bits())
    } else if is_text(word, b"invvalblk") {
        Some(DeqFlags::INVVALBLK.bits())
    } else {
        None
    }
}

#[tactic(auto, unfolding(crate::specs::Lines::flag_once, vlm_words::specs::Flags::has_flag))]
fn flag_once(flags: u16, flag: Option<u16>) -> Result<u16, LineFault>
    ensures { result ≡ flag_once flags flag }
{
    match flag {
        Some(flag) if flags & flag != flag => Ok(flags | flag),
        _ => Err(LineFault::WrongWord),
    }
}
