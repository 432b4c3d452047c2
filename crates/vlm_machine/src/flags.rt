//! Reads flags from bits.

ghost use Rattle.std.specs.Prelude.{◌≡◌, true, false, IfOk, MatchOption};
ghost use Rattle.std.specs.Result.{result_err};
ghost use Rattle.vlm_model.specs.Checks.{request_flags_refusal};
ghost use Rattle.vlm_words.specs.Flags.{deq_bits, deq_flag_bits, flag_bits, is_known};

use bitflags::Flags;
use vlm_words::conditions::Cond;
use vlm_words::flags::{DeqFlags, EnqFlags};

/// BADPARAM if a flag is unknown.
#[tactic(auto, unfolding(vlm_model::specs::Checks::request_flags_refusal, vlm_words::specs::Flags::is_known, bitflags::proofs::OnLiterals::bitflags_on_literals))]
pub(crate) fn checked_request_flags(bits: u16) -> Result<EnqFlags, Cond>
    ensures refusal { result_err result ≡ request_flags_refusal bits }
    ensures flags { IfOk result (λ flags. flag_bits flags ≡ bits) }
{
    EnqFlags::from_bits(bits).ok_or(Cond::Badparam)
}

#[tactic(auto, unfolding(vlm_words::specs::Flags::is_known, bitflags::proofs::OnLiterals::bitflags_on_literals))]
pub(crate) fn deq_flags(bits: u16) -> Option<DeqFlags>
    ensures { MatchOption result (is_known deq_bits bits ≡ false)
        (λ flags. (is_known deq_bits bits ≡ true) × (deq_flag_bits flags ≡ bits)) }
{
    DeqFlags::from_bits(bits)
}
