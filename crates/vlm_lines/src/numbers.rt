//! Numbers in decimal digits.

ghost use Rattle.std.specs.Prelude.{◌≡◌, ◌≤◌, IfOk, length, true};
ghost use Rattle.std.specs.Char.{is_ascii_digit};
ghost use Rattle.std.specs.List.{list_all};
ghost use Rattle.vlm_lines.specs.Lines.{decimal_value, number_within};

use crate::faults::LineFault;

/// A number of at most ten digits and at most this limit.
#[tactic(auto, unfolding(crate::specs::Lines::number_within))]
pub(crate) fn number(limit: u32, word: &[u8]) -> Result<u32, LineFault>
    ensures value { result ≡ number_within limit word.now }
    ensures within { IfOk result (λ n. n ≤ limit) }
{
    let all_digits = word.iter().all(|digit| digit.is_ascii_digit());
    if word.is_empty() || !all_digits {
        return Err(LineFault::WrongWord);
    }
    if word.len() > 10 {
        return Err(LineFault::NumberOutOfRange);
    }
    let value = decimal_value(word);
    if value <= u64::from(limit) {
        Ok(value as u32)
    } else {
        Err(LineFault::NumberOutOfRange)
    }
}

pub(crate) fn byte(word: &[u8]) -> Result<u8, LineFault>
    ensures { result ≡ number_within 255 word.now }
{
    let value = number(255, word)?;
    Ok(value as u8)
}

pub(crate) fn short(word: &[u8]) -> Result<u16, LineFault>
    ensures { result ≡ number_within 65535 word.now }
{
    let value = number(65535, word)?;
    Ok(value as u16)
}

pub(crate) fn long(word: &[u8]) -> Result<u32, LineFault>
    ensures { result ≡ number_within 4294967295 word.now }
{
    number(u32::MAX, word)
}

fn decimal_value(digits: &[u8]) -> u64
    requires digits { list_all is_ascii_digit digits.now ≡ true }
    requires few { length digits.now ≤ 10 }
    ensures { result ≡ decimal_value digits.now }
{
    let mut value = 0;
    for digit in digits {
        value = 10 * value + u64::from(*digit - b'0');
    }
    value
}
