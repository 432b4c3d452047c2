//! Bits in words of 64.

ghost use Rattle.std.specs.Prelude.{◌≡◌, ◌==◌, ◌*◌, ◌/◌, ◌<◌, ◌≤◌, ◌↔◌, IsTrue, length, slice_index};
ghost use Rattle.vlm_collections.specs.Words.{IsFirstBit, IsFirstWord, Sets, bit_of};

pub(crate) fn set_bit(words: &mut [u64], number: usize)
    requires { number < 64 * length words.old }
    ensures { Sets 1 number words.old words.new }
{
    words[number / 64] |= 1 << (number % 64);
}

pub(crate) fn clear_bit(words: &mut [u64], number: usize) -> bool
    requires { number < 64 * length words.old }
    ensures sets { Sets 0 number words.old words.new }
    ensures empty { IsTrue result ↔ (slice_index words.new (number / 64) ≡ 0) }
    ensures none { slice_index words.old (number / 64) ≡ 0
        → slice_index words.new (number / 64) ≡ 0 }
{
    words[number / 64] &= !(1 << (number % 64));
    words[number / 64] == 0
}

/// Whether the number's bit is 1. After the last word all bits are 0.
pub(crate) fn has_bit(words: &[u64], number: usize) -> bool
    ensures { result ≡ (bit_of words.now number == 1) }
{
    match words.get(number / 64) {
        Some(word) => (*word >> (number % 64)) & 1 == 1,
        None => false,
    }
}

pub(crate) fn first_bit(words: &[u64], word: usize) -> usize
    requires few { length words.now ≤ 1024 }
    requires first { IsFirstWord words.now word }
    ensures { IsFirstBit words.now result }
{
    64 * word + words[word].trailing_zeros() as usize
}
