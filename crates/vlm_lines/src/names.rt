//! Names of resources.

ghost use Rattle.std.specs.Prelude.{◌≡◌, ◌*◌, length, true};
ghost use Rattle.std.specs.Char.{is_ascii_hexdigit};
ghost use Rattle.std.specs.List.{list_all};
ghost use Rattle.vlm_lines.specs.Lines.{hex_name, hex_value, name_read};

use crate::words::after_key;
use hex::decode_to_slice;
use vlm_words::names::NameArg;

// A name has at most 31 bytes. Of a longer one 32 are read, which is enough to refuse it.
const LONGEST: usize = 32;

/// A resource's name as a script writes it: `x:` and an even number of hexadecimal digits of either case, or the bytes
/// of the name. Both may be empty. `None` if anything else follows `x:`. It takes no memory.
#[tactic(auto, unfolding(crate::specs::Lines::name_read))]
pub fn read_res(bytes: &[u8]) -> Option<NameArg>
    ensures { result ≡ name_read bytes.now }
{
    match after_key(b"x:", bytes) {
        Some(digits) => hex_name(digits),
        None => Some(NameArg::of(bytes)),
    }
}

#[tactic(auto, unfolding(crate::specs::Lines::hex_name))]
fn hex_name(digits: &[u8]) -> Option<NameArg>
    ensures { result ≡ hex_name digits.now }
{
    let all_hex = digits.iter().all(|digit| digit.is_ascii_hexdigit());
    if digits.len() % 2 != 0 || !all_hex {
        return None;
    }
    let mut name = [0; LONGEST];
    let count = LONGEST.min(digits.len() / 2);
    read_pairs(&digits[..2 * count], &mut name[..count]);
    Some(NameArg::of(&name[..count]))
}

fn read_pairs(digits: &[u8], bytes: &mut [u8])
    requires digits { list_all is_ascii_hexdigit digits.now ≡ true }
    requires twice { length digits.now ≡ 2 * length bytes.old }
    ensures { bytes.new ≡ hex_value digits.now }
{
    let _ = decode_to_slice(digits, bytes);
}
