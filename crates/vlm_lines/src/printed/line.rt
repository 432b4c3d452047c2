//! A line that is being printed.

ghost use Rattle.std.specs.Prelude.{◌≡◌, ◌≤◌, ◌+◌, ◌*◌, ◌++◌, length, decimal};
ghost use Rattle.arrayvec.specs.ArrayVec.{array_vec_len};
ghost use Rattle.vlm_lines.specs.Texts.{hex_text};

use arrayvec::ArrayVec;
use hex::encode_to_slice;
use itoa::Buffer;

/// A line, or a part of one, at most 248 bytes. It takes no memory.
pub type PrintedLine = ArrayVec<u8, 248>;

// The most bytes that are printed in hexadecimal digits: those of a tail.
const LONGEST: usize = 48;

pub(super) fn text(out: &mut PrintedLine, text: &[u8])
    requires { array_vec_len out.old + length text.now ≤ 248 }
    ensures text { out.new.items ≡ out.old.items ++ text.now }
    ensures len { array_vec_len out.new ≡ array_vec_len out.old + length text.now }
{
    let _ = out.try_extend_from_slice(text);
}

pub(super) fn decimal(out: &mut PrintedLine, n: u32)
    requires { array_vec_len out.old ≤ 238 }
    ensures text { out.new.items ≡ out.old.items ++ decimal n }
    ensures len { array_vec_len out.new ≤ array_vec_len out.old + 10 }
{
    let mut buffer = Buffer::new();
    text(out, buffer.format(n).as_bytes());
}

pub(super) fn hexadecimal(out: &mut PrintedLine, bytes: &[u8])
    requires bytes { length bytes.now ≤ 48 }
    requires room { array_vec_len out.old ≤ 152 }
    ensures text { out.new.items ≡ out.old.items ++ hex_text bytes.now }
    ensures len { array_vec_len out.new ≡ array_vec_len out.old + 2 * length bytes.now }
{
    let mut digits = [0; 2 * LONGEST];
    let used = 2 * bytes.len();
    let _ = encode_to_slice(bytes, &mut digits[..used]);
    text(out, &digits[..used]);
}
