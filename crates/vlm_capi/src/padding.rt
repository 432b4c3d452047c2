//! Names and printed lines in arrays of a fixed length.

ghost use Rattle.std.specs.Prelude.{◌≡◌, ◌≤◌, length};
ghost use Rattle.vlm_words.specs.Padding.{padded};
ghost use Rattle.vlm_capi.specs.ScriptLines.{name_or_none};

use vlm_lines::{PrintedLine, ProcessName};
use vlm_words::names::{Name, NameArg};

fn padded<const N: usize>(bytes: &[u8]) -> [u8; N]
    requires { length bytes.now ≤ N }
    ensures { result ≡ padded N bytes.now }
{
    let mut cells = [0; N];
    cells[..bytes.len()].copy_from_slice(bytes);
    cells
}

/// The padded name of a resource, and its length.
#[tactic(auto, using(vlm_lines::proofs::Lengths::name_short))]
pub(crate) fn name_cells(name: Name) -> ([u8; 32], u32)
    ensures cells { result.0 ≡ padded 32 name }
    ensures len { result.1 ≡ length name }
{
    let bytes = name.bytes();
    (padded(bytes), bytes.len() as u32)
}

/// The padded name that a request gives a resource, and its length. Both are 0 if the bytes are no name.
pub(crate) fn given_name_cells(name: NameArg) -> ([u8; 32], u32)
    ensures cells { result.0 ≡ padded 32 (name_or_none name) }
    ensures len { result.1 ≡ length (name_or_none name) }
{
    if name.is_name() {
        name_cells(name.checked())
    } else {
        ([0; 32], 0)
    }
}

/// The padded name of a process, and its length.
pub(crate) fn process_name_cells(name: ProcessName) -> ([u8; 16], u32)
    ensures cells { result.0 ≡ padded 16 name }
    ensures len { result.1 ≡ length name }
{
    let bytes = name.bytes();
    (padded(bytes), bytes.len() as u32)
}

/// A padded line, and its length.
pub(crate) fn line_cells(line: &PrintedLine) -> ([u8; 248], u32)
    ensures cells { result.0 ≡ padded 248 line.now.items }
    ensures len { result.1 ≡ length line.now.items }
{
    (padded(line), line.len() as u32)
}
