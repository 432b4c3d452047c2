//! Prints a watched resource.

ghost use Rattle.std.specs.Prelude.{◌≡◌, ◌++◌, OnOk};
ghost use Rattle.vlm_script.specs.Texts.{counts_text, watch_line};

use super::texts::{decimal, decimal_usize, hexadecimal, text};
use std::alloc::AllocError;
use vlm_lines::validity;

/// The printed part of a watched resource.
#[derive(Clone, Copy)]
pub struct WatchedRow {
    /// How many locks hold NL, CR, CW, PR, PW and EX.
    pub held: [u32; 6],
    /// How many locks wait in the conversion queue.
    pub conversions: u32,
    /// How many locks wait in the waiting queue.
    pub waiters: u32,
    /// The value block.
    pub value: [u8; 16],
    /// Whether the value block is valid.
    pub valid: bool,
}

/// Appends `line N held A B C D E F conversions X waiters Y value HEX VALID` to `out`: the resource after script line
/// N. Only a refused allocation is an error, and then a part of the line may be in `out`.
#[tactic(auto, unfolding(crate::specs::Texts::watch_line))]
pub fn watch_line(out: &mut Vec<u8>, line: usize, row: &WatchedRow) -> Result<(), AllocError>
    ensures { OnOk result (out.new.items ≡ out.old.items ++ watch_line line row.now) }
{
    text(out, b"line ")?;
    decimal_usize(out, line)?;
    text(out, b" held")?;
    counts_text(out, &row.held)?;
    text(out, b" conversions ")?;
    decimal(out, row.conversions)?;
    text(out, b" waiters ")?;
    decimal(out, row.waiters)?;
    text(out, b" value ")?;
    hexadecimal(out, &row.value)?;
    text(out, b" ")?;
    text(out, validity(row.valid).as_bytes())?;
    text(out, b"\n")
}

fn counts_text(out: &mut Vec<u8>, counts: &[u32]) -> Result<(), AllocError>
    ensures { OnOk result (out.new.items ≡ out.old.items ++ counts_text counts.now) }
{
    for count in counts {
        text(out, b" ")?;
        decimal(out, *count)?;
    }
    Ok(())
}
