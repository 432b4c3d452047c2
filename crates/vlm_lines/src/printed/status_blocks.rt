//! Prints status blocks.

ghost use Rattle.std.specs.Prelude.{◌≡◌, ◌≤◌, ◌+◌, ◌++◌, codes, decimal, length};
ghost use Rattle.arrayvec.specs.ArrayVec.{array_vec_len};
ghost use Rattle.vlm_lines.specs.Texts.{hex_text, line_feed, status_block_line, status_tail_line};

use super::line::{PrintedLine, decimal, hexadecimal, text};
use vlm_words::blocks::Block;

/// A status block under its process's name: its contents, or that the process has no such block.
#[tactic(auto, unfolding(crate::specs::Texts::status_block_line))]
pub fn status_block_line(name: &[u8], number: u8, block: Option<Block>) -> PrintedLine
    requires { length name.now ≤ 15 }
    ensures { result.items ≡ status_block_line name.now number block }
{
    let mut line = PrintedLine::new();
    text(&mut line, name);
    text(&mut line, b": block ");
    decimal(&mut line, u32::from(number));
    match block {
        Some(block) => contents(&mut line, &block),
        None => text(&mut line, b" none\n"),
    }
    line
}

fn contents(out: &mut PrintedLine, block: &Block)
    requires { array_vec_len out.old ≤ 50 }
    ensures { out.new.items
        ≡ out.old.items ++ codes " status " ++ decimal block.now.status
        ++ codes " lock " ++ decimal block.now.lkid
        ++ codes " value " ++ hex_text block.now.value ++ line_feed }
{
    text(out, b" status ");
    decimal(out, u32::from(block.status));
    text(out, b" lock ");
    decimal(out, block.lkid);
    text(out, b" value ");
    hexadecimal(out, &block.value);
    text(out, b"\n");
}

/// The tail of a status block under its process's name, or that the process has no such block.
#[tactic(auto, unfolding(crate::specs::Texts::status_tail_line))]
pub fn status_tail_line(name: &[u8], number: u8, block: Option<Block>) -> PrintedLine
    requires { length name.now ≤ 15 }
    ensures { result.items ≡ status_tail_line name.now number block }
{
    let mut line = PrintedLine::new();
    text(&mut line, name);
    text(&mut line, b": tail ");
    decimal(&mut line, u32::from(number));
    match block {
        Some(block) => tail(&mut line, &block.tail),
        None => text(&mut line, b" none\n"),
    }
    line
}

fn tail(out: &mut PrintedLine, bytes: &[u8])
    requires bytes { length bytes.now ≤ 48 }
    requires room { array_vec_len out.old ≤ 50 }
    ensures { out.new.items
        ≡ out.old.items ++ codes " " ++ hex_text bytes.now ++ line_feed }
{
    text(out, b" ");
    hexadecimal(out, bytes);
    text(out, b"\n");
}
