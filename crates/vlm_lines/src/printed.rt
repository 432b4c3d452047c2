//! Prints single lines. A line is a buffer of a fixed size, in which each of these lines fits.

pub use answers::{answer_line, answer_text, ast_text, node_line};
pub use line::PrintedLine;
pub use locks::row_line;
pub use resources::{no_resources_line, resource_line, tail_line, validity};
pub use status_blocks::{status_block_line, status_tail_line};

mod answers;
mod line;
mod locks;
mod resources;
mod status_blocks;
