//! Reads one line of a script: its command, its words, and the first fault. Prints one line: an answer, an AST, a
//! status block, a resource or a lock.
//!
//! It knows no machine and no process, and takes no memory.
#![tactic(auto)]

mod commands;
mod cuts;
mod faults;
mod flags;
mod keyed;
mod lines;
mod locks;
mod names;
mod numbers;
mod printed;
mod values;
mod words;

pub use commands::read_line;
pub use faults::LineFault;
pub use lines::{Line, NO_PROCESS, ProcessName};
pub use names::read_res;
pub use printed::{
    PrintedLine, answer_line, answer_text, ast_text, no_resources_line, node_line, resource_line,
    row_line, status_block_line, status_tail_line, tail_line, validity,
};
