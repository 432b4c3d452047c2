//! Runs a script of lock requests, and prints the answers.
//!
//! A script is read whole. Then its lines run in order in a session: a machine, and the names of its processes. The
//! printed text waits in a buffer, and is written in pieces.
#![tactic(auto)]

mod bindings;
mod cuts;
mod fault_lines;
mod faults;
mod node_lists;
mod printed;
mod runs;
mod session;
mod shares;
mod show;
mod steps;
mod stops;
mod streams;

pub use faults::PlayFault;
pub use printed::{WatchedRow, answer_item_line, ast_item_line, journal_line, watch_line};
pub use runs::play;
pub use shares::read_lists;
pub use steps::{ScriptStep, read_steps};
pub use streams::write_whole;
pub use vlm_core::HashKeys;
pub use vlm_lines::{Line, LineFault, read_line, read_res};
