//! Reads a script whole, and writes its printed text whole.

pub(crate) use readers::read_whole;
pub use writers::write_whole;

mod readers;
mod writers;
