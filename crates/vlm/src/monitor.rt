//! Makes the steps of a script, and prints the row of a watched resource after each.
mod ends;
mod watch;
mod watched;

pub use ends::WatchFault;
pub use watch::watch_script;
