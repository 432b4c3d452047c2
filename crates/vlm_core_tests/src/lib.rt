//! Callers of the crates, as tests. It has no code of its own.
//!
//! A crate with tests is proved twice, without them and with them; so the tests of all crates stand
//! in this one, which is proved twice in little more than the time of once.
#![tactic(auto)]

#[cfg(test)]
mod tests;
