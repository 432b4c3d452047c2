//! Callers of the hub and its ports, one that serves one node and one that serves two, a caller that serves lists of
//! steps, and tests. They are built for the tests alone, so they are proved once, with the tests.
#![tactic(auto)]

#[cfg(test)]
mod lists;
#[cfg(test)]
mod onlookers;
#[cfg(test)]
mod pair;
#[cfg(test)]
mod single;
#[cfg(test)]
mod tests;
#[cfg(test)]
mod threads;
#[cfg(test)]
mod watched;

#[cfg(test)]
pub use lists::{may_serve, serve};
#[cfg(test)]
pub use onlookers::Onlooker;
#[cfg(test)]
pub use pair::{Node, Pair};
#[cfg(test)]
pub use single::Single;
#[cfg(test)]
pub use watched::WatchedHub;
