//! The journal of a hub: each step, who asked for it, and its answer.
//! [`journaled_core::JournaledCore`] is a core that writes its journal. [`laws`] has the laws of every journal: of its
//! nodes, of their departures, and of the posts and items between them and the hub.
#![tactic(auto)]

pub mod entries;
pub mod journaled_core;
pub mod laws;
pub mod posts;
