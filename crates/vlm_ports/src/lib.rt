//! Ports that never wait, and the hub that makes their steps.
//!
//! A node has a [`Port`], which only its thread owns. A port posts steps and takes items, and never waits. The [`Hub`]
//! owns the core and its journal. In each turn it makes steps that the ports have posted, and sends each node its
//! answers and its ASTs. Between the hub and each port are two rings of 64 places, one each way.
#![tactic(auto)]

mod hub;
mod node_rings;
mod port;
mod posts;
mod watch;
mod watched_hub;

pub use hub::{Hub, Turn};
pub use node_rings::Settled;
pub use port::{Full, Port};
pub use vlm_journal::entries::{Entry, Item, Part};
pub use watch::{BoardFault, RootKey, Row, Told, Watcher};
