//! The types of the lock manager and the mode tables.
//!
//! Nothing here takes memory. `specs/` has the state of the plain machine: nodes, processes, and resources with three
//! queues each. The steps of that machine are defined in `vlm_model`.
#![tactic(auto)]

pub mod asts;
pub mod blocks;
pub mod conditions;
pub mod flags;
pub mod ids;
pub mod locks;
pub mod modes;
pub mod names;
pub mod resources;
pub mod steps;
pub mod texts;
