//! The processes of the store: their status blocks, ASTs, quotas and privileges.
//!
//! Only `owe` takes memory.
#![tactic(auto)]

mod asts;
mod authorizations;
mod blocks;
mod views;

pub use asts::{forgive, owe, pending, queue_ast, take};
pub use authorizations::{group_of, has_room, has_syslck};
pub use blocks::{
    accept, accept_granted, end, end_with_return, has_status_block, set_value, status_block,
    status_block_or_new,
};
pub use views::{ProcessView, process_at};
