//! The search for a deadlock: processes that wait for each other in a cycle, and the victim among their requests.
//!
//! A search begins with the locks for which a request waits. It goes on to the processes that own them, and to the
//! locks for which the queued requests of these processes wait. Two sets mark the processes that it has found, and
//! those to which it still has to go. Their room is made beforehand, so a search takes no memory.
//!
//! Most requests need no search. Processes are ranked, and one pass over the queues checks that none waits for one of a
//! higher rank. Then a request that waits only for lower ranks is not deadlocked. No promise depends on a rank: a wrong
//! rank costs searches, and changes no answer.
//!
//! A walk gives the locks for which one request waits, or those whose requests wait for one lock, one after another
//! (`next_blockers`).
#![tactic(auto)]

mod blocker_ranks;
mod blockers;
mod conflicts;
mod deadlocks;
mod first_requests;
mod next_blockers;
mod passes;
mod rank_checks;
mod ranked_requests;
mod ranks;
mod scratch;
mod tarjan_nodes;
mod tarjan_walk;
mod victims;
mod waits;

pub use next_blockers::{next_blocked, next_blocker};
pub use scratch::Scratch;
pub use victims::victim;
