//! What no contract says: worked answers, the order of refusals, sizes of records, memory that is refused.

mod asts;
mod blockers;
mod faults;
mod lines;
mod lists;
mod marks;
mod modes;
mod pending;
mod records;
mod refusals;
mod retries;
mod steps;
mod stores;
