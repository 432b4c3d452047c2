//! What no contract of the hub says: that posts and turns succeed where there is room.

mod hub;
mod lists;
mod retries;
mod steps;
mod threads;
mod watchers;
