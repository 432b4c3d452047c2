//! What no contract of lists says: that lists are served where there is memory, and that each has a thread of its own.

mod gates;
mod many;
mod replays;
mod retries;
mod steps;
mod worked;
