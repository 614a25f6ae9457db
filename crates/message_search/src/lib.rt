//! Where a message is first sent: a message with any of its parts left open, the events that a list of events needs
//! to come to it, and the fewest among those of random runs.
#![tactic(auto)]

mod asking;
mod first;
mod met;
mod runs;
mod sought;

pub use first::first_sent;
pub use met::{Met, Searched};
pub use runs::{RunWatch, Runs, search_runs};
pub use sought::Sought;
