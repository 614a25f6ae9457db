//! Runs a program with one thread a hart. Each takes turns: under the lock of the fabric it asks for an event, draws a
//! number from the board for it, and applies it. A hart's private instructions it runs outside the lock, and commits
//! them as one event. What a run leaves is what its journal leads to from reset, whatever the threads did.
#![tactic(auto)]

mod common;
mod crew;
mod ending;
mod gate;
mod report;
mod reporting;
mod rounds;
mod running;
mod same;
mod spare;
mod watched;
mod worker;

pub use gate::Gate;
pub use report::{Report, RunError};
pub use running::{run, run_with};
