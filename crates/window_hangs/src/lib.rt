//! Runs that hang under a memory model: what it means that none that goes on from one comes to its ends, and that a search
//! of the bare window machine shows it. What they mean is said in `specs/`.
#![tactic(auto)]

mod laws;

pub use laws::{endless_sets_hang, endless_sets_never_end, runs_are_followed_on, runs_are_seen};
pub use window_model;
