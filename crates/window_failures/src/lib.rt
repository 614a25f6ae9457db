//! Harts that stop under a memory model, whatever the other harts do: what it means that none is missing, that a search
//! of the bare window machine misses none, and where a trace's harts stopped. What they mean is said in `specs/`.
#![tactic(auto)]

mod laws;
mod stops;

pub use laws::{covered_sets_tell_failures, failing_are_followed};
pub use stops::stop_in;
pub use window_model::flat_exploration;
