//! The machine: its calls, one event at a time.
#![tactic(auto)]

mod adopting;
mod errors;
mod machine;
mod outputs;
mod views;

pub use errors::{AdoptError, ReplayError};
pub use machine::{Machine, replay};
pub use machine_parts::ApplyError;
pub use views::Views;
