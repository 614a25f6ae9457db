//! How far a command is, told in one line of a terminal.
#![tactic(auto)]

mod line;
mod progress;

pub use line::ProgressLine;
pub use progress::{Progress, Silent, Stage};
