//! Messages that are asked for by their name, their hart and their line of memory, each of which may be left open.
#![tactic(auto)]

mod pattern;
mod reading;

pub use pattern::{MessageName, MessagePattern};
pub use reading::pattern_in;
