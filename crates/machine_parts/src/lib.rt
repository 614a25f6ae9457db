//! The parts of a machine, and what an event does to them: what it comes to, the room that it needs, and
//! the change.
#![tactic(auto)]

mod applying;
mod errors;
mod limits;
mod lines;
mod node;
mod parts;
mod perform;
mod plan;

pub use errors::ApplyError;
pub use node::Node;
pub use parts::Parts;
