//! Which registers a program may still read where a hart stands: what a hart does, and all that others see of it, is
//! the same whatever the other registers hold.
#![tactic(auto)]

mod laws;
mod masks;
mod table;

pub use laws::{live_is_closed, others_may_be_zero};
pub use table::LiveRegisters;
