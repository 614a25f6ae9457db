//! Words of memory where each byte is the last one that was performed.
#![tactic(auto)]

mod addresses;
mod reading;

pub use addresses::can_show;
pub use reading::{byte_of, words_of};
pub use trace_operations;
