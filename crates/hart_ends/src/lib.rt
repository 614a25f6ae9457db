//! How a hart ended, as the commands tell it.
#![tactic(auto)]

mod ends;

pub use ends::put_end;
