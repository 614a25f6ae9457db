//! What holds of every machine's log of messages.
#![tactic(auto)]

mod laws;

pub use laws::{log_tells_state, messages_lawful_always};
