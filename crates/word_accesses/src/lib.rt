//! How an access lies in its word, and which waiting stores an instruction has to wait for.
#![tactic(auto)]

mod ordering;
mod words;

pub use machine_model;
pub use ordering::{orders_after_stores, waits_for_stores, write_waits};
pub use words::{marks_of, read_from, store_of, word_of};
