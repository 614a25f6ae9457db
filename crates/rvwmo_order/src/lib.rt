//! The checker: whether an order of the memory operations of a run is one that RVWMO or Ztso allows
//! (RISC-V Unprivileged ISA 20191213, chapters 14 and 23).
#![tactic(auto)]

mod bounds;
mod by_word;
mod candidate;
mod checking;
mod error;
mod fencing;
mod judging;
mod latest;
mod lows;
mod near;
mod ranking;
mod rule;
mod rules;
mod searching;
mod sources;
mod sourcing;
mod sweeping;
mod uses;
mod verdict;

pub use checking::{check, check_counted, check_model};
pub use error::CheckError;
pub use memory_model;
pub use rule::Rule;
pub use trace_operations;
pub use trace_operations::{Index, completed};
pub use verdict::{Code, Verdict};
