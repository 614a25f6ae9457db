//! All ends that the machine can bring a program to, with words of memory where some are asked for, and perhaps others of
//! flat runs, each with the events that lead there or why there are none.
#![tactic(auto)]

mod account;
mod effort;
mod end;
mod exploration;
mod exploring;
mod failing;
mod failures;
mod final_words;
mod found;
mod ranks;
mod samples;
mod scripts;
mod seeking;
mod stuck;

pub use effort::Exploring;
pub use exploration::{Exploration, Stuck};
pub use exploring::explore;
pub use flat_exploration;
pub use flat_machine::Outcome;
pub use flat_model;
pub use found::{Found, FoundFailure, Realisation};
pub use performed_words;
pub use ranks::compare;
pub use samples::{SampleWatch, Sampled, Sampling, sample_ends};
pub use seeking::Seek;
