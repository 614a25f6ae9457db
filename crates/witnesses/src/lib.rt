//! Runs of a program whose order a memory model allows, each judged by the checker; and those that are witnesses of outcomes.
#![tactic(auto)]

mod judging;
mod output;
mod results;
mod witness;

pub use flat_model;
pub use judging::{judge, judge_trace};
pub use witness::{Run, Witness};
