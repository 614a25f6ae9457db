//! Which questions of a log of messages no answer follows.
#![tactic(auto)]

mod answers;
mod opening;
#[cfg(test)]
mod tests;

pub use opening::{Open, left_open};
