//! Whole litmus tests, read from their text.
#![tactic(auto)]

mod atom;
mod lines;
mod proposition;
mod question;
mod test;
#[cfg(test)]
mod tests;

pub use question::{Asking, Kind};
pub use test::{Test, test_of};
