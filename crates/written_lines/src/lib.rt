//! Whether the bytes that harts send of their lines are those that they were granted and those that they wrote.
#![tactic(auto)]

mod checking;
mod granted;
mod stores;
#[cfg(test)]
mod tests;
mod writing;

pub use checking::{Unwritten, first_unwritten, unwritten_in};
