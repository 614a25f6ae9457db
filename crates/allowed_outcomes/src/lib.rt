//! The outcomes that a file allows, a line each.
#![tactic(auto)]

mod allowing;
mod patterns;

pub use allowing::{Allowed, without_number};
