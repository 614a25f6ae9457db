//! Main memory behind the manager: a list of lines, which take no memory once they are made.
#![tactic(auto)]

mod memory;

pub use memory::Memory;
