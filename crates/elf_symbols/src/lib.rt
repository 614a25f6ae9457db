//! The names of addresses that an ELF32 file has, read leniently: a file without them, or with a broken
//! table, has none.
#![tactic(auto)]

mod section;
mod symbol;
mod symbols;
mod tables;

pub use symbols::{Place, Symbols};
