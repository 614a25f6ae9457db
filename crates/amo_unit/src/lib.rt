//! What an atomic memory operation writes (RISC-V Unprivileged ISA 20191213, chapter 8.4).
#![tactic(auto)]

mod combining;

pub use combining::combine;
