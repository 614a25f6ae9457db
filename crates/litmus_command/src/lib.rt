//! `rvtl litmus`: the answers to litmus tests.
#![tactic(auto)]

mod ended;
mod fault;
mod files;
mod line;
mod logs;
mod program;
mod rows;
mod search;
mod states;
mod test;
mod usage;
mod wanted;

pub use line::litmus_line;
