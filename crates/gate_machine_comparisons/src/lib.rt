//! Walks through all states of small programs beside the explorer, and compares what is found that the memory models
//! allow with published answers and with all runs of straight programs.
#![tactic(auto)]

mod allowed;
mod walked;
mod words;

use anyhow::Result;
use std::rt::Files;

/// Walks through the programs, and asks of the others what the models allow.
pub fn compare_all<R: Files + Print + AllocGlobal>(rt: &R) -> Result<()> {
    walked::walk_all(rt)?;
    allowed::ask_all(rt)?;
    allowed::compare_all(rt)
}
