//! Judges kept traces under a memory model, and prints the status and what the program prints of each. What is wanted is
//! kept beside it: verdicts that other implementations of the same rules have given. A line of the file `verdicts` has a
//! trace's name, and the model that it is judged under.

use crate::kept_files::said::Said;
use anyhow::{Context, Result};
use std::fs;
use std::io::{self, Write};
use std::rt::Files;
use std::sync::Wait;
use std::thread::Threads;

/// Judges each case, and prints its verdict.
pub fn judge_all<R: Files + Threads + Wait + Sync + AllocGlobal, W: Write>(
    rt: &R,
    out: &mut W,
) -> Result<()> {
    let cases = fs::read_to_string(rt, "judged/verdicts")?;
    let mut said = Said::nothing(rt.alloc());
    for case in cases.lines() {
        judge_case(rt, case, &mut said, out)?;
    }
    Ok(())
}

/// Judges the case of a line, and prints its verdict.
fn judge_case<R: Files + Threads + Wait + Sync + AllocGlobal, W: Write>(
    rt: &R,
    case: &str,
    said: &mut Said,
    out: &mut W,
) -> Result<()> {
    let (name, model) = case.split_once(' ').context("no case")?;
    judge(rt, name, model, said)?;
    print(name, said, out)?;
    Ok(())
}

fn judge<R: Files + Threads + Wait + Sync + AllocGlobal>(
    rt: &R,
    name: &str,
    model: &str,
    said: &mut Said,
) -> io::Result<()> {
    let trace = format!(in rt.alloc(); "{name}.trace")?;
    let words = ["rvtl", "check", "--model", model, trace.as_str()];
    said.ask_of_system(rt, &words);
    Ok(())
}

fn print<W: Write>(name: &str, said: &Said, out: &mut W) -> io::Result<()> {
    write!(out, "{name}: status {}: ", said.status)?;
    said.print(out)
}
