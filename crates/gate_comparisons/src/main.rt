//! Compares decoding and execution, the machines, the checker and the command line with tables, kept files, plain bodies
//! and published answers, and prints what comes of it.
#![tactic(auto)]

mod kept_files;
mod transcripts;

use anyhow::Result;
use std::env;
use std::io::Write;
use std::rt::Files;
use std::sync::Wait;
use std::thread::Threads;

fn main(rt: HostRuntime) -> Result<()> {
    // With a row's name that is played alone, to be tried with each allocation refused in turn.
    let mut words = match env::args(&rt) {
        Ok(words) => words,
        Err(_) => env::args(&rt)?,
    };
    let _program = words.next();
    if let Some(name) = words.next() {
        return gate_refusals::play(&rt, name.as_str());
    }
    compare_all(&rt, &mut rt.stdout())
}

fn compare_all<R: Files + Threads + Wait + Print + Eprint + Sync + AllocGlobal, W: Write>(
    rt: &R,
    out: &mut W,
) -> Result<()> {
    gate_rv32_vectors::compare_all(rt)?;
    gate_refusals::play_all(rt)?;
    gate_machine_comparisons::compare_all(rt)?;
    kept_files::take_all(rt, out)?;
    transcripts::play_all(rt, out)?;
    gate_plain_comparisons::judge_all(rt, out)?;
    gate_plain_comparisons::play_all(rt.alloc(), out)?;
    out.flush()?;
    Ok(())
}
