//! The machines, the checker and the command line on kept files: scripts played as kept, traces judged as
//! kept, the examples played by their scripts and explored, and files that are spoiled.
mod ends;
mod examples;
mod folder;
mod rows;
mod said;
mod spoiled;
mod spoiling;
mod texts;
mod verdicts;

pub use crate::kept_files::folder::{Backed, Folder};
pub use crate::kept_files::said::{Said, run};
pub use crate::kept_files::texts::{lines_with, words_of};
use anyhow::Result;
use std::io::Write;
use std::rt::Files;
use std::sync::Wait;
use std::thread::Threads;

/// Takes each file, and prints what came of it.
pub fn take_all<R: Files + Threads + Wait + Sync + AllocGlobal, W: Write>(
    rt: &R,
    out: &mut W,
) -> Result<()> {
    rows::play_all(rt, out)?;
    verdicts::judge_all(rt, out)?;
    examples::play_all(rt, out)?;
    ends::explore_all(rt, out)?;
    spoiled::spoil_all(rt)?;
    writeln!(
        out,
        "every spoiled file was taken, judged or refused in one line"
    )?;
    Ok(())
}
