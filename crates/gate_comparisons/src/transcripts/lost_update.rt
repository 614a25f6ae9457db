//! The scripts that lead the program `lost_update.elf` to the loss of an update.

use crate::kept_files::{Backed, Folder, Said, lines_with};
use anyhow::{Result, ensure};
use std::alloc::{AllocError, Global};
use std::rt::Files;
use std::str::from_utf8;
use std::sync::Wait;
use std::thread::Threads;

/// The script leads there, and doesn't where any one of its events is left out.
pub fn needs_each<R: Files + Threads + Wait + Sync + AllocGlobal>(
    rt: &R,
    files: &mut Folder,
    script: &str,
) -> Result<()> {
    ensure!(loses_an_update(rt, files, script)?, "no update is lost");
    for index in 1..script.lines().count() {
        let is_needed = !loses_without(rt, files, script, index)?;
        ensure!(is_needed, "the event {index} isn't needed");
    }
    Ok(())
}

fn loses_without<R: Files + Threads + Wait + Sync + AllocGlobal>(
    rt: &R,
    files: &mut Folder,
    script: &str,
    index: usize,
) -> Result<bool> {
    let fewer = without(rt.alloc(), script, index)?;
    loses_an_update(rt, files, &fewer)
}

/// Whether the script brings both harts to their ends, behind which both stores have left, and both loads read 0.
fn loses_an_update<R: Files + Threads + Wait + Sync + AllocGlobal>(
    rt: &R,
    files: &mut Folder,
    script: &str,
) -> Result<bool> {
    files.put("script", script.as_bytes())?;
    let mut said = Said::nothing(rt.alloc());
    let words = ["rvtl", "replay", "lost_update.elf", "script"];
    said.ask(rt, &words, &mut Backed { folder: files, rt });
    has_lost_an_update(&said)
}

fn has_lost_an_update(said: &Said) -> Result<bool> {
    let has_ended = said.err.as_slice() == b"hart 0: exit 0\nhart 1: exit 0\n".as_slice();
    let trace = from_utf8(&said.out)?;
    // Each load is one word of code, and the number behind it is what it read.
    let zeros = trace.matches(" 0x0002a303 0x00000000 ").count();
    Ok(has_ended && lines_with(trace, "P ") == 4 && zeros == 2)
}

/// The script's lines but for one.
fn without(alloc: Global, script: &str, left_out: usize) -> Result<String, AllocError> {
    let mut rest = String::new(alloc);
    for (index, event) in script.lines().enumerate() {
        if index != left_out {
            add_line(&mut rest, event)?;
        }
    }
    Ok(rest)
}

fn add_line(text: &mut String, line: &str) -> Result<(), AllocError> {
    text.push_str(line)?;
    text.push('\n')?;
    Ok(())
}
