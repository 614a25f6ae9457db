//! Explores the examples of the repository, and prints each end that is found. What is wanted is kept beside
//! it: ends that were worked out by hand, and numbers of states that another explorer has counted. A line of
//! the files `explored` and `allowed` is what stands behind `rvtl explore`.

use crate::kept_files::said::Said;
use crate::kept_files::texts::words_of;
use std::fs;
use std::io::{self, Write};
use std::rt::Files;
use std::sync::Wait;
use std::thread::Threads;

/// What is printed of what the command line told.
#[derive(Clone, Copy)]
enum Printed {
    All,
    /// All but the last line, since nobody else has counted the states where the architecture is asked.
    Ends,
}

/// Explores each example.
pub fn explore_all<R: Files + Threads + Wait + Sync + AllocGlobal, W: Write>(
    rt: &R,
    out: &mut W,
) -> io::Result<()> {
    explore_lines(rt, "explored", Printed::All, out)?;
    explore_lines(rt, "allowed", Printed::Ends, out)
}

fn explore_lines<R: Files + Threads + Wait + Sync + AllocGlobal, W: Write>(
    rt: &R,
    file: &str,
    printed: Printed,
    out: &mut W,
) -> io::Result<()> {
    let lines = fs::read_to_string(rt, file)?;
    let mut said = Said::nothing(rt.alloc());
    for asked in lines.lines() {
        explore(rt, asked, printed, &mut said, out)?;
    }
    Ok(())
}

fn explore<R: Files + Threads + Wait + Sync + AllocGlobal, W: Write>(
    rt: &R,
    asked: &str,
    printed: Printed,
    said: &mut Said,
    out: &mut W,
) -> io::Result<()> {
    ask(rt, asked, said)?;
    print(asked, said, printed, out)
}

fn ask<R: Files + Threads + Wait + Sync + AllocGlobal>(
    rt: &R,
    asked: &str,
    said: &mut Said,
) -> io::Result<()> {
    let words = words_of(rt.alloc(), &["rvtl", "explore"], asked)?;
    said.ask_of_system(rt, &words);
    Ok(())
}

fn print<W: Write>(asked: &str, said: &Said, printed: Printed, out: &mut W) -> io::Result<()> {
    writeln!(out, "{asked}: status {}", said.status)?;
    match printed {
        Printed::All => said.print(out),
        Printed::Ends => out.write_all(but_last_line(&said.out)),
    }
}

/// The text without its last line.
fn but_last_line(text: &[u8]) -> &[u8] {
    let mut end = text.len().saturating_sub(1);
    while end > 0 && text[end - 1] != b'\n' {
        end -= 1;
    }
    &text[..end]
}
