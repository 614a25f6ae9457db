//! Plays the examples of the repository, and prints how each ends: the trace's last lines, what the harts put
//! out, and the status with which it is explained.

use crate::kept_files::said::Said;
use std::io::{self, Write};
use std::rt::Files;
use std::sync::Wait;
use std::thread::Threads;

/// Programs of two harts that the GNU toolchain built, each with a script.
static EXAMPLES: [&str; 9] = [
    "store_buffering",
    "store_buffering_fenced",
    "message_passing",
    "message_passing_fenced",
    "spin_lock",
    "reserved_lock",
    "dekker",
    "dekker_fenced",
    "treiber_stack",
];

/// How many lines of each trace are printed: the harts' statuses.
const LAST_LINES: usize = 2;

/// Plays each example, and prints how it ends.
pub fn play_all<R: Files + Threads + Wait + Sync + AllocGlobal, W: Write>(
    rt: &R,
    out: &mut W,
) -> io::Result<()> {
    let mut said = Said::nothing(rt.alloc());
    for name in &EXAMPLES {
        play(rt, name, &mut said, out)?;
    }
    Ok(())
}

fn play<R: Files + Threads + Wait + Sync + AllocGlobal, W: Write>(
    rt: &R,
    name: &str,
    said: &mut Said,
    out: &mut W,
) -> io::Result<()> {
    ask(rt, "replay", name, said)?;
    writeln!(out, "{name}")?;
    out.write_all(last_lines(&said.out))?;
    out.write_all(&said.err)?;
    ask(rt, "explain", name, said)?;
    writeln!(out, "explained: status {}", said.status)
}

fn ask<R: Files + Threads + Wait + Sync + AllocGlobal>(
    rt: &R,
    command: &str,
    name: &str,
    said: &mut Said,
) -> io::Result<()> {
    let alloc = rt.alloc();
    let image = format!(in alloc; "{name}.elf")?;
    let script = format!(in alloc; "{name}.script")?;
    let words = ["rvtl", command, image.as_str(), script.as_str()];
    said.ask_of_system(rt, &words);
    Ok(())
}

/// The last lines of a text.
fn last_lines(text: &[u8]) -> &[u8] {
    let mut start = text.len();
    let mut lines = 0;
    while start > 0 {
        if start < text.len() && text[start - 1] == b'\n' {
            lines += 1;
            if lines == LAST_LINES {
                break;
            }
        }
        start -= 1;
    }
    &text[start..]
}
