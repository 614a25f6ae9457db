//! Plays transcripts: texts that say over which files the command line prints what, and how it ends. The first
//! character of a line says what it is, and the second how the text behind the blank is meant:
//!
//!     #               a remark, as is an empty line
//!     + NAME          a file in memory begins; `+!` one whose reading fails behind its bytes
//!     | TEXT          a line of it
//!     |- TEXT         text without a line feed, where \n, \r, \e and \0 are escapes, as in a command's words
//!     |* COUNT TEXT   the same so many times
//!     |w DIGITS ..    words of four bytes, by hexadecimal digits
//!     |< NAME         the bytes of another file
//!     ~ NAME OTHER    a file begins: the other one, a trace, with its first two P lines exchanged
//!     @ NAME          a file begins: what the last command printed
//!     $ WORDS         the command `rvtl WORDS`, where what stands between two backquotes is one word; `$-` where no
//!                     file can be written
//!     < NAME          a file, as if a command had printed it
//!     > TEXT          the next line of standard output
//!     >- TEXT         it goes on so
//!     >* TEXT         somewhere in it a line ends so
//!     >. TEXT         its last line ends so
//!     ># COUNT TEXT   so many of its lines begin so
//!     >< COUNT        it has fewer lines
//!     >=              it is that of the command before
//!     ! TEXT          the next line of standard error, with the same marks
//!     = STATUS        the status
//!     : COUNT         so many files were written
//!     ? TEXT          what was remarked on a file
//!     %*              the last command ends with `cannot write` where standard output takes any number of bytes below
//!                     those that it has printed; `%- COUNT` where it takes so many; `%.` where it takes all, and can't
//!                     pass them on
//!     / NAME          the script of `lost_update.elf` loses an update, and needs each of its events for that
//!
//! What a command prints beyond its lines is a difference, but behind a line whose mark is no blank. So are a file that
//! it writes and a status that no line tells. A file that isn't in memory is the system's, and what commands write stays
//! in memory.
mod breaking;
mod line;
mod lost_update;
mod stage;
mod stream;

use crate::transcripts::stage::Stage;
use anyhow::{Context, Result};
use std::fs;
use std::io::Write;
use std::rt::Files;
use std::sync::Wait;
use std::thread::Threads;

static TRANSCRIPTS: [&str; 11] = [
    "replaying",
    "drawing",
    "explaining",
    "exploring",
    "fencing",
    "fencing_examples",
    "judging",
    "litmus",
    "messages",
    "running",
    "showing",
];

/// Plays each transcript, and prints how many commands were as told.
pub fn play_all<R: Files + Threads + Wait + Sync + AllocGlobal, W: Write>(
    rt: &R,
    out: &mut W,
) -> Result<()> {
    for name in &TRANSCRIPTS {
        let commands = play(rt, name)?;
        writeln!(out, "{name}: {commands} commands as told")?;
    }
    Ok(())
}

/// Plays the transcript of this name. How many commands it has.
fn play<R: Files + Threads + Wait + Sync + AllocGlobal>(rt: &R, name: &str) -> Result<usize> {
    let path = format!(in rt.alloc(); "transcripts/{name}.transcript")?;
    let text = fs::read_to_string(rt, path.as_str())?;
    play_lines(rt, name, &text)
}

fn play_lines<R: Files + Threads + Wait + Sync + AllocGlobal>(
    rt: &R,
    name: &str,
    text: &str,
) -> Result<usize> {
    let mut stage = Stage::new(rt.alloc());
    play_on(&mut stage, rt, name, text)?;
    Ok(stage.commands)
}

fn play_on<R: Files + Threads + Wait + Sync + AllocGlobal>(
    stage: &mut Stage,
    rt: &R,
    name: &str,
    text: &str,
) -> Result<()> {
    for (index, line) in text.lines().enumerate() {
        let number = index.saturating_add(1);
        stage
            .play(rt, line)
            .context(format_args!("{name}: line {number}: {line}"))?;
    }
    stage.conclude().context(format_args!("{name}: at the end"))
}
