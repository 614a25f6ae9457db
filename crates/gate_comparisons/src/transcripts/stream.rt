//! What a command printed, beside what a transcript's lines tell of it.

use crate::kept_files::lines_with;
use crate::transcripts::line::halves;
use anyhow::{Context, Result, bail, ensure};
use std::alloc::Global;
use std::str::from_utf8;

/// A stream of a command, the same of the command before, and how many bytes are told.
#[derive(Clone, Copy)]
pub struct Stream<'a> {
    pub printed: &'a [u8],
    pub before: &'a [u8],
    pub told: usize,
}

impl Stream<'_> {
    /// How many bytes are told once this line is, too.
    pub fn tell(self, alloc: Global, mark: char, text: &str) -> Result<usize> {
        let line = format!(in alloc; "{text}\n")?;
        self.tell_line(mark, text, &line)
    }

    /// The same, where the text's line is at hand.
    fn tell_line(self, mark: char, text: &str, line: &str) -> Result<usize> {
        let printed = from_utf8(self.printed)?;
        let rest = printed.get(self.told..).unwrap_or("");
        let (shown, told) = match mark {
            ' ' => (rest, self.told.saturating_add(line.len())),
            '-' => (rest, printed.len()),
            _ => (printed, printed.len()),
        };
        let is_so = match mark {
            ' ' => rest.starts_with(line),
            '-' => rest.starts_with(text),
            '*' => printed.contains(line),
            '.' => printed.ends_with(line),
            '=' => self.printed == self.before,
            _ => counts(printed, mark, text)?,
        };
        ensure!(is_so, "there came {shown:?}");
        Ok(told)
    }

    /// Everything is told.
    pub fn conclude(self) -> Result<()> {
        let rest = from_utf8(self.printed)?.get(self.told..).unwrap_or("");
        ensure!(rest.is_empty(), "before, there came more: {rest:?}");
        Ok(())
    }
}

/// Whether as many lines begin so as is told, or there are fewer.
fn counts(printed: &str, mark: char, told: &str) -> Result<bool> {
    let (count, start) = halves(told);
    let count = count.parse::<usize>()?;
    match mark {
        '#' => Ok(lines_with(printed, start) == count),
        '<' => Ok(printed.lines().count() < count),
        _ => bail!("no such mark"),
    }
}

/// The trace with its first two lines of the kind P exchanged, which follow one another.
pub fn exchanged(alloc: Global, trace: &[u8]) -> Result<String> {
    let (start, first, second, end) = parts_of(from_utf8(trace)?).context("no order")?;
    Ok(format!(in alloc; "{start}\nP {second}\nP {first}\n{end}")?)
}

/// What stands before those lines, in each of them and behind them.
fn parts_of(trace: &str) -> Option<(&str, &str, &str, &str)> {
    let (start, rest) = trace.split_once("\nP ")?;
    let (first, rest) = rest.split_once("\nP ")?;
    let (second, end) = rest.split_once('\n')?;
    Some((start, first, second, end))
}
