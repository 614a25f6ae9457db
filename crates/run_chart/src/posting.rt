//! On which lines of text messages and notes stand.
ghost use Rattle.std.specs.Prelude.{◌≡◌, ◌+◌, ◌<◌, ◌++◌, ◌∷◌, [], IfErr, IfOk, OnOk, length, max};
ghost use Rattle.run_chart.specs.Lines as lines;
ghost use Rattle.run_chart.specs.declared.errors.RowError.TheVariants as row;

use crate::copies::is_about;
use crate::errors::RowError;
use crate::row::MOST_LINES;
use crate::rows::{Note, Noted, Posted};
use std::alloc::{AllocError, Global};
use trace_recorder::Logged;

/// The line of text below another.
fn below(line: u16) -> Result<u16, RowError>
    ensures next { IfOk result (λ next. next ≡ line + 1) }
    ensures last { IfErr result (λ _. line ≡ 65535) }
{
    if line == MOST_LINES {
        Err(RowError::TooManyRows)
    } else {
        Ok(line + 1)
    }
}

fn push_post(posts: &mut Vec<Posted>, line: u16, entry: &Logged) -> Result<(), AllocError>
    ensures { OnOk result (posts.new.items ≡ posts.old.items ++ (record { line = line; entry = entry.now }) ∷ []) }
{
    posts.push(Posted {
        line,
        entry: *entry,
    })?;
    Ok(())
}

/// The messages of an event, each on a line of its own from this one on; only those about the line of memory
/// that is asked for, if one is.
pub(crate) fn posts_of(
    alloc: Global,
    only: Option<u32>,
    line: u16,
    log: &[Logged],
) -> Result<Vec<Posted>, RowError>
    ensures posts { IfOk result (λ posts. posts.items ≡ lines.posted only line log.now) }
    ensures full { IfErr result (λ error. error ≡ row.TooManyRows → 65535 < line + length (lines.posted only line log.now)) }
{
    let mut posts = Vec::new(alloc);
    let mut next = line;
    let mut rest = log;
    while let [entry, tail @ ..] = rest {
        if is_about(only, entry) {
            push_post(&mut posts, next, entry)?;
            next = below(next)?;
        }
        rest = tail;
    }
    Ok(posts)
}

/// The notes of an event, each on a line of its own from this one on.
pub(crate) fn noted(alloc: Global, line: u16, notes: &[Note]) -> Result<Vec<Noted>, RowError>
    ensures noted { IfOk result (λ list. list.items ≡ lines.noted line notes.now) }
    ensures full { IfErr result (λ error. error ≡ row.TooManyRows → 65535 < line + length notes.now) }
{
    let mut list = Vec::new(alloc);
    let mut next = line;
    let mut rest = notes;
    while let [note, tail @ ..] = rest {
        push_note(&mut list, next, *note)?;
        next = below(next)?;
        rest = tail;
    }
    Ok(list)
}

fn push_note(list: &mut Vec<Noted>, line: u16, note: Note) -> Result<(), AllocError>
    ensures { OnOk result (list.new.items ≡ list.old.items ++ (record { line = line; note = note }) ∷ []) }
{
    list.push(Noted { line, note })?;
    Ok(())
}

/// The line on which a row ends that begins on this one, and has so many messages and notes.
pub(crate) fn end_of(line: u16, posts: usize, notes: usize) -> Result<u16, RowError>
    ensures end { IfOk result (λ end. end ≡ lines.end_of line posts notes) }
    ensures full { IfErr result (λ _. 65535 < lines.end_of line posts notes) }
{
    let height = posts.max(notes).max(1);
    if height > (MOST_LINES - line) as usize {
        Err(RowError::TooManyRows)
    } else {
        Ok(line + height as u16)
    }
}
