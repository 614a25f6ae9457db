//! What caches hold.
ghost use Rattle.std.specs.Prelude.{◌≡◌, ◌<◌, ◌≤◌, IfErr, IfOk, OnOk, length, map};
ghost use Rattle.client_cache.specs.Cache.{copy_at};
ghost use Rattle.run_chart.specs.Copies as copies;
ghost use Rattle.run_chart.specs.declared.errors.RowError.TheVariants as error;

use crate::errors::RowError;
use crate::row::MOST_ROWS;
use crate::rows::Copied;
use crate::shapes::Hold;
use client_cache::{ClientCache, Held};
use event_stream::coherent_machine::Machine;
use std::alloc::{AllocError, Global};
use trace_recorder::Logged;

fn hold_of(copy: Option<Held>) -> Hold
    ensures { result ≡ copies.hold_of copy }
{
    match copy {
        Some(Held::Branch(_)) => Hold::Branch,
        Some(Held::Trunk { dirty: false, .. }) => Hold::Trunk,
        Some(Held::Trunk { dirty: true, .. }) => Hold::Dirty,
        None => Hold::Nothing,
    }
}

/// What a hart's cache holds of a line; of a hart that isn't there, nothing.
fn hold_at(machine: &Machine, hart: usize, line: u32) -> Hold
    ensures { result ≡ copies.hold_at machine.now hart line }
{
    let views = machine.views();
    if hart < views.harts() {
        hold_of(views.cache(hart).copy(line))
    } else {
        Hold::Nothing
    }
}

fn copied(machine: &Machine, hart: usize, line: u32) -> Copied
    ensures { result ≡ copies.copied machine.now hart line }
{
    Copied {
        line,
        hold: hold_at(machine, hart, line),
    }
}

/// What a hart's cache holds of these lines.
pub(crate) fn copies_in(
    alloc: Global,
    machine: &Machine,
    hart: usize,
    lines: &[u32],
) -> Result<Vec<Copied>, AllocError>
    ensures { IfOk result (λ list. list.items ≡ map (copies.copied machine.now hart) lines.now) }
{
    let mut copies = Vec::new(alloc);
    for line in lines {
        copies.push(copied(machine, hart, *line))?;
    }
    Ok(copies)
}

/// Whether a message is about the line of memory that is asked for, if one is.
pub(crate) fn is_about(only: Option<u32>, entry: &Logged) -> bool
    ensures { result ≡ copies.is_about only entry.now }
{
    match only {
        Some(line) => entry.message.line == line,
        None => true,
    }
}

fn has(lines: &[u32], line: u32) -> bool
    ensures { result ≡ copies.has lines.now line }
{
    let mut rest = lines;
    while let [first, tail @ ..] = rest {
        if *first == line {
            return true;
        }
        rest = tail;
    }
    false
}

/// A message's line joins the lines in play, if it isn't among them: no more than a picture has bars.
fn meet(lines: &mut Vec<u32>, only: Option<u32>, entry: &Logged) -> Result<(), RowError>
    requires { length lines.old.items ≤ 400 }
    ensures lines { OnOk result (lines.new.items ≡ copies.with_line only lines.old.items entry.now) }
    ensures few { OnOk result (length lines.new.items ≤ 400) }
    ensures full { IfErr result (λ why. why ≡ error.TooManyRows → 400 < length (copies.with_line only lines.old.items entry.now)) }
{
    let line = entry.message.line;
    if is_about(only, entry) && !has(lines.as_slice(), line) {
        if lines.len() >= MOST_ROWS {
            return Err(RowError::TooManyRows);
        }
        if lines.push(line).is_err() {
            return Err(RowError::NoMemory);
        }
    }
    Ok(())
}

/// The lines of memory that messages are about, each once, in the order in which they are met, if they aren't more
/// than a picture has bars.
pub(crate) fn lines_of(
    alloc: Global,
    only: Option<u32>,
    log: &[Logged],
) -> Result<Vec<u32>, RowError>
    ensures lines { IfOk result (λ lines. lines.items ≡ copies.lines_of only log.now) }
    ensures few { IfOk result (λ lines. length lines.items ≤ 400) }
    ensures full { IfErr result (λ why. why ≡ error.TooManyRows → 400 < length (copies.lines_of only log.now)) }
{
    let mut lines = Vec::new(alloc);
    let mut rest = log;
    while let [entry, tail @ ..] = rest {
        meet(&mut lines, only, entry)?;
        rest = tail;
    }
    Ok(lines)
}
