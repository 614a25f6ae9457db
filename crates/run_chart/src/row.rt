//! A row: what an event that changed the machine did.
ghost use Rattle.std.specs.Prelude.{◌≡◌, ◌<◌, IfErr, IfOk, Some};
ghost use Rattle.std.specs.List.{list_any};
ghost use Rattle.event_stream.specs.Telling.{report_of};
ghost use Rattle.run_chart.specs.Copies.{is_about};
ghost use Rattle.run_chart.specs.Rows as rows;
ghost use Rattle.run_chart.specs.declared.errors.RowError.TheVariants as error;

use crate::accesses::lies_in;
use crate::before::{Before, reserved_in};
use crate::copies::{copies_in, is_about};
use crate::errors::RowError;
use crate::notes::notes_of;
use crate::posting::{end_of, noted, posts_of};
use crate::rows::Row;
use event_stream::coherent_machine::Machine;
use event_stream::{Report, hart_of};
use std::alloc::Global;
use tl_types::LineSize;
use trace_recorder::Logged;

/// A picture has no more rows, and no more bars of a cache.
pub const MOST_ROWS: usize = 400;

/// A picture has no more lines of text.
pub const MOST_LINES: u16 = 65_535;

/// What is drawn of a run: the lines of memory that have bars, and the only one whose messages are drawn, if
/// they aren't all.
#[derive(Clone, Copy)]
pub(crate) struct Scope<'a> {
    /// How large a line of memory is.
    pub size: LineSize,
    pub only: Option<u32>,
    pub columns: &'a [u32],
}

/// Whether one of these messages is about a line of memory.
fn any_about(line: u32, log: &[Logged]) -> bool
    ensures { result ≡ list_any (is_about (Some line)) log.now }
{
    log.iter().any(|entry| is_about(Some(line), entry))
}

/// Whether an event with these messages, about this address, is drawn.
pub(crate) fn is_shown(scope: &Scope<'_>, address: Option<u32>, log: &[Logged]) -> bool
    ensures { result ≡ rows.is_shown scope.now.size scope.now.only address log.now }
{
    match scope.only {
        Some(line) => any_about(line, log) || lies_in(scope.size, line, address),
        None => true,
    }
}

/// The row of an event's report, which begins on this line of text.
pub(crate) fn row_of(
    alloc: Global,
    scope: &Scope<'_>,
    before: &Before,
    machine: &Machine,
    line: u16,
    report: &Report<'_>,
) -> Result<Row, RowError>
    ensures row { IfOk result (λ row. rows.told row ≡ rows.row scope.now.only scope.now.columns.now before.now machine.now line (report_of report.now)) }
    ensures full { IfErr result (λ why. why ≡ error.TooManyRows → 65535 < (rows.row scope.now.only scope.now.columns.now before.now machine.now line (report_of report.now)).end) }
{
    let hart = hart_of(report.event);
    let reserved = reserved_in(machine.views(), hart as usize);
    let list = notes_of(alloc, machine.trace(), report, before.reserved, reserved)?;
    let log = posts_of(alloc, scope.only, line, report.log)?;
    let end = end_of(line, log.as_slice().len(), list.as_slice().len())?;
    let notes = noted(alloc, line, list.as_slice())?;
    let copies = copies_in(alloc, machine, hart as usize, scope.columns)?;
    Ok(Row {
        line,
        end,
        script_line: report.index.saturating_add(2),
        hart,
        event: report.event,
        outcome: report.outcome,
        log,
        notes,
        copies,
    })
}
