//! What happens in a run, row by row.
ghost use Rattle.std.specs.Prelude.{◌≡◌, ◌<◌, ◌≤◌, ◌++◌, ◌∷◌, [], Err, IfErr, IfOk, IsTrue, OnOk, length, map};
ghost use Rattle.machine_model.specs.Events.{happens};
ghost use Rattle.machine_model.specs.Views.{opening};
ghost use Rattle.run_chart.specs.Rows as rows;
ghost use Rattle.run_chart.specs.Stories.{AreTooMany, IsOverfull, IsStory, IsRowTold, IsUntold, only_of};
ghost use Rattle.run_chart.specs.declared.errors.RowError.TheVariants as error;

use crate::before::stood_before;
use crate::copies::lines_of;
use crate::errors::{ChartError, RowError};
use crate::playing::events_enough;
use crate::row::{MOST_ROWS, Scope, is_shown, row_of};
use crate::rows::{Row, Story};
use elf_loader::Image;
use event_stream::Report;
use event_stream::coherent_machine::{Machine, replay};
use machine_model::changes_are_counted;
use machine_types::{Config, Event};
use std::alloc::{AllocError, Global};
use tl_types::LineSize;

/// The rows so far, and the line of text on which the next one begins.
#[derive(Drop)]
struct Gathered {
    rows: Vec<Row>,
    line: u16,
}

fn push(list: &mut Vec<Row>, row: Row) -> Result<(), AllocError>
    ensures { OnOk result (list.new.items ≡ list.old.items ++ row ∷ []) }
{
    list.push(row)?;
    Ok(())
}

impl Gathered {
    /// One more row.
    fn add(&mut self, row: Row) -> Result<(), RowError>
        ensures rows { OnOk result (self.new.rows.items ≡ self.old.rows.items ++ row ∷ []) }
        ensures line { OnOk result (self.new.line ≡ row.end) }
        ensures count { OnOk result (length self.new.rows.items ≤ 400) }
        ensures low { OnOk result (self.new.line ≤ 65535) }
        ensures full { IfErr result (λ why. why ≡ error.TooManyRows → 400 ≤ length self.old.rows.items) }
    {
        if self.rows.len() >= MOST_ROWS {
            return Err(RowError::TooManyRows);
        }
        self.line = row.end;
        push(&mut self.rows, row)?;
        Ok(())
    }
}

/// Applies an event of this index, and adds its row, if it has one. The events were replayed before, so that
/// only memory can be refused, or a row be one too many.
fn tell(
    alloc: Global,
    scope: &Scope<'_>,
    machine: &mut Machine,
    gathered: &mut Gathered,
    index: usize,
    event: Event,
) -> Result<(), RowError>
    requires few { length gathered.old.rows.items ≤ 400 }
    requires low { gathered.old.line ≤ 65535 }
    ensures told { OnOk result (IsRowTold scope.now.size scope.now.only scope.now.columns.now index machine.old event machine.new gathered.old gathered.new) }
    ensures count { OnOk result (length gathered.new.rows.items ≤ 400) }
    ensures low { OnOk result (gathered.new.line ≤ 65535) }
    ensures full { IfErr result (λ why. why ≡ error.TooManyRows → AreTooMany (length gathered.old.rows.items) gathered.old.line (rows.rows_at scope.now.size scope.now.only scope.now.columns.now gathered.old.line index machine.old event)) }
{
    changes_are_counted();
    let before = stood_before(machine, event);
    let outcome = match machine.apply(event) {
        Ok(outcome) => outcome,
        Err(_) => return Err(RowError::NoMemory),
    };
    if machine.views().changes() == before.lengths.changes {
        return Ok(());
    }
    let report = Report::behind(
        &before.lengths,
        before.action,
        machine,
        index,
        event,
        outcome,
    );
    if is_shown(scope, before.address, report.log) {
        let row = row_of(alloc, scope, &before, machine, gathered.line, &report)?;
        gathered.add(row)
    } else {
        Ok(())
    }
}

fn rows_of(
    alloc: Global,
    scope: &Scope<'_>,
    image: Image,
    config: Config,
    events: &[Event],
) -> Result<Vec<Row>, RowError>
    ensures rows { IfOk result (λ list. map rows.told list.items ≡ rows.rows_of scope.now.size scope.now.only scope.now.columns.now 0 0 (opening image config) events.now) }
    ensures fits { IfOk result (λ list. AreTooMany 0 0 (map rows.told list.items) → ⊥) }
    ensures full { IfErr result (λ why. why ≡ error.TooManyRows → AreTooMany 0 0 (rows.rows_of scope.now.size scope.now.only scope.now.columns.now 0 0 (opening image config) events.now)) }
{
    let mut machine = match Machine::new(alloc, image, config) {
        Ok(machine) => machine,
        Err(_) => return Err(RowError::NoMemory),
    };
    let mut gathered = Gathered {
        rows: Vec::new(alloc),
        line: 0,
    };
    let mut index = 0;
    let mut rest = events;
    while let [event, tail @ ..] = rest {
        tell(alloc, scope, &mut machine, &mut gathered, index, *event)?;
        index += 1;
        rest = tail;
    }
    let Gathered { rows, line: _ } = gathered;
    Ok(rows)
}

/// The line of memory that is asked for, by an address in it.
fn only_of(size: LineSize, address: Option<u32>) -> Option<u32>
    ensures { result ≡ only_of size address }
{
    match address {
        Some(address) => Some(size.line_of(address)),
        None => None,
    }
}

/// What happens in a run: a row for each event that changes the machine; where an address is given, only for
/// those that are about the line of memory around it, with its messages alone. A row too many is refused at once,
/// however many events are behind it.
#[tactic(auto, using(crate::proofs::Limits::longer))]
pub fn gather(
    alloc: Global,
    image: Image,
    config: Config,
    events: &[Event],
    address: Option<u32>,
) -> Result<Story, ChartError>
    ensures told { IfOk result (IsStory image config events.now address) }
    ensures untold { IfErr result (IsUntold image config events.now address) }
{
    let size = config.line;
    let only = only_of(size, address);
    let count = events_enough(alloc, size, only, image.try_copy(alloc)?, config, events)?;
    if count < events.len()
        && is_overfull(
            alloc,
            image.try_copy(alloc)?,
            config,
            &events[..count],
            address,
        )
    {
        return Err(ChartError::TooManyRows);
    }
    gather_all(alloc, image, config, events, address)
}

/// Whether the picture of these events would be too large; also not, where that can't be told.
fn is_overfull(
    alloc: Global,
    image: Image,
    config: Config,
    events: &[Event],
    address: Option<u32>,
) -> bool
    ensures { IsTrue result → IsOverfull image config events.now address }
{
    match gather_all(alloc, image, config, events, address) {
        Err(ChartError::TooManyRows) => true,
        _ => false,
    }
}

/// What happens in a run, once all of its events were replayed.
fn gather_all(
    alloc: Global,
    image: Image,
    config: Config,
    events: &[Event],
    address: Option<u32>,
) -> Result<Story, ChartError>
    ensures told { IfOk result (IsStory image config events.now address) }
    ensures untold { IfErr result (IsUntold image config events.now address) }
{
    let machine = replay(alloc, image, config, events)?;
    let size = config.line;
    let only = only_of(size, address);
    let columns = lines_of(alloc, only, machine.trace().log())?;
    let harts = machine.trace().harts() as u8;
    let image = machine.trace().image().try_copy(alloc)?;
    let scope = Scope {
        size,
        only,
        columns: columns.as_slice(),
    };
    let rows = rows_of(alloc, &scope, image, config, events)?;
    Ok(Story {
        harts,
        size,
        columns,
        rows,
    })
}
