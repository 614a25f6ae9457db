//! How much of a run a picture has room for.
ghost use Rattle.std.specs.Prelude.{◌≤◌, IfOk, length};

use crate::before::stood_before;
use crate::row::{MOST_ROWS, Scope, is_shown};
use elf_loader::Image;
use event_stream::Report;
use event_stream::coherent_machine::Machine;
use machine_types::{Config, Event};
use std::alloc::{AllocError, Global};
use tl_types::LineSize;

/// How many of the events, played from reset, it takes until they have a row more than a picture; all of them, where
/// they never have, or one is refused before. What it answers decides only how soon a picture is refused.
pub(crate) fn events_enough(
    alloc: Global,
    size: LineSize,
    only: Option<u32>,
    image: Image,
    config: Config,
    events: &[Event],
) -> Result<usize, AllocError>
    ensures { IfOk result (λ count. count ≤ length events.now) }
{
    let scope = Scope {
        size,
        only,
        columns: &[],
    };
    let mut machine = Machine::new(alloc, image, config)?;
    let mut rows: usize = 0;
    let mut count = 0;
    let mut rest = events;
    while let [event, tail @ ..] = rest {
        count += 1;
        if has_row(&scope, &mut machine, *event) {
            rows = rows.saturating_add(1);
        }
        if rows > MOST_ROWS {
            return Ok(count);
        }
        rest = tail;
    }
    Ok(count)
}

/// Applies an event. Whether it changes the machine and is drawn.
fn has_row(scope: &Scope<'_>, machine: &mut Machine, event: Event) -> bool {
    let before = stood_before(machine, event);
    let Ok(outcome) = machine.apply(event) else {
        return false;
    };
    if machine.views().changes() == before.lengths.changes {
        return false;
    }
    let report = Report::behind(&before.lengths, before.action, machine, 0, event, outcome);
    is_shown(scope, before.address, report.log)
}
