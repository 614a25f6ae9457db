//! Applying events, and telling what each changed.
ghost use Rattle.std.specs.Prelude.{◌≡◌, ◌+◌, ◌<◌, ◌≤◌, ◌^◌, ◌++◌, OnOk, length};
ghost use Rattle.std.specs.List.{flat_map};
ghost use Rattle.machine_model.specs.Events.{happens};
ghost use Rattle.run_waves.specs.Telling as telling;
ghost use Rattle.run_waves.specs.Waves as waves;
ghost use Rattle.text_fields.specs.Pages.{HasLineRoom, Spells};

use crate::errors::TellError;
use crate::telling::put_all_changes;
use crate::watching::{Seen, keep_watched};
use coherent_machine::Machine;
use machine_types::Event;
use std::alloc::{AllocError, Global};
use std::io::{self, Write};
use text_fields::Page;

/// The line on which a time stands.
fn spell_time(page: &mut Page, time: u64)
    requires { HasLineRoom page.old }
    ensures { page.new ≡ page.old ++ telling.time_line time }
{
    page.text(b"#");
    page.number(time, b'\n');
}

fn put_time<W: Write>(page: &mut Page, out: &mut W, time: u64) -> io::Result<()>
    ensures { Spells (W.contents out.old) (W.contents out.new) page.old page.new (telling.time_line time) result }
{
    page.make_room(out)?;
    spell_time(page, time);
    Ok(())
}

/// A time, and what has changed of these parts.
fn put_event<W: Write>(
    page: &mut Page,
    out: &mut W,
    machine: &Machine,
    time: u64,
    seen: &[Seen],
) -> io::Result<()>
    ensures { Spells (W.contents out.old) (W.contents out.new) page.old page.new (telling.time_line time ++ flat_map (telling.changes_since machine.now) seen.now) result }
{
    put_time(page, out, time)?;
    put_all_changes(page, out, machine, seen)
}

/// Applies an event, and answers in `seen` the values that it may have changed, as they were.
fn step(machine: &mut Machine, event: Event, seen: &mut Vec<Seen>) -> Result<(), AllocError>
    ensures seen { OnOk result (seen.new.items ≡ telling.seen_before machine.old event) }
    ensures moved { OnOk result (machine.new ≡ happens machine.old event) }
{
    seen.clear();
    keep_watched(seen, machine, event)?;
    match machine.apply(event) {
        Ok(_) => Ok(()),
        Err(_) => Err(AllocError),
    }
}

/// Applies the event of this index, and tells what it changed.
fn tell_event<W: Write>(
    machine: &mut Machine,
    event: Event,
    index: usize,
    seen: &mut Vec<Seen>,
    page: &mut Page,
    out: &mut W,
) -> Result<(), TellError>
    requires { index + 2 < 2 ^ 64 }
    ensures told { Spells (W.contents out.old) (W.contents out.new) page.old page.new (telling.event_lines index machine.old event) result }
    ensures moved { OnOk result (machine.new ≡ happens machine.old event) }
{
    step(machine, event, seen)?;
    put_event(page, out, machine, index as u64 + 2, seen.as_slice())?;
    Ok(())
}

/// Applies the events in their order, and tells what each changed. They were replayed before, so that only memory can
/// be refused.
pub(crate) fn tell<W: Write>(
    alloc: Global,
    machine: &mut Machine,
    events: &[Event],
    page: &mut Page,
    out: &mut W,
) -> Result<(), TellError>
    ensures { Spells (W.contents out.old) (W.contents out.new) page.old page.new (waves.lines_from 0 machine.old events.now) result }
{
    let mut seen = Vec::new(alloc);
    let mut index = 0;
    let mut rest = events;
    while let [event, tail @ ..] = rest {
        tell_event(machine, *event, index, &mut seen, page, out)?;
        index += 1;
        rest = tail;
    }
    Ok(())
}
