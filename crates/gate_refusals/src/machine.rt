//! A case's events applied one by one, and replayed as one list. A call that wants memory is made again.

use crate::case::Case;
use crate::shown::{Pages, show_machine};
use anyhow::{Result, bail, ensure};
use coherent_machine::{ApplyError, Machine, ReplayError, replay};
use hart::Status;
use hart_ends::put_end;
use machine_types::{Event, Outcome};
use std::alloc::Global;
use std::io::{self, Write};
use std::str::from_utf8;
use trace_text::write_trace;

/// A machine at reset.
pub fn at_reset<R: Eprint + AllocGlobal>(rt: &R, case: &Case) -> Result<Machine> {
    let image = case.image(rt.alloc())?;
    match Machine::new(rt.alloc(), image, case.config) {
        Ok(machine) => return Ok(machine),
        Err(_) => eprintln!(rt; "a machine at reset wants memory")?,
    }
    Ok(Machine::new(rt.alloc(), case.image(rt.alloc())?, case.config)?)
}

/// Applies an event; one that wants memory is to leave all that the machine shows as it was.
pub fn apply<R: Eprint>(
    rt: &R,
    machine: &mut Machine,
    event: Event,
    pages: &mut Pages,
) -> Result<Outcome> {
    show_machine(&mut pages.before, machine)?;
    match machine.apply(event) {
        Err(ApplyError::NoMemory) => eprintln!(rt; "{event:?} wants memory")?,
        answer => return Ok(answer?),
    }
    show_machine(&mut pages.after, machine)?;
    pages.are_unchanged("an event")?;
    Ok(machine.apply(event)?)
}

/// Whether an outcome is spelt as its kept line.
pub fn is_as_kept(outcome: Outcome, kept: &str, page: &mut Vec<u8>) -> io::Result<bool> {
    page.clear();
    match outcome {
        Outcome::Missed(line) => write!(page, "Missed(0x{line:08x})")?,
        other => write!(page, "{other:?}")?,
    }
    Ok(page.as_slice() == kept.as_bytes())
}

/// Compares each event's outcome.
fn apply_all<R: Eprint>(
    rt: &R,
    case: &Case,
    machine: &mut Machine,
    pages: &mut Pages,
) -> Result<()> {
    let events = case.script.events.as_slice();
    let outcomes = from_utf8(&case.kept.outcomes)?;
    ensure!(
        events.len() == outcomes.lines().count(),
        "an outcome is missing"
    );
    for (event, kept) in events.iter().zip(outcomes.lines()) {
        let outcome = apply(rt, machine, *event, pages)?;
        ensure!(
            is_as_kept(outcome, kept, &mut pages.after)?,
            "{event:?}: {outcome:?} for {kept}"
        );
    }
    Ok(())
}

/// Compares each event's outcome, and what the machine gave at the end.
pub fn play_events<R: Eprint + AllocGlobal>(rt: &R, case: &Case, pages: &mut Pages) -> Result<()> {
    let mut machine = at_reset(rt, case)?;
    apply_all(rt, case, &mut machine, pages)?;
    compare_ends(case, machine, &mut pages.after)
}

/// Compares what a replay gave. A want of memory names the event that met it.
pub fn replay_events<R: Eprint + AllocGlobal>(
    rt: &R,
    case: &Case,
    pages: &mut Pages,
) -> Result<()> {
    match replay_on(rt.alloc(), case)? {
        Ok(machine) => return compare_ends(case, machine, &mut pages.after),
        Err(error) => tell_want(rt, case.script.events.as_slice().len(), error)?,
    }
    match replay_on(rt.alloc(), case)? {
        Ok(machine) => compare_ends(case, machine, &mut pages.after),
        Err(error) => bail!("replay, once more: {error:?}"),
    }
}

fn replay_on(alloc: Global, case: &Case) -> Result<Result<Machine, ReplayError>> {
    let image = case.image(alloc)?;
    Ok(replay(alloc, image, case.config, case.script.events.as_slice()))
}

/// Tells that a replay of so many events wants memory; any other error is a failure.
fn tell_want<R: Eprint>(rt: &R, events: usize, error: ReplayError) -> Result<()> {
    match error {
        ReplayError::NoMemory => eprintln!(rt; "replay: a machine at reset wants memory")?,
        ReplayError::Event(index, ApplyError::NoMemory) if index < events => {
            eprintln!(rt; "replay: event {index} wants memory")?;
        }
        error => bail!("replay: {error:?}"),
    }
    Ok(())
}

/// Compares the trace and the harts' ends with the kept ones.
pub fn compare_ends(case: &Case, machine: Machine, page: &mut Vec<u8>) -> Result<()> {
    let (trace, outputs) = machine.into_parts();
    page.clear();
    write_trace(&trace, page)?;
    ensure!(
        page.as_slice() == case.kept.trace.as_slice(),
        "the trace differs"
    );
    write_ends(page, trace.statuses(), &outputs)?;
    ensure!(
        page.as_slice() == case.kept.ends.as_slice(),
        "the ends differ"
    );
    Ok(())
}

fn write_ends(page: &mut Vec<u8>, statuses: &[Status], outputs: &[Vec<u32>]) -> io::Result<()> {
    page.clear();
    for (hart, (status, output)) in statuses.iter().zip(outputs).enumerate() {
        put_end(hart, *status, output, page)?;
        writeln!(page)?;
    }
    Ok(())
}
