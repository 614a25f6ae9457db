//! What a hart runs by itself, applied as an event, adopted by a machine and committed to a fabric as a batch.

use crate::case::Case;
use crate::fabric::play_fabric;
use crate::machine::{apply, at_reset};
use crate::shown::{Pages, show_machine};
use anyhow::{Result, ensure};
use coherent_machine::{AdoptError, Machine};
use hart::{Batch, run_local};
use machine_types::{Event, Outcome};
use std::alloc::Global;

/// The most instructions of one batch.
const MOST: u32 = 256;

/// What hart 0 runs by itself from where it stands, once more where memory is refused at first.
fn batch_of(alloc: Global, machine: &Machine) -> Result<Batch> {
    let views = machine.views();
    ensure!(views.harts() != 0, "no hart");
    let image = machine.trace().image();
    let hart = views.hart(0);
    match run_local(alloc, image, hart, MOST) {
        Ok(batch) => Ok(batch),
        Err(_) => Ok(run_local(alloc, image, hart, MOST)?),
    }
}

/// Adopts a batch of hart 0; where memory is wanted, all that the machine shows is to be as it was.
fn adopt<R: Eprint>(
    rt: &R,
    machine: &mut Machine,
    batch: &Batch,
    pages: &mut Pages,
) -> Result<Outcome> {
    show_machine(&mut pages.before, machine)?;
    match machine.adopt(0, batch) {
        Err(AdoptError::NoMemory) => eprintln!(rt; "a batch wants memory")?,
        answer => return Ok(answer?),
    }
    show_machine(&mut pages.after, machine)?;
    pages.are_unchanged("a batch")?;
    Ok(machine.adopt(0, batch)?)
}

/// The machine adopts a batch of hart 0, is to show what is expected then, and not to adopt it again.
fn adopt_once<R: Eprint>(
    rt: &R,
    machine: &mut Machine,
    batch: &Batch,
    pages: &mut Pages,
) -> Result<()> {
    let outcome = adopt(rt, machine, batch, pages)?;
    ensure!(outcome == Outcome::Retired, "a batch isn't retired");
    let once_more = machine.adopt(0, batch);
    ensure!(
        once_more == Err(AdoptError::Stale),
        "a batch is adopted again"
    );
    show_machine(&mut pages.after, machine)?;
    pages.are_expected("a machine")
}

/// A machine adopts a batch of hart 0, and it is committed to a fabric.
fn play_batch<R: Eprint + AllocGlobal>(
    rt: &R,
    case: &Case,
    batch: &Batch,
    pages: &mut Pages,
) -> Result<()> {
    let mut machine = at_reset(rt, case)?;
    adopt_once(rt, &mut machine, batch, pages)?;
    play_fabric(rt, case, Some(batch), pages)
}

/// What hart 0 runs by itself from reset on.
fn first_batch<R: Eprint + AllocGlobal>(rt: &R, case: &Case) -> Result<Batch> {
    let machine = at_reset(rt, case)?;
    batch_of(rt.alloc(), &machine)
}

/// What a machine shows behind an event `Local` of so many instructions is expected of others.
fn expect_local<R: Eprint + AllocGlobal>(
    rt: &R,
    case: &Case,
    count: u32,
    pages: &mut Pages,
) -> Result<()> {
    let mut machine = at_reset(rt, case)?;
    let outcome = apply(rt, &mut machine, Event::Local { hart: 0, count }, pages)?;
    ensure!(outcome == Outcome::Retired, "an event isn't retired");
    show_machine(&mut pages.expected, &machine)?;
    Ok(())
}

/// How many instructions hart 0 begins with that it can run by itself. A machine that adopts them, and a fabric that
/// they are committed to, are to show what a machine shows behind the event `Local` of as many.
pub fn adopt_first<R: Eprint + AllocGlobal>(rt: &R, case: &Case, pages: &mut Pages) -> Result<u32> {
    let batch = first_batch(rt, case)?;
    let count = u32::try_from(batch.entries().len())?;
    expect_local(rt, case, count, pages)?;
    play_batch(rt, case, &batch, pages)?;
    Ok(count)
}
