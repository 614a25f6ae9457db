//! Scripts played with the plain flat machine beside the machine.

use super::case::Case;
use crate::lockstep::{Counts, Failures, Lockstep};
use anyhow::{Result, bail, ensure};
use gate_plain_machine::Variant;
use machine_types::Event;
use std::alloc::Global;
use std::io::Write;
use std::rt::Files;
use trace_text::Script;

/// Wrong flat meanings, by the names of the scripts that refute them. In these scripts no line moves but on
/// demand, so an SC may be asked to succeed exactly where the flat machine's reservation stands.
static WRONG: [(&str, Variant); 5] = [
    ("refuted/only-writes-end", Variant::OnlyWritesEnd),
    ("refuted/no-rivals", Variant::NoRivals),
    ("refuted/asks-buffer-first", Variant::AsksBufferFirst),
    ("refuted/drains-end-nothing", Variant::DrainsEndNothing),
    (
        "refuted/buffered-loads-access",
        Variant::BufferedLoadsAccess,
    ),
];

/// The flat machine shows each event of a case. Counts what happened.
pub fn show(alloc: Global, name: &str, case: &Case, counts: &mut Counts) -> Result<()> {
    match play_beside(alloc, case, Variant::Right, Failures::Follow, counts)? {
        Some((difference, event)) => {
            bail!("{name}: flat machine: {difference} behind event {event}")
        }
        None => Ok(()),
    }
}

/// Refutes each wrong variant, and says by what.
pub fn refute_all<R: Files + AllocGlobal, W: Write>(rt: &R, out: &mut W) -> Result<()> {
    let mut case = Case::blank(rt.alloc());
    for (name, variant) in &WRONG {
        refute(rt, name, *variant, &mut case, out)?;
    }
    Ok(())
}

fn refute<R: Files + AllocGlobal, W: Write>(
    rt: &R,
    name: &str,
    variant: Variant,
    case: &mut Case,
    out: &mut W,
) -> Result<()> {
    case.load(rt, name)?;
    let (difference, event) = refuted(rt.alloc(), name, case, variant)?;
    writeln!(out, "flat, {name}: {difference} behind event {event}")?;
    Ok(())
}

/// The flat machine shows each event of the wrong variant's script, and the wrong variant doesn't: its first
/// difference, and behind which event it is.
fn refuted(
    alloc: Global,
    name: &str,
    case: &Case,
    variant: Variant,
) -> Result<(&'static str, u64)> {
    let mut counts = Counts::nothing();
    let right = play_beside(alloc, case, Variant::Right, Failures::Decide, &mut counts)?;
    ensure!(right.is_none(), "{name}: the flat machine differs");
    match play_beside(alloc, case, variant, Failures::Decide, &mut counts)? {
        Some(difference) => Ok(difference),
        None => bail!("{name}: the wrong variant isn't refuted"),
    }
}

/// Plays a case, counts what happened, and gives the first difference and behind which event it is, counted
/// from 1.
fn play_beside(
    alloc: Global,
    case: &Case,
    variant: Variant,
    failures: Failures,
    counts: &mut Counts,
) -> Result<Option<(&'static str, u64)>> {
    let script = case.read_script(alloc)?;
    let mut lockstep = at_reset(alloc, case, &script, variant, failures)?;
    play_events(&mut lockstep, script.events.as_slice(), counts)
}

fn at_reset(
    alloc: Global,
    case: &Case,
    script: &Script,
    variant: Variant,
    failures: Failures,
) -> Result<Lockstep> {
    let (image, config) = case.opening(alloc, script)?;
    Lockstep::at_reset(alloc, image, config, variant, failures)
}

fn play_events(
    lockstep: &mut Lockstep,
    events: &[Event],
    counts: &mut Counts,
) -> Result<Option<(&'static str, u64)>> {
    let difference = first_difference(lockstep, events)?;
    counts.add(&lockstep.counts);
    Ok(match difference {
        Some(difference) => Some((difference, lockstep.counts.events)),
        None => None,
    })
}

fn first_difference(lockstep: &mut Lockstep, events: &[Event]) -> Result<Option<&'static str>> {
    for event in events {
        if let Some(difference) = lockstep.apply(*event)? {
            return Ok(Some(difference));
        }
    }
    Ok(lockstep.compares_all())
}
