//! A case's events applied to a fabric, each by the worker of its hart, and what hart 0 runs by itself
//! committed to one. A call that wants memory is to leave machine, journal and shares as they were, and is
//! made again.

ghost use Rattle.std.specs.Prelude.{◌≡◌, length, IfOk, IfSome};

use crate::case::Case;
use crate::machine::{compare_ends, is_as_kept};
use crate::shown::{Pages, show_fabric, show_machine};
use anyhow::{Result, ensure};
use coherent_machine::{AdoptError, ApplyError, Machine};
use hart::Batch;
use locked_fabric::{Fabric, Share};
use machine_types::{Config, Event, Outcome};
use std::marker::Brand;
use std::str::from_utf8;
use std::sync::ledger::{Blank, Ledger};

/// Plays the case's events on a fabric, or commits a batch of hart 0 to one.
pub fn play_fabric<R: Eprint + AllocGlobal>(
    rt: &R,
    case: &Case,
    batch: Option<&Batch>,
    pages: &mut Pages,
) -> Result<()> {
    let config = case.config;
    let harts = u64::from(config.harts);
    if !play_on::<Brand, R>(rt, case, config, Blank::new(harts), batch, pages)? {
        let is_played = play_on::<Brand, R>(rt, case, config, Blank::new(harts), batch, pages)?;
        ensure!(is_played, "a fabric wants memory once more");
    }
    Ok(())
}

/// Plays on a fabric of this ledger; false where the fabric at reset wants memory.
fn play_on<L: Ledger, R: Eprint + AllocGlobal>(
    rt: &R,
    case: &Case,
    config: Config,
    blank: Blank,
    batch: Option<&Batch>,
    pages: &mut Pages,
) -> Result<bool>
    requires name { blank.name ≡ L.name }
    requires parts { blank.parts ≡ L.parts }
    requires harts { blank.parts ≡ config.harts }
{
    let Some(made) = at_reset::<L, R>(rt, case, config, blank)? else {
        return Ok(false);
    };
    let (mut fabric, mut shares) = made;
    match batch {
        None => apply_all(rt, case, &mut fabric, &mut shares, pages)?,
        Some(batch) => commit_twice(rt, batch, &mut fabric, &mut shares, pages)?,
    }
    let machine = end_of(fabric, shares)?;
    if batch.is_none() {
        compare_ends(case, machine, &mut pages.after)?;
    }
    Ok(true)
}

/// The machine of a fabric, whose shares have come back and count as they should.
fn end_of<L: Ledger>(fabric: Fabric<L>, shares: Vec<Share<L>>) -> Result<Machine>
    requires { length shares.items ≡ L.parts }
{
    let harts = fabric.machine().views().config().harts;
    ensure!(
        shares.len() == harts as usize,
        "there is not one share a hart"
    );
    let (machine, journal, counts) = fabric.into_parts(shares);
    ensure!(are_counted(&journal, &counts), "a share counts wrongly");
    Ok(machine)
}

/// A fabric at reset, and the share of each hart's worker; none where it wants memory.
fn at_reset<L: Ledger, R: Eprint + AllocGlobal>(
    rt: &R,
    case: &Case,
    config: Config,
    blank: Blank,
) -> Result<Option<(Fabric<L>, Vec<Share<L>>)>>
    requires name { blank.name ≡ L.name }
    requires parts { blank.parts ≡ L.parts }
    requires harts { blank.parts ≡ config.harts }
    ensures all { IfOk result (λ made. IfSome made (λ both. length both.1.items ≡ L.parts)) }
{
    let image = case.image(rt.alloc())?;
    match Fabric::<L>::new(rt.alloc(), blank, image, config) {
        Ok(made) => Ok(Some(made)),
        Err(_) => {
            eprintln!(rt; "a fabric at reset wants memory")?;
            Ok(None)
        }
    }
}

/// The worker of an event's hart.
fn worker_of(event: Event) -> usize {
    let (Event::Step { hart }
    | Event::Drain { hart, .. }
    | Event::Evict { hart, .. }
    | Event::Deliver { hart, .. }
    | Event::Local { hart, .. }) = event;
    usize::from(hart)
}

/// Whether an event with this outcome changes the machine.
fn is_change(outcome: Outcome) -> bool {
    matches!(
        outcome,
        Outcome::Retired
            | Outcome::Stopped(_)
            | Outcome::Exited(_)
            | Outcome::Drained
            | Outcome::Delivered
            | Outcome::Evicted
            | Outcome::Missed(_)
    )
}

/// Compares each event's outcome, and what is journalled.
fn apply_all<L: Ledger, R: Eprint>(
    rt: &R,
    case: &Case,
    fabric: &mut Fabric<L>,
    shares: &mut Vec<Share<L>>,
    pages: &mut Pages,
) -> Result<()>
    ensures shares { length shares.new.items ≡ length shares.old.items }
{
    let events = case.script.events.as_slice();
    let outcomes = from_utf8(&case.kept.outcomes)?;
    for (event, kept) in events.iter().zip(outcomes.lines()) {
        let length = fabric.journal().len();
        let outcome = apply(rt, *event, fabric, shares, pages)?;
        ensure!(
            is_as_kept(outcome, kept, &mut pages.after)?,
            "a fabric: {event:?}: {outcome:?} for {kept}"
        );
        ensure!(
            is_journalled(fabric.journal(), length, *event, outcome),
            "a fabric journals another event than {event:?}, {outcome:?}"
        );
    }
    Ok(())
}

/// Whether just an event that changes the machine stands in the journal from this place on.
fn is_journalled(journal: &[Event], place: usize, event: Event, outcome: Outcome) -> bool {
    let own = [event];
    let journalled: &[Event] = if is_change(outcome) { &own } else { &[] };
    journal.get(place..) == Some(journalled)
}

/// Applies an event by its hart's worker.
fn apply<L: Ledger, R: Eprint>(
    rt: &R,
    event: Event,
    fabric: &mut Fabric<L>,
    shares: &mut Vec<Share<L>>,
    pages: &mut Pages,
) -> Result<Outcome>
    ensures shares { length shares.new.items ≡ length shares.old.items }
{
    let worker = worker_of(event);
    ensure!(worker < shares.len(), "no worker");
    show_fabric(&mut pages.before, fabric, shares)?;
    match fabric.apply(event, &mut shares[worker]) {
        Err(ApplyError::NoMemory) => eprintln!(rt; "a fabric: {event:?} wants memory")?,
        answer => return Ok(answer?),
    }
    show_fabric(&mut pages.after, fabric, shares)?;
    pages.are_unchanged("an event of a fabric")?;
    Ok(fabric.apply(event, &mut shares[worker])?)
}

/// Commits a batch by its hart's worker.
fn commit<L: Ledger, R: Eprint>(
    rt: &R,
    batch: &Batch,
    fabric: &mut Fabric<L>,
    shares: &mut Vec<Share<L>>,
    pages: &mut Pages,
) -> Result<Result<Outcome, AdoptError>>
    ensures shares { length shares.new.items ≡ length shares.old.items }
{
    let worker = usize::from(batch.first().id);
    ensure!(worker < shares.len(), "no worker");
    show_fabric(&mut pages.before, fabric, shares)?;
    match fabric.commit(batch, &mut shares[worker]) {
        Err(AdoptError::NoMemory) => eprintln!(rt; "a fabric: a batch wants memory")?,
        answer => return Ok(answer),
    }
    show_fabric(&mut pages.after, fabric, shares)?;
    pages.are_unchanged("a batch of a fabric")?;
    Ok(fabric.commit(batch, &mut shares[worker]))
}

/// Commits a batch of hart 0, and once more where it is stale. The fabric is to show what is expected, and to journal
/// the event `Local`.
fn commit_twice<L: Ledger, R: Eprint>(
    rt: &R,
    batch: &Batch,
    fabric: &mut Fabric<L>,
    shares: &mut Vec<Share<L>>,
    pages: &mut Pages,
) -> Result<()>
    ensures shares { length shares.new.items ≡ length shares.old.items }
{
    let first = commit(rt, batch, fabric, shares, pages)?;
    ensure!(first == Ok(Outcome::Retired), "a batch isn't committed");
    is_local(fabric.journal(), batch)?;
    let second = commit(rt, batch, fabric, shares, pages)?;
    ensure!(
        second == Err(AdoptError::Stale),
        "a batch is committed again"
    );
    is_local(fabric.journal(), batch)?;
    show_machine(&mut pages.after, fabric.machine())?;
    pages.are_expected("a fabric")
}

/// The journal has the event `Local` of the batch's instructions alone.
fn is_local(journal: &[Event], batch: &Batch) -> Result<()> {
    let count = u32::try_from(batch.entries().len())?;
    let local = [Event::Local { hart: 0, count }];
    ensure!(
        journal == local.as_slice(),
        "a batch is journalled as another event or twice"
    );
    Ok(())
}

/// Whether each share counts the events of its worker.
fn are_counted(journal: &[Event], counts: &[u64]) -> bool {
    for (worker, count) in counts.iter().enumerate() {
        let mut own = 0_u64;
        for event in journal {
            if worker_of(*event) == worker {
                own = own.saturating_add(1);
            }
        }
        if own != *count {
            return false;
        }
    }
    true
}
