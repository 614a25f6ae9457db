//! The lines.
ghost use Rattle.std.specs.Prelude.{◌≡◌, ◌++◌, IfOk, OnOk, decimal, length};
ghost use Rattle.architecture_outcomes.specs.Outcomes.{end_of};
ghost use Rattle.architecture_outcomes.specs.Text as text;
ghost use Rattle.exploration_text.specs.Words.{end_text};

use crate::architecture::Architecture;
use crate::failing::Failing;
use crate::outcome::{Outcome, Way};
use elf_symbols::Symbols;
use exploration_text::explorer::Realisation;
use exploration_text::explorer::flat_exploration::Failure;
use exploration_text::{WordName, end_text, spell_failure_count, stopped_text};
use itoa::Buffer;
use machine_types::MemoryModel;
use state_search::{Ending, Extent};
use std::alloc::{AllocError, Global};
use text_fields::word_text;
use window_search::window_machine::LONGEST_ROW;
use window_search::{Place, Reach};

fn spell_number(into: &mut Vec<u8>, number: u64) -> Result<(), AllocError>
    ensures { OnOk result (into.new.items ≡ into.old.items ++ decimal number) }
{
    let mut digits = Buffer::new();
    into.extend_from_slice(digits.format(number).as_bytes())?;
    Ok(())
}

fn spell_end(
    alloc: Global,
    into: &mut Vec<u8>,
    names: &[WordName<'_>],
    outcome: &Outcome,
) -> Result<(), AllocError>
    ensures { OnOk result (into.new.items ≡ into.old.items ++ end_text names.now (end_of outcome.now)) }
{
    let line = end_text(alloc, names, &outcome.harts, &outcome.words)?;
    into.extend_from_slice(&line)?;
    Ok(())
}

fn spell_model(into: &mut Vec<u8>, model: MemoryModel) -> Result<(), AllocError>
    ensures { OnOk result (into.new.items ≡ into.old.items ++ text.model_text model) }
{
    match model {
        MemoryModel::Rvwmo => into.extend_from_slice(b"RVWMO")?,
        MemoryModel::Ztso => into.extend_from_slice(b"Ztso")?,
    }
    Ok(())
}

fn spell_way(into: &mut Vec<u8>, model: MemoryModel, way: &Way) -> Result<(), AllocError>
    ensures { OnOk result (into.new.items ≡ into.old.items ++ text.way_text model way.now) }
{
    match way {
        Way::Machine(Realisation::Events(_)) => into.extend_from_slice(b"this machine")?,
        Way::Machine(Realisation::NoMemory | Realisation::Limit | Realisation::Unrealised) => {
            into.extend_from_slice(b"without a script")?;
        }
        Way::ModelAlone(_) => {
            spell_model(into, model)?;
            into.extend_from_slice(b" alone")?;
        }
        Way::Model(_) => spell_model(into, model)?,
    }
    Ok(())
}

fn spell_outcome(
    alloc: Global,
    into: &mut Vec<u8>,
    model: MemoryModel,
    names: &[WordName<'_>],
    number: usize,
    outcome: &Outcome,
) -> Result<(), AllocError>
    ensures { OnOk result (into.new.items ≡ into.old.items ++ text.outcome_line model names.now number outcome.now) }
{
    spell_number(into, number as u64)?;
    spell_end(alloc, into, names, outcome)?;
    into.extend_from_slice(b"   ")?;
    spell_way(into, model, &outcome.way)?;
    into.extend_from_slice(b"\n")?;
    Ok(())
}

fn spell_outcomes(
    alloc: Global,
    into: &mut Vec<u8>,
    model: MemoryModel,
    names: &[WordName<'_>],
    outcomes: &[Outcome],
) -> Result<(), AllocError>
    ensures { OnOk result (into.new.items ≡ into.old.items ++ text.outcome_lines model names.now 1 outcomes.now) }
{
    let mut rest = outcomes;
    let mut number = 1;
    while let [first, tail @ ..] = rest {
        spell_outcome(alloc, into, model, names, number, first)?;
        rest = tail;
        number += 1;
    }
    Ok(())
}

fn spell_stop_place(
    alloc: Global,
    into: &mut Vec<u8>,
    symbols: &Symbols,
    number: usize,
    failing: &Failing,
) -> Result<(), AllocError>
    ensures { OnOk result (into.new.items ≡ into.old.items ++ text.stop_place symbols.now number failing.now) }
{
    into.extend_from_slice(b"failure ")?;
    spell_number(into, number as u64)?;
    into.extend_from_slice(b"  ")?;
    let Failure { hart, stop } = failing.failure;
    let place = stopped_text(alloc, symbols, hart, stop)?;
    into.extend_from_slice(&place)?;
    Ok(())
}

fn spell_stop(
    alloc: Global,
    into: &mut Vec<u8>,
    model: MemoryModel,
    symbols: &Symbols,
    number: usize,
    failing: &Failing,
) -> Result<(), AllocError>
    ensures { OnOk result (into.new.items ≡ into.old.items ++ text.stop_line model symbols.now number failing.now) }
{
    spell_stop_place(alloc, into, symbols, number, failing)?;
    into.extend_from_slice(b"   ")?;
    spell_way(into, model, &failing.way)?;
    into.extend_from_slice(b"\n")?;
    Ok(())
}

fn spell_stops(
    alloc: Global,
    into: &mut Vec<u8>,
    model: MemoryModel,
    symbols: &Symbols,
    failings: &[Failing],
) -> Result<(), AllocError>
    ensures { OnOk result (into.new.items ≡ into.old.items ++ text.stop_lines model symbols.now 1 failings.now) }
{
    let mut rest = failings;
    let mut number = 1;
    while let [first, tail @ ..] = rest {
        spell_stop(alloc, into, model, symbols, number, first)?;
        rest = tail;
        number += 1;
    }
    Ok(())
}

fn spell_rows(into: &mut Vec<u8>, longest: u32) -> Result<(), AllocError>
    ensures { OnOk result (into.new.items ≡ into.old.items ++ text.rows_text longest) }
{
    into.extend_from_slice(b", rows over ")?;
    spell_number(into, u64::from(longest))?;
    into.extend_from_slice(b" instructions without an access left out")?;
    Ok(())
}

/// Where a bound was met.
fn spell_place(into: &mut Vec<u8>, place: Place) -> Result<(), AllocError>
    ensures { OnOk result (into.new.items ≡ into.old.items ++ text.place_text place) }
{
    into.extend_from_slice(b" (hart ")?;
    spell_number(into, u64::from(place.hart))?;
    into.extend_from_slice(b" at ")?;
    into.extend_from_slice(&word_text(place.pc))?;
    into.extend_from_slice(b")")?;
    Ok(())
}

/// What a bound left out that was met there.
fn spell_bound(into: &mut Vec<u8>, bound: &[u8], place: Place) -> Result<(), AllocError>
    ensures { OnOk result (into.new.items ≡ into.old.items ++ (bound.now ++ text.place_text place)) }
{
    into.extend_from_slice(bound)?;
    spell_place(into, place)
}

fn spell_window(into: &mut Vec<u8>, window: u32) -> Result<(), AllocError>
    ensures { OnOk result (into.new.items ≡ into.old.items ++ text.window_text window) }
{
    into.extend_from_slice(b", windows over ")?;
    spell_number(into, u64::from(window))?;
    into.extend_from_slice(b" left out")?;
    Ok(())
}

fn spell_reach(into: &mut Vec<u8>, reach: Reach, window: u32) -> Result<(), AllocError>
    ensures { OnOk result (into.new.items ≡ into.old.items ++ text.reach_text reach window) }
{
    match reach {
        Reach::Whole => {}
        Reach::Unjudged => {
            into.extend_from_slice(
                b", some outcomes or failures left out, as runs of over 4096 operations aren't judged",
            )?;
        }
        Reach::Unclosed => {
            into.extend_from_slice(b", a last pass over the states found more")?;
        }
        Reach::WindowMet(place) => {
            spell_window(into, window)?;
            spell_place(into, place)?;
        }
        Reach::ValuesMet(place) => {
            spell_bound(into, b", values of a load over 256 left out", place)?;
        }
        Reach::WaysMet(place) => {
            spell_bound(into, b", ways of fetching on over 1000 left out", place)?;
        }
        Reach::CallMet(place) => {
            let bound = b", what a call by a loaded number allows may be left out";
            spell_bound(into, bound, place)?;
        }
        Reach::RowMet(place) => {
            spell_rows(into, LONGEST_ROW)?;
            spell_place(into, place)?;
        }
        Reach::LimitMet => into.extend_from_slice(b", limit of states met")?,
        Reach::Ended(_) => {}
        Reach::OutOfMemory => into.extend_from_slice(b", out of memory")?,
    }
    Ok(())
}

fn spell_machine(into: &mut Vec<u8>, extent: Extent, states: usize) -> Result<(), AllocError>
    ensures { OnOk result (into.new.items ≡ into.old.items ++ text.machine_text extent states) }
{
    match extent {
        Extent::Complete => {}
        Extent::LimitMet => {
            into.extend_from_slice(b", this machine incomplete: ")?;
            spell_number(into, states as u64)?;
            into.extend_from_slice(b" states met")?;
        }
        Extent::Ended(_) => into.extend_from_slice(b", this machine incomplete: ended")?,
        Extent::OutOfMemory => {
            into.extend_from_slice(b", this machine incomplete: out of memory")?;
        }
    }
    Ok(())
}

fn spell_counts(
    into: &mut Vec<u8>,
    outcomes: usize,
    failures: usize,
    states: usize,
) -> Result<(), AllocError>
    ensures { OnOk result (into.new.items ≡ into.old.items ++ text.count_text outcomes failures states) }
{
    spell_number(into, outcomes as u64)?;
    into.extend_from_slice(b" outcomes, ")?;
    spell_failure_count(into, failures)?;
    spell_number(into, states as u64)?;
    into.extend_from_slice(b" states")?;
    Ok(())
}

fn spell_whole(into: &mut Vec<u8>, found: &Architecture) -> Result<(), AllocError>
    ensures { OnOk result (into.new.items ≡ into.old.items ++ text.whole_line (length found.now.outcomes.items) (length found.now.failures.items) found.now.states) }
{
    into.extend_from_slice(b"complete: ")?;
    spell_counts(
        into,
        found.outcomes.len(),
        found.failures.len(),
        found.states,
    )?;
    into.extend_from_slice(b"\n")?;
    Ok(())
}

fn spell_ended(into: &mut Vec<u8>, ending: Ending) -> Result<(), AllocError>
    ensures { OnOk result (into.new.items ≡ into.old.items ++ text.ended_text ending) }
{
    match ending {
        Ending::First => into.extend_from_slice(b"incomplete: ended at the first, ")?,
        Ending::Time => into.extend_from_slice(b"incomplete: ended by --seconds, ")?,
    }
    Ok(())
}

/// How the last line begins: why the search was ended, if it was.
fn spell_ending(into: &mut Vec<u8>, reach: Reach) -> Result<(), AllocError>
    ensures { OnOk result (into.new.items ≡ into.old.items ++ text.ending_before reach) }
{
    match reach {
        Reach::Ended(ending) => spell_ended(into, ending)?,
        _ => into.extend_from_slice(b"incomplete: ")?,
    }
    Ok(())
}

fn spell_partial(into: &mut Vec<u8>, found: &Architecture) -> Result<(), AllocError>
    ensures { OnOk result (into.new.items ≡ into.old.items ++ text.partial_line found.now) }
{
    spell_ending(into, found.reach)?;
    spell_counts(
        into,
        found.outcomes.len(),
        found.failures.len(),
        found.states,
    )?;
    spell_reach(into, found.reach, found.window)?;
    spell_machine(into, found.machine, found.machine_states)?;
    into.extend_from_slice(b"\n")?;
    Ok(())
}

fn spell_last(into: &mut Vec<u8>, found: &Architecture) -> Result<(), AllocError>
    ensures { OnOk result (into.new.items ≡ into.old.items ++ text.last_line found.now) }
{
    match (found.reach, found.machine) {
        (Reach::Whole, Extent::Complete) => spell_whole(into, found),
        _ => spell_partial(into, found),
    }
}

/// A line for each outcome, in order and counted from 1, with the words by these names, and who comes to it; one for each
/// hart that stops, its place by the names of these symbols, and who stops it; and one that says how far the searches came.
pub fn text_of(
    alloc: Global,
    names: &[WordName<'_>],
    symbols: &Symbols,
    found: &Architecture,
) -> Result<Vec<u8>, AllocError>
    ensures { IfOk result (λ bytes. bytes.items ≡ text.architecture_text names.now symbols.now found.now) }
{
    let mut bytes = Vec::new(alloc);
    spell_outcomes(alloc, &mut bytes, found.model, names, &found.outcomes)?;
    spell_stops(alloc, &mut bytes, found.model, symbols, &found.failures)?;
    spell_last(&mut bytes, found)?;
    Ok(bytes)
}
