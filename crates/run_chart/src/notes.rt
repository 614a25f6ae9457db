//! What a hart's core did in an event.
ghost use Rattle.std.specs.Prelude.{◌≡◌, ◌++◌, IfOk, OnOk, length, slice_get, map};
ghost use Rattle.std.specs.List.{flat_map};
ghost use Rattle.std.specs.Option.{option_to_list};
ghost use Rattle.run_chart.specs.declared.rows.Note.TheVariants as note;
ghost use Rattle.event_stream.specs.Telling.{report_of};
ghost use Rattle.run_chart.specs.Notes as notes;
ghost use Rattle.rv32_exec.specs.Actions.{addressed};
ghost use Rattle.trace_recorder.specs.History.{entries_of};

use crate::rows::Note;
use event_stream::Report;
use hart::Retired;
use machine_types::Outcome;
use rv32_exec::Action;
use std::alloc::{AllocError, Global};
use trace_recorder::{OpId, Trace};

/// One more note, if there is one.
fn add(list: &mut Vec<Note>, note: Option<Note>) -> Result<(), AllocError>
    ensures { OnOk result (list.new.items ≡ list.old.items ++ option_to_list note) }
{
    match note {
        Some(note) => {
            list.push(note)?;
            Ok(())
        }
        None => Ok(()),
    }
}

fn add_retired(list: &mut Vec<Note>, entries: &[Retired]) -> Result<(), AllocError>
    ensures { OnOk result (list.new.items ≡ list.old.items ++ map note.Retired entries.now) }
{
    let mut rest = entries;
    while let [entry, tail @ ..] = rest {
        list.push(Note::Retired(*entry))?;
        rest = tail;
    }
    Ok(())
}

fn add_accessed(list: &mut Vec<Note>, action: Action, entries: &[Retired]) -> Result<(), AllocError>
    ensures { OnOk result (list.new.items ≡ list.old.items ++ map (note.Accessed action) entries.now) }
{
    let mut rest = entries;
    while let [entry, tail @ ..] = rest {
        list.push(Note::Accessed(action, *entry))?;
        rest = tail;
    }
    Ok(())
}

/// The access of what retired, if it was to access memory.
fn add_access(list: &mut Vec<Note>, action: Action, entries: &[Retired]) -> Result<(), AllocError>
    ensures { OnOk result (list.new.items ≡ list.old.items ++ notes.accesses_at (addressed action) action entries.now) }
{
    match action.address() {
        Some(_) => add_accessed(list, action, entries),
        None => Ok(()),
    }
}

/// The same, where it is known what it was to do.
fn add_accesses(
    list: &mut Vec<Note>,
    action: Option<Action>,
    entries: &[Retired],
) -> Result<(), AllocError>
    ensures { OnOk result (list.new.items ≡ list.old.items ++ notes.accesses action entries.now) }
{
    match action {
        Some(action) => add_access(list, action, entries),
        None => Ok(()),
    }
}

/// The instruction that gave an operation, if it is there.
fn entry_of(trace: &Trace, operation: OpId) -> Option<Retired>
    ensures { result ≡ slice_get (entries_of trace.now.history operation.hart) operation.place }
{
    let hart = operation.hart as usize;
    let place = operation.place as usize;
    if hart >= trace.harts() {
        return None;
    }
    let entries = trace.entries(hart);
    if place < entries.len() {
        Some(entries[place])
    } else {
        None
    }
}

fn performed(trace: &Trace, operation: OpId) -> Option<Note>
    ensures { result ≡ notes.performed trace.now.history operation }
{
    match entry_of(trace, operation) {
        Some(entry) => Some(Note::Performed(entry)),
        None => None,
    }
}

fn add_performed(list: &mut Vec<Note>, trace: &Trace, operations: &[OpId]) -> Result<(), AllocError>
    ensures { OnOk result (list.new.items ≡ list.old.items ++ flat_map (notes.performed_note trace.now.history) operations.now) }
{
    let mut rest = operations;
    while let [operation, tail @ ..] = rest {
        add(list, performed(trace, *operation))?;
        rest = tail;
    }
    Ok(())
}

/// What was performed, where nothing retired: what retires tells by itself what it performed.
fn add_stores(
    list: &mut Vec<Note>,
    trace: &Trace,
    entries: &[Retired],
    operations: &[OpId],
) -> Result<(), AllocError>
    ensures { OnOk result (list.new.items ≡ list.old.items ++ notes.stores trace.now.history entries.now operations.now) }
{
    match entries {
        [] => add_performed(list, trace, operations),
        [_, ..] => Ok(()),
    }
}

fn add_output(list: &mut Vec<Note>, output: &[u32]) -> Result<(), AllocError>
    ensures { OnOk result (list.new.items ≡ list.old.items ++ map note.PutOut output.now) }
{
    let mut rest = output;
    while let [number, tail @ ..] = rest {
        list.push(Note::PutOut(*number))?;
        rest = tail;
    }
    Ok(())
}

/// Whether this is the reserved word.
fn is_reserved(reserved: Option<u32>, word: u32) -> bool
    ensures { result ≡ notes.is_reserved word reserved }
{
    match reserved {
        Some(other) => other == word,
        None => false,
    }
}

fn lost(before: Option<u32>) -> Option<Note>
    ensures { result ≡ notes.lost before }
{
    match before {
        Some(word) => Some(Note::Lost(word)),
        None => None,
    }
}

/// A reservation that was won, or one that was lost.
fn reservation(before: Option<u32>, now: Option<u32>) -> Option<Note>
    ensures { result ≡ notes.reservation before now }
{
    match now {
        Some(word) => {
            if is_reserved(before, word) {
                None
            } else {
                Some(Note::Reserved(word))
            }
        }
        None => lost(before),
    }
}

fn end(outcome: Outcome) -> Option<Note>
    ensures { result ≡ notes.end outcome }
{
    match outcome {
        Outcome::Exited(code) => Some(Note::Exited(code)),
        Outcome::Stopped(code) => Some(Note::Stopped(code)),
        _ => None,
    }
}

/// What an event's report, and the hart's reservation before and behind it, tell of the core.
pub(crate) fn notes_of(
    alloc: Global,
    trace: &Trace,
    report: &Report<'_>,
    before: Option<u32>,
    now: Option<u32>,
) -> Result<Vec<Note>, AllocError>
    ensures { IfOk result (λ list. list.items ≡ notes.notes trace.now.history (report_of report.now) before now) }
{
    let mut list = Vec::new(alloc);
    add_retired(&mut list, report.entries)?;
    add_accesses(&mut list, report.action, report.entries)?;
    add_stores(&mut list, trace, report.entries, report.performed)?;
    add_output(&mut list, report.output)?;
    add(&mut list, reservation(before, now))?;
    add(&mut list, end(report.outcome))?;
    Ok(list)
}
