//! Logs read: which states and answers they have.
ghost use Rattle.std.specs.Prelude.{◌≡◌, ◌++◌, drop, IfOk, OnOk};
ghost use Rattle.std.specs.Option.{option_map};
ghost use Rattle.litmus_answers.specs.Logs as logs;
ghost use Rattle.litmus_answers.specs.Naming.{plain};
ghost use Rattle.litmus_answers.specs.Entries as entries;
ghost use Rattle.litmus_answers.specs.Entries.{plain_states};
ghost use Rattle.litmus_parts.specs.Places.{place_at, value_at};
ghost use Rattle.litmus_parts.specs.Scanning.{until, from};
ghost use Rattle.litmus_parts.specs.declared.stop.Section.TheVariants as section;

use crate::states::{put_place, put_signed};
use litmus_parts::{Place, Section, Value, place_at, split_until, value_at};
use std::alloc::{AllocError, Global};
use text_fields::after;
use text_words::{Number, number_of, skip_blanks, split_word, symbol_at};

/// What a log has of a test.
#[derive(Drop)]
pub struct Entry {
    pub name: Vec<u8>,
    /// Each state's places with their values, in one spelling.
    pub states: Vec<Vec<Vec<u8>>>,
    /// Whether the answer is Ok, where one is told.
    pub answer: Option<bool>,
}

/// No more harts are told apart than a number of one digit has.
const HARTS: u8 = 10;

/// What stands before the first of these marks, and what behind it; all, and nothing, where there is none.
fn split_behind<'a>(marks: &[u8], bytes: &'a [u8]) -> (&'a [u8], &'a [u8])
    ensures front { result.0.now ≡ until marks.now bytes.now }
    ensures behind { result.1.now ≡ drop 1 (from marks.now bytes.now) }
{
    let (front, rest) = split_until(marks, bytes);
    match rest {
        [_, behind @ ..] => (front, behind),
        [] => (front, rest),
    }
}

/// Whether nothing but blanks stands there.
fn is_blank_text(bytes: &[u8]) -> bool
    ensures { result ≡ entries.is_blank_text bytes.now }
{
    skip_blanks(bytes).is_empty()
}

/// What stands behind litmus7's count of runs, as `1000 :>` or `1 *>`.
fn past_runs(line: &[u8]) -> &[u8]
    ensures { result.now ≡ logs.past_runs line.now }
{
    match split_behind(b">", line) {
        (_, []) => line,
        (_, behind) => behind,
    }
}

/// A place, and what stands behind it.
fn place_in(text: &[u8]) -> Option<(Place, &[u8])>
    ensures { option_map (λ x. (x.0, x.1.now)) result ≡ logs.read (place_at section.Condition 10 text.now) }
{
    match place_at(Section::Condition, HARTS, text) {
        Ok(found) => Some(found),
        Err(_) => None,
    }
}

/// A value, and what stands behind it.
fn value_in(text: &[u8]) -> Option<(Value, &[u8])>
    ensures { option_map (λ x. (x.0, x.1.now)) result ≡ logs.read (value_at section.Condition text.now) }
{
    match value_at(Section::Condition, text) {
        Ok(found) => Some(found),
        Err(_) => None,
    }
}

/// A place with the value that stands here, where nothing else does.
fn set_to(place: Place, text: &[u8]) -> Option<(Place, Value)>
    ensures { result ≡ logs.set_to place text.now }
{
    match value_in(text) {
        Some((value, rest)) => {
            if is_blank_text(rest) {
                Some((place, value))
            } else {
                None
            }
        }
        None => None,
    }
}

/// A place and its value, where a text has nothing else.
fn setting_of(text: &[u8]) -> Option<(Place, Value)>
    ensures { result ≡ logs.setting_of text.now }
{
    match place_in(text) {
        Some((place, rest)) => match symbol_at(b"=", rest) {
            Some(rest) => set_to(place, rest),
            None => None,
        },
        None => None,
    }
}

fn put_value(out: &mut Vec<u8>, value: &Value) -> Result<(), AllocError>
    ensures { OnOk result (out.new.items ≡ out.old.items ++ logs.written value.now) }
{
    match value {
        Value::Number(number) => put_signed(out, *number),
        Value::Address(name) => {
            out.extend_from_slice(name.as_slice())?;
            Ok(())
        }
    }
}

/// A place and its value in one spelling, or the text where it is none.
fn spelled(alloc: Global, text: &[u8]) -> Result<Vec<u8>, AllocError>
    ensures { IfOk result (λ item. item.items ≡ logs.spelled (logs.setting_of text.now) text.now) }
{
    let Some((place, value)) = setting_of(text) else {
        return text.to_vec(alloc);
    };
    let mut out = Vec::new(alloc);
    put_place(&mut out, &place)?;
    out.extend_from_slice(b"=")?;
    put_value(&mut out, &value)?;
    Ok(out)
}

/// Adds a place and its value, if any stand there.
fn add_item(alloc: Global, items: &mut Vec<Vec<u8>>, text: &[u8]) -> Result<(), AllocError>
    ensures { OnOk result (plain items.new.items ≡ plain items.old.items ++ logs.item_in text.now) }
{
    if !text.is_empty() {
        items.push(spelled(alloc, text)?)?;
    }
    Ok(())
}

/// A state's places with their values, in one spelling.
#[tactic(auto, using(crate::proofs::Logs::items_next, crate::proofs::Logs::behind_fewer, crate::proofs::Logs::none_left))]
fn state_of(alloc: Global, line: &[u8]) -> Result<Vec<Vec<u8>>, AllocError>
    ensures { IfOk result (λ state. plain state.items ≡ logs.state_at line.now) }
{
    let mut items = Vec::new(alloc);
    let mut rest = past_runs(line);
    while !rest.is_empty() {
        let (item, behind) = split_behind(b";", rest);
        add_item(alloc, &mut items, skip_blanks(item))?;
        rest = behind;
    }
    Ok(items)
}

/// What stands behind the words before a number of states.
fn behind_states(line: &[u8]) -> Option<&[u8]>
    ensures { option_map (λ rest. rest.now) result ≡ entries.behind_states line.now }
{
    match after(b"States ", line) {
        Some(rest) => Some(rest),
        None => after(b"Histogram (", line),
    }
}

/// How many states a line says that follow: `States 4` or `Histogram (4 states)`.
fn count_at(line: &[u8]) -> u32
    ensures { result ≡ logs.count_at line.now }
{
    let Some(rest) = behind_states(line) else {
        return 0;
    };
    let (word, _) = split_word(rest);
    match number_of(word) {
        Some(Number::Word(number)) => number,
        Some(Number::Wide) | None => 0,
    }
}

/// The name of the test of which a line begins to tell.
fn name_at(line: &[u8]) -> Option<&[u8]>
    ensures { option_map (λ name. name.now) result ≡ logs.test_at line.now }
{
    let rest = after(b"Test ", line)?;
    let (name, _) = split_until(b" \t\r", rest);
    Some(name)
}

/// Whether a line has this word alone.
fn is_alone(wanted: &[u8], line: &[u8]) -> bool
    ensures { result ≡ logs.is_alone wanted.now line.now }
{
    match after(wanted, line) {
        Some(rest) => is_blank_text(rest),
        None => false,
    }
}

/// The answer that a line gives, if it is one.
fn answer_at(line: &[u8]) -> Option<bool>
    ensures { result ≡ logs.answer_at line.now }
{
    if is_alone(b"Ok", line) {
        Some(true)
    } else if is_alone(b"No", line) {
        Some(false)
    } else {
        None
    }
}

/// Whether a line begins to tell of a test.
#[tactic(auto, using(crate::proofs::Logs::some_mapped))]
fn begins_test(line: &[u8]) -> bool
    ensures { result ≡ entries.begins_test line.now }
{
    name_at(line).is_some()
}

/// Reads a line of a test behind which so many states come; how many come behind it.
#[tactic(auto, using(crate::proofs::Logs::state_pushed))]
fn take_line(alloc: Global, entry: &mut Entry, states: u32, line: &[u8]) -> Result<u32, AllocError>
    ensures name { entry.new.name ≡ entry.old.name }
    ensures states { OnOk result (plain_states entry.new.states.items ≡ plain_states entry.old.states.items ++ entries.states_by states line.now) }
    ensures answer { OnOk result (entry.new.answer ≡ entries.answer_by states line.now entry.old.answer) }
    ensures left { IfOk result (λ left. left ≡ entries.left_by states line.now) }
{
    if states == 0 {
        if entry.answer.is_none() {
            entry.answer = answer_at(line);
        }
        return Ok(count_at(line));
    }
    let state = state_of(alloc, line)?;
    entry.states.push(state)?;
    Ok(states - 1)
}

/// What the lines up to the next test tell of the test of this name.
#[tactic(auto, using(crate::proofs::Logs::line_next, crate::proofs::Logs::behind_fewer, crate::proofs::Logs::body_ends, crate::proofs::Logs::body_cut))]
fn entry_of(alloc: Global, name: &[u8], text: &[u8]) -> Result<Entry, AllocError>
    ensures { IfOk result (λ read. entries.said read ≡ logs.said_of name.now (logs.body (logs.lines text.now))) }
{
    let mut entry = Entry {
        name: name.to_vec(alloc)?,
        states: Vec::new(alloc),
        answer: None,
    };
    let mut states = 0;
    let mut rest = text;
    while !rest.is_empty() {
        let (line, behind) = split_behind(b"\n", rest);
        if begins_test(line) {
            break;
        }
        states = take_line(alloc, &mut entry, states, line)?;
        rest = behind;
    }
    Ok(entry)
}

/// What a log has, test by test: herd7's, rmem's, litmus7's, or what `put_block` makes.
#[tactic(auto, using(crate::proofs::Logs::test_next, crate::proofs::Logs::no_test_next, crate::proofs::Logs::behind_fewer, crate::proofs::Logs::no_tests_left))]
pub fn entries_of(alloc: Global, log: &[u8]) -> Result<Vec<Entry>, AllocError>
    ensures { IfOk result (λ found. entries.all_said found.items ≡ logs.said_in log.now) }
{
    let mut entries = Vec::new(alloc);
    let mut rest = log;
    while !rest.is_empty() {
        let (line, behind) = split_behind(b"\n", rest);
        if let Some(name) = name_at(line) {
            entries.push(entry_of(alloc, name, behind)?)?;
        }
        rest = behind;
    }
    Ok(entries)
}
