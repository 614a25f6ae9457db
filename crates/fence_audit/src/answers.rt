//! What a search of a changed program told, beside what one of the program as it is told, or a file allows.
ghost use Rattle.std.specs.Prelude.{◌≡◌, IfOk};
ghost use Rattle.allowed_outcomes.specs.Known.{allows_line};
ghost use Rattle.fence_audit.specs.Answers as spec;

use allowed_outcomes::{Allowed, without_number};
use architecture_outcomes::explorer::flat_exploration::Failure;
use architecture_outcomes::window_search::Reach;
use architecture_outcomes::{Architecture, Failing, Outcome};
use exploration_text::{WordName, end_text};
use state_search::Extent;
use std::alloc::{AllocError, Global};

/// Which outcomes a changed program is to have.
#[derive(Clone, Copy)]
pub enum Standard<'a> {
    /// Those of the program as it is, of which a whole search found this, and no hart that stops but those of it.
    AsItIs(&'a Architecture),
    /// None that the file doesn't allow, where its lines call words of memory so.
    Within(&'a [WordName<'a>], &'a Allowed<'a>),
}

/// What a search of a changed program told, beside the outcomes that it is to have.
#[derive(Clone, Copy, Debug, PartialEq, Eq)]
pub enum Answer {
    /// It was whole, and has the outcomes that it is to have.
    Same,
    /// The outcome at this place is none that it may have.
    Other(usize),
    /// It has no other outcome, but the hart at this place among those that stop, whatever the other harts do then, is none
    /// that stops so in the program as it is.
    Stops(usize),
    /// It was whole, and the outcome at this place of the program as it is isn't one of it.
    Fewer(usize),
    /// It met a bound, and has no other outcome, and no other hart that stops.
    Bounded,
}

/// Whether neither the search under the model nor the machine's own met a bound.
pub fn is_whole(found: &Architecture) -> bool
    ensures { result ≡ spec.is_whole found.now }
{
    match (found.reach, found.machine) {
        (Reach::Whole, Extent::Complete) => true,
        _ => false,
    }
}

/// Whether the search under the model or the machine's own ended for want of memory.
pub fn lacked_memory(found: &Architecture) -> bool
    ensures { result ≡ spec.lacked_memory found.now }
{
    match (found.reach, found.machine) {
        (Reach::OutOfMemory, _) | (_, Extent::OutOfMemory) => true,
        _ => false,
    }
}

/// Whether it was whole, and has the outcomes that it is to have.
pub(crate) fn is_enough(answer: Answer) -> bool
    ensures { result ≡ spec.is_enough answer }
{
    match answer {
        Answer::Same => true,
        Answer::Other(_) | Answer::Stops(_) | Answer::Fewer(_) | Answer::Bounded => false,
    }
}

/// The place of the first outcome that it may not have, if there is one.
pub(crate) fn refused_place(answer: Answer) -> Option<usize>
    ensures { result ≡ spec.refused_place answer }
{
    match answer {
        Answer::Other(place) => Some(place),
        Answer::Same | Answer::Stops(_) | Answer::Fewer(_) | Answer::Bounded => None,
    }
}

/// What was found, beside what there is to be.
pub(crate) fn answer_of(
    alloc: Global,
    standard: Standard<'_>,
    found: &Architecture,
) -> Result<Answer, AllocError>
    ensures { IfOk result (λ answer. answer ≡ spec.answer_of standard.entry found.now) }
{
    match standard {
        Standard::AsItIs(known) => Ok(answer_as(known, found)),
        Standard::Within(names, allowed) => answer_within(alloc, names, allowed, found),
    }
}

/// What was found, beside what is allowed.
fn answer_within(
    alloc: Global,
    names: &[WordName<'_>],
    allowed: &Allowed<'_>,
    found: &Architecture,
) -> Result<Answer, AllocError>
    ensures { IfOk result (λ answer. answer ≡ spec.answer_within (allows_line allowed.now) names.now found.now) }
{
    if let Some(place) = first_refused(alloc, names, allowed, &found.outcomes)? {
        return Ok(Answer::Other(place));
    }
    if is_whole(found) {
        Ok(Answer::Same)
    } else {
        Ok(Answer::Bounded)
    }
}

/// The place of the first outcome that isn't allowed.
fn first_refused(
    alloc: Global,
    names: &[WordName<'_>],
    allowed: &Allowed<'_>,
    outcomes: &[Outcome],
) -> Result<Option<usize>, AllocError>
    ensures { IfOk result (λ place. place ≡ spec.first_refused (allows_line allowed.now) names.now 0 outcomes.now) }
{
    let mut place: usize = 0;
    let mut rest = outcomes;
    while let [first, tail @ ..] = rest {
        if !is_allowed(alloc, names, allowed, first)? {
            return Ok(Some(place));
        }
        rest = tail;
        place += 1;
    }
    Ok(None)
}

fn is_allowed(
    alloc: Global,
    names: &[WordName<'_>],
    allowed: &Allowed<'_>,
    outcome: &Outcome,
) -> Result<bool, AllocError>
    ensures { IfOk result (λ allows. allows ≡ spec.is_allowed (allows_line allowed.now) names.now outcome.now) }
{
    let line = end_text(alloc, names, &outcome.harts, &outcome.words)?;
    Ok(allowed.has(without_number(&line)))
}

/// What was found, beside what was known.
fn answer_as(known: &Architecture, found: &Architecture) -> Answer
    ensures { result ≡ spec.answer_as known.now found.now }
{
    if let Some(place) = first_beyond(&known.outcomes, &found.outcomes) {
        return Answer::Other(place);
    }
    if let Some(place) = first_stop_beyond(&known.failures, &found.failures) {
        return Answer::Stops(place);
    }
    if !is_whole(found) {
        return Answer::Bounded;
    }
    match first_beyond(&found.outcomes, &known.outcomes) {
        Some(place) => Answer::Fewer(place),
        None => Answer::Same,
    }
}

/// The place of the first hart that stops as none of the others does.
fn first_stop_beyond(others: &[Failing], failings: &[Failing]) -> Option<usize>
    ensures { result ≡ spec.first_stop_beyond others.now failings.now }
{
    failings
        .iter()
        .position(|failing| !has_stop(others, failing.failure))
}

/// Whether one of these stops so.
fn has_stop(failings: &[Failing], failure: Failure) -> bool
    ensures { result ≡ spec.has_stop failings.now failure }
{
    failings.iter().any(|each| each.failure == failure)
}

/// The place of the first outcome that isn't one of the others.
fn first_beyond(others: &[Outcome], outcomes: &[Outcome]) -> Option<usize>
    ensures { result ≡ spec.first_beyond others.now outcomes.now }
{
    outcomes
        .iter()
        .position(|outcome| !has_end(others, outcome))
}

/// Whether it is one of these.
fn has_end(outcomes: &[Outcome], outcome: &Outcome) -> bool
    ensures { result ≡ spec.has_end outcomes.now outcome.now }
{
    outcomes.iter().any(|each| each == outcome)
}
