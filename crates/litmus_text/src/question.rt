//! What a test asks of its final states.
ghost use Rattle.std.specs.Prelude.{◌≡◌, Ok, ◌++◌, OnOk};
ghost use Rattle.std.specs.Option.{option_map};
ghost use Rattle.litmus_text.specs.Propositions as propositions;
ghost use Rattle.litmus_text.specs.Questions as questions;
ghost use Rattle.litmus_parts.specs.Stops.{seen, Gives};

use crate::proposition::proposition_at;
use litmus_parts::{Cause, Place, Section, Step, Stop, expect, keyword_at, place_at};
use std::alloc::{AllocError, Global};
use text_words::{is_blank, skip_blanks, symbol_at};

/// Of which states a proposition should hold.
#[derive(Clone, Copy)]
pub enum Kind {
    /// Of one at least.
    Exists,
    /// Of none.
    NotExists,
    /// Of all.
    Forall,
}

/// What a test asks.
#[derive(Drop)]
pub struct Asking {
    /// Told beside what the question names.
    pub places: Vec<Place>,
    /// A state counts where this holds.
    pub filter: Option<Vec<Step>>,
    pub kind: Kind,
    pub steps: Vec<Step>,
    /// The question as it is written, with one blank for several.
    pub text: Vec<u8>,
}

/// No more places are told beside the question.
const MOST_PLACES: u32 = 400;

// ---- locations

/// What stands behind the semicolon, which may be missing before the bracket.
#[tactic(auto, unfolding(crate::specs::Questions::past_mark))]
fn past_mark(bytes: &[u8]) -> Result<&[u8], Stop>
    ensures { seen (λ x. x.now) result ≡ questions.past_mark bytes.now }
{
    match (symbol_at(b";", bytes), symbol_at(b"]", bytes)) {
        (Some(rest), _) => Ok(rest),
        (None, Some(_)) => Ok(bytes),
        (None, None) => Err(Stop::at(Cause::LocationsEnd, bytes)),
    }
}

/// A place, and what stands behind its semicolon.
#[tactic(auto, unfolding(crate::specs::Questions::asked_at))]
fn asked_at(harts: u8, bytes: &[u8]) -> Result<(Place, &[u8]), Stop>
    ensures { seen (λ x. (x.0, x.1.now)) result ≡ questions.asked_at harts bytes.now }
{
    match place_at(Section::Condition, harts, bytes) {
        Ok((place, rest)) => match past_mark(rest) {
            Ok(rest) => Ok((place, rest)),
            Err(stop) => Err(stop),
        },
        Err(stop) => Err(stop),
    }
}

/// Places up to the bracket, and what stands behind it.
fn listed_at(alloc: Global, harts: u8, bytes: &[u8]) -> Result<(Vec<Place>, &[u8]), Stop>
    ensures { Gives (λ x. (x.0.items, x.1.now)) result (questions.listed_at harts bytes.now) }
{
    let mut places = Vec::new(alloc);
    let mut rest = bytes;
    for taken in 0..MOST_PLACES {
        match symbol_at(b"]", rest) {
            Some(later) => return Ok((places, later)),
            None => match asked_at(harts, rest) {
                Err(stop) => return Err(stop),
                Ok((place, later)) => match places.push(place) {
                    Ok(()) => rest = later,
                    Err(_) => return Err(Stop::Memory),
                },
            },
        }
    }
    Err(Stop::at(Cause::FewPlaces, rest))
}

/// What stands in brackets.
fn bracketed_at(alloc: Global, harts: u8, bytes: &[u8]) -> Result<(Vec<Place>, &[u8]), Stop>
    ensures { Gives (λ x. (x.0.items, x.1.now)) result (questions.bracketed_at harts bytes.now) }
{
    match expect(b"[", Cause::Locations, bytes) {
        Ok(rest) => listed_at(alloc, harts, rest),
        Err(stop) => Err(stop),
    }
}

/// The places that are told beside those of the question, and what stands behind them.
#[tactic(auto, unfolding(crate::specs::Questions::locations_at))]
fn locations_at(alloc: Global, harts: u8, bytes: &[u8]) -> Result<(Vec<Place>, &[u8]), Stop>
    ensures { Gives (λ x. (x.0.items, x.1.now)) result (questions.locations_at harts bytes.now) }
{
    match keyword_at(b"locations", bytes) {
        Some(rest) => bracketed_at(alloc, harts, rest),
        None => Ok((Vec::new(alloc), bytes)),
    }
}

// ---- propositions

/// A proposition, and what stands behind it.
#[tactic(auto, using(crate::proofs::Giving::none_added))]
fn steps_at(alloc: Global, harts: u8, bytes: &[u8]) -> Result<(Vec<Step>, &[u8]), Stop>
    ensures { Gives (λ x. (x.0.items, x.1.now)) result (propositions.proposition_at harts bytes.now) }
{
    let mut steps = Vec::new(alloc);
    match proposition_at(harts, bytes, &mut steps) {
        Ok(rest) => Ok((steps, rest)),
        Err(stop) => Err(stop),
    }
}

/// What stands behind `filter`.
#[tactic(auto, using(crate::proofs::Giving::gives_then, crate::proofs::Giving::gives_stop))]
fn filtered_at(alloc: Global, harts: u8, bytes: &[u8]) -> Result<(Option<Vec<Step>>, &[u8]), Stop>
    ensures { Gives (λ x. (option_map (λ v. v.items) x.0, x.1.now)) result (questions.filtered_at harts bytes.now) }
{
    match steps_at(alloc, harts, bytes) {
        Ok((steps, rest)) => Ok((Some(steps), rest)),
        Err(stop) => Err(stop),
    }
}

/// What a state has to keep to count, if anything, and what stands behind it.
#[tactic(auto, unfolding(crate::specs::Questions::filter_at))]
fn filter_at(alloc: Global, harts: u8, bytes: &[u8]) -> Result<(Option<Vec<Step>>, &[u8]), Stop>
    ensures { Gives (λ x. (option_map (λ v. v.items) x.0, x.1.now)) result (questions.filter_at harts bytes.now) }
{
    match keyword_at(b"filter", bytes) {
        Some(rest) => filtered_at(alloc, harts, rest),
        None => Ok((None, bytes)),
    }
}

/// A proposition behind `exists`.
#[tactic(auto, unfolding(crate::specs::Questions::exists_at))]
fn exists_at(alloc: Global, harts: u8, bytes: &[u8]) -> Result<(Vec<Step>, &[u8]), Stop>
    ensures { Gives (λ x. (x.0.items, x.1.now)) result (questions.exists_at harts bytes.now) }
{
    match keyword_at(b"exists", bytes) {
        Some(rest) => steps_at(alloc, harts, rest),
        None => Err(Stop::at(Cause::Question, bytes)),
    }
}

/// The same in parentheses, of which one was passed.
#[tactic(auto, using(crate::proofs::Giving::gives_then, crate::proofs::Giving::gives_stop))]
fn grouped_at(alloc: Global, harts: u8, bytes: &[u8]) -> Result<(Vec<Step>, &[u8]), Stop>
    ensures { Gives (λ x. (x.0.items, x.1.now)) result (propositions.closed (questions.exists_at harts bytes.now)) }
{
    match exists_at(alloc, harts, bytes) {
        Ok((steps, rest)) => match expect(b")", Cause::Close, rest) {
            Ok(rest) => Ok((steps, rest)),
            Err(stop) => Err(stop),
        },
        Err(stop) => Err(stop),
    }
}

/// What stands behind `not`.
#[tactic(auto, unfolding(crate::specs::Questions::denied_at))]
fn denied_at(alloc: Global, harts: u8, bytes: &[u8]) -> Result<(Vec<Step>, &[u8]), Stop>
    ensures { Gives (λ x. (x.0.items, x.1.now)) result (questions.denied_at harts bytes.now) }
{
    match symbol_at(b"(", bytes) {
        Some(rest) => grouped_at(alloc, harts, rest),
        None => exists_at(alloc, harts, bytes),
    }
}

// ---- the question

/// A proposition that should hold of such states.
#[tactic(auto, using(crate::proofs::Giving::gives_then, crate::proofs::Giving::gives_stop))]
fn asked(
    alloc: Global,
    kind: Kind,
    harts: u8,
    bytes: &[u8],
) -> Result<(Kind, Vec<Step>, &[u8]), Stop>
    ensures { Gives (λ x. ((x.0, x.1.items), x.2.now)) result (questions.asked kind (propositions.proposition_at harts bytes.now)) }
{
    match steps_at(alloc, harts, bytes) {
        Ok((steps, rest)) => Ok((kind, steps, rest)),
        Err(stop) => Err(stop),
    }
}

/// What stands behind `~`.
#[tactic(auto, using(crate::proofs::Giving::gives_then, crate::proofs::Giving::gives_stop))]
fn marked(alloc: Global, harts: u8, bytes: &[u8]) -> Result<(Kind, Vec<Step>, &[u8]), Stop>
    ensures { Gives (λ x. ((x.0, x.1.items), x.2.now)) result (questions.asked Kind.NotExists (questions.exists_at harts bytes.now)) }
{
    match exists_at(alloc, harts, bytes) {
        Ok((steps, rest)) => Ok((Kind::NotExists, steps, rest)),
        Err(stop) => Err(stop),
    }
}

/// What stands behind `not`.
#[tactic(auto, using(crate::proofs::Giving::gives_then, crate::proofs::Giving::gives_stop))]
fn denied(alloc: Global, harts: u8, bytes: &[u8]) -> Result<(Kind, Vec<Step>, &[u8]), Stop>
    ensures { Gives (λ x. ((x.0, x.1.items), x.2.now)) result (questions.asked Kind.NotExists (questions.denied_at harts bytes.now)) }
{
    match denied_at(alloc, harts, bytes) {
        Ok((steps, rest)) => Ok((Kind::NotExists, steps, rest)),
        Err(stop) => Err(stop),
    }
}

/// The question, and what stands behind it.
#[tactic(auto, unfolding(crate::specs::Questions::question_at))]
fn question_at(alloc: Global, harts: u8, bytes: &[u8]) -> Result<(Kind, Vec<Step>, &[u8]), Stop>
    ensures { Gives (λ x. ((x.0, x.1.items), x.2.now)) result (questions.question_at harts bytes.now) }
{
    match (
        keyword_at(b"exists", bytes),
        keyword_at(b"forall", bytes),
        symbol_at(b"~", bytes),
        keyword_at(b"not", bytes),
    ) {
        (Some(rest), _, _, _) => asked(alloc, Kind::Exists, harts, rest),
        (None, Some(rest), _, _) => asked(alloc, Kind::Forall, harts, rest),
        (None, None, Some(rest), _) => marked(alloc, harts, rest),
        (None, None, None, Some(rest)) => denied(alloc, harts, rest),
        (None, None, None, None) => Err(Stop::at(Cause::Question, bytes)),
    }
}

// ---- all of it

/// Whether a blank begins the text, or it ends here.
fn starts_blank(bytes: &[u8]) -> bool
    ensures { result ≡ questions.starts_blank bytes.now }
{
    match bytes {
        [] => true,
        [first, ..] => is_blank(*first),
    }
}

/// Adds the text with one blank for several.
fn put_spaced(out: &mut Vec<u8>, text: &[u8]) -> Result<(), AllocError>
    ensures { OnOk result (out.new.items ≡ out.old.items ++ questions.spaced text.now) }
{
    let mut rest = text;
    while let [first, tail @ ..] = rest {
        if !is_blank(*first) {
            out.push(*first)?;
        } else if !starts_blank(tail) {
            out.push(b' ')?;
        }
        rest = tail;
    }
    Ok(())
}

/// The text from here to there, with one blank for several.
fn between(alloc: Global, bytes: &[u8], rest: &[u8]) -> Result<Vec<u8>, Stop>
    ensures { Gives (λ x. x.items) result (Ok (questions.between bytes.now rest.now)) }
{
    let start = skip_blanks(bytes);
    let length = start.len().saturating_sub(rest.len());
    let mut text = Vec::new(alloc);
    match put_spaced(&mut text, &start[..length]) {
        Ok(()) => Ok(text),
        Err(_) => Err(Stop::Memory),
    }
}

/// Nothing may stand behind a test.
fn check_end(rest: &[u8]) -> Result<(), Stop>
    ensures { seen (λ _. tt) result ≡ questions.end_at rest.now }
{
    if skip_blanks(rest).is_empty() {
        Ok(())
    } else {
        Err(Stop::at(Cause::Nothing, rest))
    }
}

/// The question with its text, behind which nothing may stand.
#[tactic(auto, using(crate::proofs::Giving::gives_then, crate::proofs::Giving::gives_stop))]
fn last_at(alloc: Global, harts: u8, bytes: &[u8]) -> Result<(Kind, Vec<Step>, Vec<u8>), Stop>
    ensures { Gives (λ x. ((x.0, x.1.items), x.2.items)) result (questions.last_at harts bytes.now) }
{
    match question_at(alloc, harts, bytes) {
        Ok((kind, steps, rest)) => match check_end(rest) {
            Ok(()) => match between(alloc, bytes, rest) {
                Ok(text) => Ok((kind, steps, text)),
                Err(stop) => Err(stop),
            },
            Err(stop) => Err(stop),
        },
        Err(stop) => Err(stop),
    }
}

/// What a test asks, down to the text's end.
#[tactic(auto, unfolding(crate::specs::Questions::asking_at), using(crate::proofs::Giving::gives_then, crate::proofs::Giving::gives_stop))]
pub(crate) fn asking_at(alloc: Global, harts: u8, bytes: &[u8]) -> Result<Asking, Stop>
    ensures { Gives questions.asking result (questions.asking_at harts bytes.now) }
{
    match locations_at(alloc, harts, bytes) {
        Ok((places, rest)) => match filter_at(alloc, harts, rest) {
            Ok((filter, rest)) => match last_at(alloc, harts, rest) {
                Ok((kind, steps, text)) => Ok(Asking {
                    places,
                    filter,
                    kind,
                    steps,
                    text,
                }),
                Err(stop) => Err(stop),
            },
            Err(stop) => Err(stop),
        },
        Err(stop) => Err(stop),
    }
}
