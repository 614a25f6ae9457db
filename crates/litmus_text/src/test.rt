//! Whole tests.
ghost use Rattle.std.specs.Prelude.{◌≡◌};
ghost use Rattle.litmus_text.specs.Tests as tests;
ghost use Rattle.litmus_text.specs.Questions as questions;
ghost use Rattle.litmus_parts.specs.Stops.{seen, Gives};

use crate::lines::lines_of;
use crate::question::{Asking, asking_at};
use litmus_parts::{
    Cause, CodeLine, Initial, Item, Place, Section, Stop, columns_at, header_at, is_same_place,
    values_at,
};
use std::alloc::Global;
use text_words::{CommentError, Name, blank_comments};

/// No text of a test has more bytes.
const MOST_BYTES: usize = 1 << 20;

/// A litmus test.
#[derive(Drop)]
pub struct Test {
    pub name: Name,
    /// How many, 1 to 8.
    pub harts: u8,
    pub values: Vec<Initial>,
    /// Row by row.
    pub lines: Vec<CodeLine>,
    pub asking: Asking,
}

// ---- initial values

fn has_hart(harts: u8, place: &Place) -> bool
    ensures { result ≡ tests.has_hart harts place.now }
{
    match place {
        Place::Register { hart, .. } => *hart < harts,
        Place::Location(_) => true,
    }
}

/// Where this place is set again: how many bytes are left there.
fn again(place: &Place, values: &[Initial]) -> Option<usize>
    ensures { result ≡ tests.again place.now values.now }
{
    let mut rest = values;
    while let [value, tail @ ..] = rest {
        if is_same_place(place, &value.place) {
            return Some(value.left);
        }
        rest = tail;
    }
    None
}

/// Refuses a register of another hart, and a place that is set again.
fn value_fits(harts: u8, value: &Initial, later: &[Initial]) -> Result<(), Stop>
    ensures { seen (λ _. tt) result ≡ tests.value_fits harts value.now later.now }
{
    if !has_hart(harts, &value.place) {
        let cause = Cause::Hart(Section::Initial);
        let left = value.left;
        return Err(Stop::At { cause, left });
    }
    match again(&value.place, later) {
        Some(left) => {
            let cause = Cause::OtherPlace;
            Err(Stop::At { cause, left })
        }
        None => Ok(()),
    }
}

fn values_fit(harts: u8, values: &[Initial]) -> Result<(), Stop>
    ensures { seen (λ _. tt) result ≡ tests.values_fit harts values.now }
{
    let mut rest = values;
    while let [value, tail @ ..] = rest {
        match value_fits(harts, value, tail) {
            Ok(()) => rest = tail,
            Err(stop) => return Err(stop),
        }
    }
    Ok(())
}

// ---- the whole

#[tactic(auto, using(crate::proofs::Giving::gives_then, crate::proofs::Giving::gives_stop))]
fn with_lines(
    alloc: Global,
    bytes: &[u8],
    name: Name,
    values: Vec<Initial>,
    harts: u8,
    items: &[Item],
    asking: Asking,
) -> Result<Test, Stop>
    ensures { Gives tests.meaning result (tests.with_lines bytes.now name values.items harts items.now (questions.asking asking)) }
{
    match lines_of(alloc, bytes, items) {
        Ok(lines) => Ok(Test {
            name,
            harts,
            values,
            lines,
            asking,
        }),
        Err(stop) => Err(stop),
    }
}

#[tactic(auto, using(crate::proofs::Giving::gives_then, crate::proofs::Giving::gives_stop))]
fn with_asking(
    alloc: Global,
    bytes: &[u8],
    name: Name,
    values: Vec<Initial>,
    harts: u8,
    items: &[Item],
    asking: Asking,
) -> Result<Test, Stop>
    ensures { Gives tests.meaning result (tests.with_asking bytes.now name values.items harts items.now (questions.asking asking)) }
{
    match values_fit(harts, &values) {
        Ok(()) => with_lines(alloc, bytes, name, values, harts, items, asking),
        Err(stop) => Err(stop),
    }
}

#[tactic(auto, unfolding(crate::specs::Tests::with_columns), using(crate::proofs::Giving::gives_then, crate::proofs::Giving::gives_stop))]
fn with_columns(
    alloc: Global,
    bytes: &[u8],
    name: Name,
    values: Vec<Initial>,
    harts: u8,
    items: &[Item],
    rest: &[u8],
) -> Result<Test, Stop>
    ensures { Gives tests.meaning result (tests.with_columns bytes.now name values.items (harts, items.now) rest.now) }
{
    match asking_at(alloc, harts, rest) {
        Ok(asking) => with_asking(alloc, bytes, name, values, harts, items, asking),
        Err(stop) => Err(stop),
    }
}

#[tactic(auto, unfolding(crate::specs::Tests::with_values), using(crate::proofs::Giving::gives_then, crate::proofs::Giving::gives_stop))]
fn with_values(
    alloc: Global,
    bytes: &[u8],
    name: Name,
    values: Vec<Initial>,
    rest: &[u8],
) -> Result<Test, Stop>
    ensures { Gives tests.meaning result (tests.with_values bytes.now name values.items rest.now) }
{
    match columns_at(alloc, rest) {
        Ok((harts, items, rest)) => with_columns(alloc, bytes, name, values, harts, &items, rest),
        Err(stop) => Err(stop),
    }
}

#[tactic(auto, unfolding(crate::specs::Tests::with_name), using(crate::proofs::Giving::gives_then, crate::proofs::Giving::gives_stop))]
fn with_name(alloc: Global, bytes: &[u8], name: Name, rest: &[u8]) -> Result<Test, Stop>
    ensures { Gives tests.meaning result (tests.with_name bytes.now name rest.now) }
{
    match values_at(alloc, rest) {
        Ok((values, rest)) => with_values(alloc, bytes, name, values, rest),
        Err(stop) => Err(stop),
    }
}

#[tactic(auto, unfolding(crate::specs::Tests::whole), using(crate::proofs::Giving::gives_then, crate::proofs::Giving::gives_stop))]
fn whole(alloc: Global, bytes: &[u8]) -> Result<Test, Stop>
    ensures { Gives tests.meaning result (tests.whole bytes.now) }
{
    match header_at(bytes) {
        Ok((name, rest)) => with_name(alloc, bytes, name, rest),
        Err(stop) => Err(stop),
    }
}

// ---- comments

/// The text with blanks for its comments.
fn plain(alloc: Global, text: &[u8]) -> Result<Vec<u8>, Stop>
    ensures { Gives (λ x. x.items) result (tests.plain text.now) }
{
    match blank_comments(alloc, text) {
        Ok(bytes) => Ok(bytes),
        Err(CommentError::Open { left }) => {
            let cause = Cause::Comment;
            Err(Stop::At { cause, left })
        }
        Err(CommentError::NoMemory) => Err(Stop::Memory),
    }
}

/// The test that a text says, of at most 1 MiB; or where it stops being one.
#[tactic(auto, unfolding(crate::specs::Tests::test_in), using(crate::proofs::Giving::gives_then, crate::proofs::Giving::gives_stop))]
pub fn test_of(alloc: Global, text: &[u8]) -> Result<Test, Stop>
    ensures { Gives tests.meaning result (tests.test_in text.now) }
{
    if text.len() > MOST_BYTES {
        let left = text.len();
        return Err(Stop::At {
            cause: Cause::FewBytes,
            left,
        });
    }
    match plain(alloc, text) {
        Ok(bytes) => whole(alloc, &bytes),
        Err(stop) => Err(stop),
    }
}
