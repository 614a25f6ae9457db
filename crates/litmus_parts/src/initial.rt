//! The values between braces.
ghost use Rattle.std.specs.Prelude.{◌≡◌};
ghost use Rattle.std.specs.Option.{option_map};
ghost use Rattle.litmus_parts.specs.Initial as initial;
ghost use Rattle.litmus_parts.specs.Stops.{seen, Gives};

use crate::places::{Place, Value, place_at, value_at};
use crate::scanning::meaning_of;
use crate::stop::{Cause, Section, Stop};
use std::alloc::Global;
use text_words::{skip_blanks, split_word, symbol_at};

/// How many bytes a location has.
#[derive(Clone, Copy, Debug, PartialEq, Eq)]
pub enum Width {
    Byte = 1,
    Half = 2,
    Word = 4,
    Double = 8,
}

/// What a place is set to. Of its text, `left` is how many bytes stand from its first one to the file's end.
#[derive(Clone, Copy)]
pub struct Initial {
    pub place: Place,
    pub width: Width,
    pub value: Value,
    pub left: usize,
}

/// No more initial values are read. 8 harts and 64 locations have 312 places.
const MOST_VALUES: u32 = 400;

/// No test has more harts.
pub const MOST_HARTS: u8 = 8;

/// Types, as C has them.
const TYPES: [(&[u8], Width); 11] = [
    (b"int", Width::Word),
    (b"int8_t", Width::Byte),
    (b"uint8_t", Width::Byte),
    (b"int16_t", Width::Half),
    (b"uint16_t", Width::Half),
    (b"int32_t", Width::Word),
    (b"uint32_t", Width::Word),
    (b"int64_t", Width::Double),
    (b"uint64_t", Width::Double),
    (b"char", Width::Byte),
    (b"short", Width::Half),
];

/// A pointer has 4 bytes, whatever it points to.
fn pointed(width: Width, bytes: &[u8]) -> (Width, &[u8])
    ensures width { result.0 ≡ (initial.pointed width bytes.now).0 }
    ensures rest { result.1.now ≡ (initial.pointed width bytes.now).1 }
{
    match symbol_at(b"*", bytes) {
        Some(rest) => (Width::Word, rest),
        None => (width, bytes),
    }
}

/// The type at the front, `int` where none stands, and what stands behind it.
fn type_at(bytes: &[u8]) -> (Width, &[u8])
    ensures width { result.0 ≡ (initial.type_at bytes.now).0 }
    ensures rest { result.1.now ≡ (initial.type_at bytes.now).1 }
{
    let (word, rest) = split_word(skip_blanks(bytes));
    match meaning_of(&TYPES, word) {
        Some(width) => pointed(width, rest),
        None => (Width::Word, bytes),
    }
}

/// Why this place can't have this type, or be set.
fn misfit(place: &Place, width: Width) -> Option<Cause>
    ensures { result ≡ initial.misfit place.now width }
{
    match place {
        Place::Register { register, .. } => {
            if register.number() == 0 {
                Some(Cause::SetRegister)
            } else {
                None
            }
        }
        Place::Location(_) => match width {
            Width::Double => Some(Cause::WideLocation),
            Width::Byte | Width::Half | Width::Word => None,
        },
    }
}

/// The value behind `=`, 0 where none stands.
#[tactic(auto, unfolding(crate::specs::Initial::given_at))]
fn given_at(bytes: &[u8]) -> Result<(Value, &[u8]), Stop>
    ensures { seen (λ x. (x.0, x.1.now)) result ≡ initial.given_at bytes.now }
{
    match symbol_at(b"=", bytes) {
        Some(rest) => value_at(Section::Initial, rest),
        None => Ok((Value::Number(0), bytes)),
    }
}

/// What stands behind the semicolon, which may be missing before the brace.
#[tactic(auto, unfolding(crate::specs::Initial::past_end))]
fn past_end(bytes: &[u8]) -> Result<&[u8], Stop>
    ensures { seen (λ x. x.now) result ≡ initial.past_end bytes.now }
{
    match (symbol_at(b";", bytes), symbol_at(b"}", bytes)) {
        (Some(rest), _) => Ok(rest),
        (None, Some(_)) => Ok(bytes),
        (None, None) => Err(Stop::at(Cause::InitialEnd, bytes)),
    }
}

/// What this place is set to, whose type begins at `start`.
#[tactic(auto, unfolding(crate::specs::Initial::set_at))]
fn set_at<'a>(
    start: &[u8],
    width: Width,
    place: Place,
    bytes: &'a [u8],
) -> Result<(Initial, &'a [u8]), Stop>
    ensures { seen (λ x. (x.0, x.1.now)) result ≡ initial.set_at start.now width place bytes.now }
{
    match misfit(&place, width) {
        Some(cause) => Err(Stop::at(cause, start)),
        None => match given_at(bytes) {
            Ok((value, rest)) => match past_end(rest) {
                Ok(rest) => {
                    let left = skip_blanks(start).len();
                    let initial = Initial {
                        place,
                        width,
                        value,
                        left,
                    };
                    Ok((initial, rest))
                }
                Err(stop) => Err(stop),
            },
            Err(stop) => Err(stop),
        },
    }
}

/// A place with its type and its value.
#[tactic(auto, unfolding(crate::specs::Initial::initial_at))]
fn initial_at(bytes: &[u8]) -> Result<(Initial, &[u8]), Stop>
    ensures { seen (λ x. (x.0, x.1.now)) result ≡ initial.initial_at bytes.now }
{
    let (width, rest) = type_at(bytes);
    match place_at(Section::Initial, MOST_HARTS, rest) {
        Ok((place, rest)) => set_at(bytes, width, place, rest),
        Err(stop) => Err(stop),
    }
}

/// The initial values, and what stands behind the brace that closes them.
pub fn values_at(alloc: Global, bytes: &[u8]) -> Result<(Vec<Initial>, &[u8]), Stop>
    ensures { Gives (λ x. (x.0.items, x.1.now)) result (initial.values_at MOST_VALUES bytes.now) }
{
    let mut values = Vec::new(alloc);
    let mut rest = bytes;
    for taken in 0..MOST_VALUES {
        match symbol_at(b"}", rest) {
            Some(later) => return Ok((values, later)),
            None => match initial_at(rest) {
                Err(stop) => return Err(stop),
                Ok((initial, later)) => match values.push(initial) {
                    Ok(()) => rest = later,
                    Err(_) => return Err(Stop::Memory),
                },
            },
        }
    }
    Err(Stop::at(Cause::FewValues, rest))
}
