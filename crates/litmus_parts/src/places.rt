//! Registers, locations and values.
ghost use Rattle.std.specs.Prelude.{◌≡◌, ◌≤◌, ◌<◌, IfSome};
ghost use Rattle.std.specs.Option.{option_map};
ghost use Rattle.litmus_parts.specs.Places as places;
ghost use Rattle.litmus_parts.specs.Scanning as scanning;
ghost use Rattle.litmus_parts.specs.Stops.{seen};

use crate::scanning::{expect, is_same};
use crate::stop::{Cause, Section, Stop};
use assembly_reading::register_of;
use rv32_decode::Register;
use text_words::{Name, Number, name_at, signed_at, skip_blanks, split_word, symbol_at};

/// What a test sets at the start, and asks for at the end.
#[derive(Clone, Copy)]
pub enum Place {
    /// A hart's register.
    Register { hart: u8, register: Register },
    /// A location in memory.
    Location(Name),
}

/// What a place is set to, or compared with.
#[derive(Clone, Copy)]
pub enum Value {
    /// A number modulo 2^32.
    Number(u32),
    /// A location's address.
    Address(Name),
}

/// Whether two names are one.
pub fn is_same_name(one: &Name, other: &Name) -> bool
    ensures { result ≡ scanning.is_same one.now other.now }
{
    is_same(one.as_slice(), other.as_slice())
}

fn is_register(place: &Place, wanted_hart: u8, wanted: Register) -> bool
    ensures { result ≡ places.is_register place.now wanted_hart wanted }
{
    match place {
        Place::Register { hart, register } => {
            let number = register.number();
            let wanted = wanted.number();
            wanted_hart == *hart && wanted == number
        }
        Place::Location(_) => false,
    }
}

fn is_location(place: &Place, wanted: &Name) -> bool
    ensures { result ≡ places.is_location place.now wanted.now }
{
    match place {
        Place::Register { .. } => false,
        Place::Location(name) => is_same_name(wanted, name),
    }
}

/// Whether two places are one.
pub fn is_same_place(one: &Place, other: &Place) -> bool
    ensures { result ≡ places.is_same_place one.now other.now }
{
    match one {
        Place::Register { hart, register } => is_register(other, *hart, *register),
        Place::Location(name) => is_location(other, name),
    }
}

/// The hart whose number a word is, 0 to 9.
fn hart_of(word: &[u8]) -> Option<u8>
    ensures { result ≡ places.hart_of word.now }
{
    match word {
        [digit] if digit.is_ascii_digit() => Some(*digit - b'0'),
        _ => None,
    }
}

#[tactic(auto, unfolding(crate::specs::Places::location_at))]
fn location_at(section: Section, bytes: &[u8]) -> Result<(Place, &[u8]), Stop>
    ensures { seen (λ x. (x.0, x.1.now)) result ≡ places.location_at section bytes.now }
{
    match name_at(bytes) {
        Some((name, rest)) => Ok((Place::Location(name), rest)),
        None => Err(Stop::at(Cause::Place(section), bytes)),
    }
}

#[tactic(auto, unfolding(crate::specs::Places::bracketed_at))]
fn bracketed_at(section: Section, bytes: &[u8]) -> Result<(Place, &[u8]), Stop>
    ensures { seen (λ x. (x.0, x.1.now)) result ≡ places.bracketed_at section bytes.now }
{
    match location_at(section, bytes) {
        Ok((place, rest)) => match expect(b"]", Cause::Bracket(section), rest) {
            Ok(rest) => Ok((place, rest)),
            Err(stop) => Err(stop),
        },
        Err(stop) => Err(stop),
    }
}

#[tactic(auto, unfolding(crate::specs::Places::named_at))]
fn named_at(section: Section, hart: u8, bytes: &[u8]) -> Result<(Place, &[u8]), Stop>
    ensures { seen (λ x. (x.0, x.1.now)) result ≡ places.named_at section hart bytes.now }
{
    let (word, rest) = split_word(skip_blanks(bytes));
    match register_of(word) {
        Some(register) => Ok((Place::Register { hart, register }, rest)),
        None => Err(Stop::at(Cause::Register(section), bytes)),
    }
}

#[tactic(auto, unfolding(crate::specs::Places::register_at))]
fn register_at(section: Section, hart: u8, bytes: &[u8]) -> Result<(Place, &[u8]), Stop>
    ensures { seen (λ x. (x.0, x.1.now)) result ≡ places.register_at section hart bytes.now }
{
    match expect(b":", Cause::Colon(section), bytes) {
        Ok(rest) => named_at(section, hart, rest),
        Err(stop) => Err(stop),
    }
}

/// A place without brackets.
#[tactic(auto, unfolding(crate::specs::Places::plain_at))]
fn plain_at(section: Section, harts: u8, bytes: &[u8]) -> Result<(Place, &[u8]), Stop>
    ensures { seen (λ x. (x.0, x.1.now)) result ≡ places.plain_at section harts bytes.now }
{
    let (word, rest) = split_word(skip_blanks(bytes));
    match hart_of(word) {
        Some(hart) if hart < harts => register_at(section, hart, rest),
        Some(_) => Err(Stop::at(Cause::Hart(section), bytes)),
        None => location_at(section, bytes),
    }
}

/// A place, and what stands behind it: a register of one of so many harts, or a location, in brackets or not.
#[tactic(auto, unfolding(crate::specs::Places::place_at))]
pub fn place_at(section: Section, harts: u8, bytes: &[u8]) -> Result<(Place, &[u8]), Stop>
    ensures { seen (λ x. (x.0, x.1.now)) result ≡ places.place_at section harts bytes.now }
{
    match symbol_at(b"[", bytes) {
        Some(rest) => bracketed_at(section, rest),
        None => plain_at(section, harts, bytes),
    }
}

#[tactic(auto, unfolding(crate::specs::Places::address_at))]
fn address_at(section: Section, bytes: &[u8]) -> Result<(Value, &[u8]), Stop>
    ensures { seen (λ x. (x.0, x.1.now)) result ≡ places.address_at section bytes.now }
{
    match name_at(bytes) {
        Some((name, rest)) => Ok((Value::Address(name), rest)),
        None => Err(Stop::at(Cause::Value(section), bytes)),
    }
}

#[tactic(auto, unfolding(crate::specs::Places::number_at))]
fn number_at(section: Section, bytes: &[u8]) -> Result<(Value, &[u8]), Stop>
    ensures { seen (λ x. (x.0, x.1.now)) result ≡ places.number_at section bytes.now }
{
    match signed_at(bytes) {
        Some((Number::Word(number), rest)) => Ok((Value::Number(number), rest)),
        Some((Number::Wide, _)) => Err(Stop::at(Cause::WideNumber, bytes)),
        None => address_at(section, bytes),
    }
}

/// A value, and what stands behind it: a number of 32 bits, signed or not, or the name of a location, `&` before it or not.
#[tactic(auto, unfolding(crate::specs::Places::value_at))]
pub fn value_at(section: Section, bytes: &[u8]) -> Result<(Value, &[u8]), Stop>
    ensures { seen (λ x. (x.0, x.1.now)) result ≡ places.value_at section bytes.now }
{
    match symbol_at(b"&", bytes) {
        Some(rest) => address_at(section, rest),
        None => number_at(section, bytes),
    }
}
