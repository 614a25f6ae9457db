//! A test's locations.
ghost use Rattle.std.specs.Prelude.{◌≡◌, ◌<◌, ◌≤◌, ◌++◌, ◌∷◌, [], length, IfSome, IfOk, OnOk};
ghost use Rattle.litmus_answers.specs.Layouts as layouts;
ghost use Rattle.litmus_answers.specs.Locations as locations;
ghost use Rattle.litmus_answers.specs.Naming as naming;
ghost use Rattle.litmus_parts.specs.Places.{is_location};
ghost use Rattle.litmus_text.specs.Tests.{meaning};

use litmus_parts::{Initial, Place, Relation, Step, Value, Width, is_same};
use litmus_text::Test;
use std::alloc::{AllocError, Global};
use text_words::Name;

/// The first location's address.
pub(crate) const FIRST: u32 = 0x8000_1000;

/// How many bytes there are from one location to the next.
pub(crate) const APART: u32 = 64;

/// The address of the location of this number.
pub fn address_at(number: usize) -> u32
    requires { number < 64 }
    ensures { result ≡ locations.address_at number }
{
    FIRST + APART * number as u32
}

/// The location whose name this is, by its number.
pub(crate) fn number_of(names: &[Vec<u8>], name: &Name) -> Option<usize>
    ensures value { result ≡ locations.number_from 0 names.now name.now }
    ensures within { IfSome result (λ n. n < length names.now) }
{
    let mut number = 0;
    let mut rest = names;
    while let [first, tail @ ..] = rest {
        if is_same(first, name.as_slice()) {
            return Some(number);
        }
        number += 1;
        rest = tail;
    }
    None
}

#[tactic(auto, using(crate::proofs::Sorting::pushed))]
fn add_name(names: &mut Vec<Vec<u8>>, name: &Name, alloc: Global) -> Result<(), AllocError>
    ensures { OnOk result (naming.plain names.new.items ≡ naming.plain names.old.items ++ name.now ∷ []) }
{
    let bytes = name.as_slice().to_vec(alloc)?;
    names.push(bytes)?;
    Ok(())
}

fn add_place(names: &mut Vec<Vec<u8>>, place: &Place, alloc: Global) -> Result<(), AllocError>
    ensures { OnOk result (naming.plain names.new.items ≡ naming.plain names.old.items ++ naming.place_names place.now) }
{
    match place {
        Place::Register { .. } => Ok(()),
        Place::Location(name) => add_name(names, name, alloc),
    }
}

fn add_value(names: &mut Vec<Vec<u8>>, value: &Value, alloc: Global) -> Result<(), AllocError>
    ensures { OnOk result (naming.plain names.new.items ≡ naming.plain names.old.items ++ naming.value_names value.now) }
{
    match value {
        Value::Number(_) => Ok(()),
        Value::Address(name) => add_name(names, name, alloc),
    }
}

fn add_relation(
    names: &mut Vec<Vec<u8>>,
    relation: &Relation,
    alloc: Global,
) -> Result<(), AllocError>
    ensures { OnOk result (naming.plain names.new.items ≡ naming.plain names.old.items ++ naming.relation_names relation.now) }
{
    add_place(names, &relation.place, alloc)?;
    add_value(names, &relation.value, alloc)
}

fn add_step(names: &mut Vec<Vec<u8>>, step: &Step, alloc: Global) -> Result<(), AllocError>
    ensures { OnOk result (naming.plain names.new.items ≡ naming.plain names.old.items ++ naming.step_names step.now) }
{
    match step {
        Step::Equal(relation) | Step::Differs(relation) => add_relation(names, relation, alloc),
        Step::True | Step::False | Step::Not | Step::And | Step::Or | Step::Implies => Ok(()),
    }
}

fn add_steps(names: &mut Vec<Vec<u8>>, steps: &[Step], alloc: Global) -> Result<(), AllocError>
    ensures { OnOk result (naming.plain names.new.items ≡ naming.plain names.old.items ++ naming.steps_names steps.now) }
{
    let mut rest = steps;
    while let [first, tail @ ..] = rest {
        add_step(names, first, alloc)?;
        rest = tail;
    }
    Ok(())
}

fn add_places(names: &mut Vec<Vec<u8>>, places: &[Place], alloc: Global) -> Result<(), AllocError>
    ensures { OnOk result (naming.plain names.new.items ≡ naming.plain names.old.items ++ naming.places_names places.now) }
{
    let mut rest = places;
    while let [first, tail @ ..] = rest {
        add_place(names, first, alloc)?;
        rest = tail;
    }
    Ok(())
}

fn add_values(names: &mut Vec<Vec<u8>>, values: &[Initial], alloc: Global) -> Result<(), AllocError>
    ensures { OnOk result (naming.plain names.new.items ≡ naming.plain names.old.items ++ naming.values_names values.now) }
{
    let mut rest = values;
    while let [first, tail @ ..] = rest {
        add_place(names, &first.place, alloc)?;
        add_value(names, &first.value, alloc)?;
        rest = tail;
    }
    Ok(())
}

/// What every state has to keep.
pub(crate) fn filter_of(test: &Test) -> &[Step]
    ensures { result.now ≡ naming.filter_steps (meaning test.now).asking.filter }
{
    match &test.asking.filter {
        Some(steps) => steps.as_slice(),
        None => &[],
    }
}

/// The names of all locations that a test names, in its order.
fn all_names(alloc: Global, test: &Test) -> Result<Vec<Vec<u8>>, AllocError>
    ensures { IfOk result (λ names. naming.plain names.items ≡ naming.names_in (meaning test.now)) }
{
    let mut names = Vec::new(alloc);
    add_values(&mut names, &test.values, alloc)?;
    add_places(&mut names, &test.asking.places, alloc)?;
    add_steps(&mut names, filter_of(test), alloc)?;
    add_steps(&mut names, &test.asking.steps, alloc)?;
    Ok(names)
}

/// The names of all locations that a test names, in their order, each once.
pub(crate) fn names_of(alloc: Global, test: &Test) -> Result<Vec<Vec<u8>>, AllocError>
    ensures { IfOk result (λ names. naming.AreSorted (naming.names_in (meaning test.now)) names.items) }
{
    let mut names = all_names(alloc, test)?;
    names.sort_unstable();
    names.dedup();
    Ok(names)
}

/// Whether a place is the location of this name.
pub(crate) fn is_location(place: &Place, name: &[u8]) -> bool
    ensures { result ≡ is_location place.now name.now }
{
    match place {
        Place::Register { .. } => false,
        Place::Location(known) => is_same(name, known.as_slice()),
    }
}

/// How many bytes the location of this name has.
pub(crate) fn width_of(values: &[Initial], name: &[u8]) -> Width
    ensures { result ≡ layouts.width_of values.now name.now }
{
    let mut rest = values;
    while let [first, tail @ ..] = rest {
        if is_location(&first.place, name) {
            return first.width;
        }
        rest = tail;
    }
    Width::Word
}

/// The low bytes of a number.
pub(crate) fn low_bytes(width: Width, number: u32) -> u32
    ensures { result ≡ locations.low_bytes width number }
{
    match width {
        Width::Byte => number % 256,
        Width::Half => number % 65536,
        Width::Word | Width::Double => number,
    }
}

/// The number that a value is, locations being of these names.
pub(crate) fn value_of(names: &[Vec<u8>], value: &Value) -> u32
    requires { length names.now ≤ 64 }
    ensures { result ≡ locations.value_of names.now value.now }
{
    match value {
        Value::Number(number) => *number,
        Value::Address(name) => match number_of(names, name) {
            Some(number) => address_at(number),
            None => 0,
        },
    }
}
