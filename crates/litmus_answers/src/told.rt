//! The places that a state tells, and where their values come from.
ghost use Rattle.std.specs.Prelude.{◌≡◌, ◌<◌, ◌≤◌, ◌++◌, length, OnOk, IfOk};
ghost use Rattle.litmus_answers.specs.Layouts as layouts;
ghost use Rattle.litmus_answers.specs.Naming as naming;
ghost use Rattle.litmus_text.specs.Tests.{meaning};

use crate::locations::{filter_of, is_location, width_of};
use litmus_image::Part;
use litmus_parts::{Place, Step, Told, Width};
use litmus_text::Test;
use rv32_decode::Register;
use std::alloc::{AllocError, Global};
use text_words::{LONGEST_NAME, Name};

/// Whether a hart puts one register out before another: x10 comes first, then x17, then the others by number.
fn is_earlier(one: usize, other: usize) -> bool
    ensures { result ≡ layouts.is_earlier one other }
{
    match other {
        10 => false,
        17 => one == 10,
        _ => one == 10 || one == 17 || one < other,
    }
}

/// At which place a register stands in its hart's output.
fn index_of(asked: &[bool; 32], register: usize) -> usize
    ensures { result ≡ layouts.index_of asked.now register }
{
    let mut index = 0;
    let mut number = 0;
    let mut rest = asked.as_slice();
    while let [first, tail @ ..] = rest {
        if *first && is_earlier(number, register) {
            index += 1;
        }
        number += 1;
        rest = tail;
    }
    index
}

/// Adds the registers of a hart that are asked for, by number.
fn add_registers(told: &mut Vec<Told>, hart: u8, asked: &[bool; 32]) -> Result<(), AllocError>
    ensures { OnOk result (told.new.items ≡ told.old.items ++ layouts.registers_told hart asked.now 0 asked.now) }
{
    let mut number: u8 = 0;
    let mut rest = asked.as_slice();
    while let [first, tail @ ..] = rest {
        if *first {
            told.push(Told::Register {
                hart,
                register: Register::new(number),
                index: index_of(asked, number as usize),
            })?;
        }
        number += 1;
        rest = tail;
    }
    Ok(())
}

/// Adds the registers of harts that are asked for, by hart and number.
fn add_harts(told: &mut Vec<Told>, parts: &[Part]) -> Result<(), AllocError>
    requires { length parts.now < 256 }
    ensures { OnOk result (told.new.items ≡ told.old.items ++ layouts.harts_told 0 parts.now) }
{
    let mut hart: u8 = 0;
    let mut rest = parts;
    while let [first, tail @ ..] = rest {
        add_registers(told, hart, &first.asked)?;
        hart = hart.saturating_add(1);
        rest = tail;
    }
    Ok(())
}

fn is_in_places(places: &[Place], name: &[u8]) -> bool
    ensures { result ≡ naming.is_in_places places.now name.now }
{
    let mut rest = places;
    while let [first, tail @ ..] = rest {
        if is_location(first, name) {
            return true;
        }
        rest = tail;
    }
    false
}

fn is_of_step(step: &Step, name: &[u8]) -> bool
    ensures { result ≡ naming.is_of_step step.now name.now }
{
    match step {
        Step::Equal(relation) | Step::Differs(relation) => is_location(&relation.place, name),
        Step::True | Step::False | Step::Not | Step::And | Step::Or | Step::Implies => false,
    }
}

fn is_in_steps(steps: &[Step], name: &[u8]) -> bool
    ensures { result ≡ naming.is_in_steps steps.now name.now }
{
    let mut rest = steps;
    while let [first, tail @ ..] = rest {
        if is_of_step(first, name) {
            return true;
        }
        rest = tail;
    }
    false
}

/// Whether a location's value is asked for.
fn is_asked(test: &Test, name: &[u8]) -> bool
    ensures { result ≡ naming.is_asked (meaning test.now).asking name.now }
{
    is_in_places(&test.asking.places, name)
        || is_in_steps(filter_of(test), name)
        || is_in_steps(&test.asking.steps, name)
}

/// Whether a state tells a location.
pub(crate) fn is_told(test: &Test, name: &[u8]) -> bool
    ensures { result ≡ naming.is_told (meaning test.now).asking name.now }
{
    name.len() <= LONGEST_NAME && is_asked(test, name)
}

/// Of a location's word the bits that count.
fn mask_of(width: Width) -> u32
    ensures { result ≡ layouts.mask_of width }
{
    match width {
        Width::Byte => 0xff,
        Width::Half => 0xffff,
        Width::Word | Width::Double => 0xffff_ffff,
    }
}

/// Adds the locations that are asked for, by name.
fn add_locations(told: &mut Vec<Told>, test: &Test, names: &[Vec<u8>]) -> Result<(), AllocError>
    requires { length names.now ≤ 64 }
    ensures { OnOk result (told.new.items ≡ told.old.items ++ layouts.locations_told (meaning test.now) 0 names.now) }
{
    let mut number: usize = 0;
    let mut rest = names;
    while let [first, tail @ ..] = rest {
        if is_told(test, first) {
            let name = Name::of(first);
            let mask = mask_of(width_of(&test.values, first));
            told.push(Told::Location { name, mask, number })?;
            number += 1;
        }
        rest = tail;
    }
    Ok(())
}

/// Registers that are asked for by hart and number, and then locations by name.
pub(crate) fn told_of(
    alloc: Global,
    test: &Test,
    names: &[Vec<u8>],
    parts: &[Part],
) -> Result<Vec<Told>, AllocError>
    requires names { length names.now ≤ 64 }
    requires parts { length parts.now < 256 }
    ensures { IfOk result (λ told. told.items ≡ layouts.harts_told 0 parts.now ++ layouts.locations_told (meaning test.now) 0 names.now) }
{
    let mut told = Vec::new(alloc);
    add_harts(&mut told, parts)?;
    add_locations(&mut told, test, names)?;
    Ok(told)
}
