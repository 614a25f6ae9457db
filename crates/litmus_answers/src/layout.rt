//! A test's program, and what a state of it tells.
ghost use Rattle.std.specs.Prelude.{◌≡◌, ◌≤◌, length, IfErr, IfOk};
ghost use Rattle.litmus_answers.specs.Faults as faults;
ghost use Rattle.litmus_answers.specs.Layouts as layouts;
ghost use Rattle.litmus_answers.specs.Naming as naming;
ghost use Rattle.litmus_text.specs.Tests.{meaning};

use crate::locations::{address_at, is_location, low_bytes, names_of, value_of};
use crate::parts::parts_of;
use crate::told::{is_told, told_of};
use litmus_image::{Cause as ImageCause, ImageError, words_of};
use litmus_parts::{Cause, CodeLine, Initial, Stop, Told};
use litmus_text::Test;
use std::alloc::{AllocError, Global};

/// No test has more locations.
const MOST_LOCATIONS: usize = 64;

/// A test's program, and what a state of it tells.
#[derive(Drop)]
pub struct Layout {
    /// The locations' names, by their numbers.
    pub names: Vec<Vec<u8>>,
    /// Main memory's words at reset.
    pub words: Vec<u32>,
    /// What a state tells: registers by hart and number, then locations by name.
    pub told: Vec<Told>,
    /// The addresses of the locations that are told, by name.
    pub addresses: Vec<u32>,
}

/// What a location holds at the start.
fn beginning_of(values: &[Initial], names: &[Vec<u8>], name: &[u8]) -> u32
    requires { length names.now ≤ 64 }
    ensures { result ≡ layouts.beginning_of names.now values.now name.now }
{
    let mut rest = values;
    while let [first, tail @ ..] = rest {
        if is_location(&first.place, name) {
            return low_bytes(first.width, value_of(names, &first.value));
        }
        rest = tail;
    }
    0
}

/// What the locations hold at the start.
fn beginnings_of(
    alloc: Global,
    values: &[Initial],
    names: &[Vec<u8>],
) -> Result<Vec<u32>, AllocError>
    requires { length names.now ≤ 64 }
    ensures { IfOk result (λ numbers. numbers.items ≡ layouts.beginnings_of names.now values.now names.now) }
{
    let mut numbers = Vec::new(alloc);
    let mut rest = names;
    while let [first, tail @ ..] = rest {
        numbers.push(beginning_of(values, names, first))?;
        rest = tail;
    }
    Ok(numbers)
}

/// Where the locations stand that are told.
fn addresses_of(alloc: Global, test: &Test, names: &[Vec<u8>]) -> Result<Vec<u32>, AllocError>
    requires { length names.now ≤ 64 }
    ensures { IfOk result (λ addresses. addresses.items ≡ layouts.addresses_of (meaning test.now).asking names.now) }
{
    let mut addresses = Vec::new(alloc);
    let mut number = 0;
    let mut rest = names;
    while let [first, tail @ ..] = rest {
        if is_told(test, first) {
            addresses.push(address_at(number))?;
        }
        number += 1;
        rest = tail;
    }
    Ok(addresses)
}

/// What no test has where the program can't have it.
fn cause_of(cause: ImageCause) -> Cause
    ensures { result ≡ faults.cause_of cause }
{
    match cause {
        ImageCause::NoLabel => Cause::Label,
        ImageCause::TooFar => Cause::Near,
        ImageCause::AllAsked => Cause::FewRegisters,
        ImageCause::TooLong => Cause::FewInstructions,
        ImageCause::TooMany => Cause::FewLocations,
    }
}

/// Where the line of this number stands in a hart's column; where there is none, the column's last line.
fn left_of(lines: &[CodeLine], hart: usize, number: usize) -> usize
    ensures { result ≡ faults.left_of lines.now hart number }
{
    let mut left = 0;
    let mut before = number;
    let mut rest = lines;
    while let [first, tail @ ..] = rest {
        if first.hart as usize == hart {
            if before == 0 {
                return first.left;
            }
            left = first.left;
            before -= 1;
        }
        rest = tail;
    }
    left
}

fn stop_of(test: &Test, error: ImageError) -> Stop
    ensures { result ≡ faults.stop_of test.now.lines.items error }
{
    match error {
        ImageError::Fault { hart, line, cause } => Stop::At {
            cause: cause_of(cause),
            left: left_of(&test.lines, hart, line),
        },
        ImageError::NoMemory => Stop::Memory,
    }
}

/// The program and the places, locations being of these names.
#[tactic(auto, using(crate::proofs::Faults::no_words, crate::proofs::Parting::is_layout))]
fn laid_out(alloc: Global, test: &Test, names: Vec<Vec<u8>>) -> Result<Layout, Stop>
    requires few { length names.items ≤ 64 }
    requires sorted { naming.AreSorted (naming.names_in (meaning test.now)) names.items }
    ensures few { IfOk result (λ layout. length layout.names.items ≤ 64) }
    ensures layout { IfOk result (layouts.IsLayout (meaning test.now)) }
    ensures fault { IfErr result (faults.IsFault (meaning test.now)) }
{
    let Ok(parts) = parts_of(alloc, test, &names) else {
        return Err(Stop::Memory);
    };
    let Ok(numbers) = beginnings_of(alloc, &test.values, &names) else {
        return Err(Stop::Memory);
    };
    let words = match words_of(alloc, &parts, &numbers) {
        Ok(words) => words,
        Err(error) => return Err(stop_of(test, error)),
    };
    let Ok(told) = told_of(alloc, test, &names, &parts) else {
        return Err(Stop::Memory);
    };
    let Ok(addresses) = addresses_of(alloc, test, &names) else {
        return Err(Stop::Memory);
    };
    Ok(Layout {
        names,
        words,
        told,
        addresses,
    })
}

/// The program of a test and what its states tell; or why there is none.
#[tactic(auto, using(crate::proofs::Faults::too_many))]
pub fn layout_of(alloc: Global, test: &Test) -> Result<Layout, Stop>
    ensures few { IfOk result (λ layout. length layout.names.items ≤ 64) }
    ensures layout { IfOk result (layouts.IsLayout (meaning test.now)) }
    ensures fault { IfErr result (faults.IsFault (meaning test.now)) }
{
    let Ok(names) = names_of(alloc, test) else {
        return Err(Stop::Memory);
    };
    if names.len() > MOST_LOCATIONS {
        let left = left_of(&test.lines, 0, 0);
        return Err(Stop::At {
            cause: Cause::FewLocations,
            left,
        });
    }
    laid_out(alloc, test, names)
}
