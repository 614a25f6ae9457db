//! States.
ghost use Rattle.std.specs.Prelude.{◌≡◌, ◌++◌, [], OnOk, decimal};
ghost use Rattle.std.specs.Option.{option_map};
ghost use Rattle.litmus_answers.specs.States as text;

use crate::locations::{APART, FIRST};
use itoa::Buffer;
use litmus_parts::{Place, Told};
use std::alloc::AllocError;

pub(crate) fn put_number(out: &mut Vec<u8>, number: u64) -> Result<(), AllocError>
    ensures { OnOk result (out.new.items ≡ out.old.items ++ decimal number) }
{
    let mut digits = Buffer::new();
    out.extend_from_slice(digits.format(number).as_bytes())?;
    Ok(())
}

pub(crate) fn put_place(out: &mut Vec<u8>, place: &Place) -> Result<(), AllocError>
    ensures { OnOk result (out.new.items ≡ out.old.items ++ text.place_text place.now) }
{
    match place {
        Place::Register { hart, register } => {
            put_number(out, u64::from(*hart))?;
            out.extend_from_slice(b":x")?;
            put_number(out, u64::from(register.number()))
        }
        Place::Location(name) => {
            out.extend_from_slice(b"[")?;
            out.extend_from_slice(name.as_slice())?;
            out.extend_from_slice(b"]")?;
            Ok(())
        }
    }
}

/// A word of 32 bits with its sign.
pub(crate) fn put_signed(out: &mut Vec<u8>, number: u32) -> Result<(), AllocError>
    ensures { OnOk result (out.new.items ≡ out.old.items ++ text.signed_text number) }
{
    if number < 1 << 31 {
        return put_number(out, u64::from(number));
    }
    out.extend_from_slice(b"-")?;
    put_number(out, (1 << 32) - u64::from(number))
}

/// The location that stands at an address.
fn named(names: &[Vec<u8>], address: u32) -> Option<&[u8]>
    ensures { option_map (λ x. x.now) result ≡ text.named names.now address }
{
    if address < FIRST || (address - FIRST) % APART != 0 {
        return None;
    }
    match names.get(((address - FIRST) / APART) as usize) {
        Some(name) => Some(name),
        None => None,
    }
}

fn put_told(out: &mut Vec<u8>, told: &Told) -> Result<(), AllocError>
    ensures { OnOk result (out.new.items ≡ out.old.items ++ text.told_text told.now) }
{
    let place = match told {
        Told::Register { hart, register, .. } => Place::Register {
            hart: *hart,
            register: *register,
        },
        Told::Location { name, .. } => Place::Location(*name),
    };
    put_place(out, &place)
}

/// The name of the location where a value is its address, and otherwise the number with its sign.
fn put_value(out: &mut Vec<u8>, names: &[Vec<u8>], number: u32) -> Result<(), AllocError>
    ensures { OnOk result (out.new.items ≡ out.old.items ++ text.value_text names.now number) }
{
    match named(names, number) {
        Some(name) => {
            out.extend_from_slice(name)?;
            Ok(())
        }
        None => put_signed(out, number),
    }
}

fn put_item(
    out: &mut Vec<u8>,
    names: &[Vec<u8>],
    told: &Told,
    number: u32,
) -> Result<(), AllocError>
    ensures { OnOk result (out.new.items ≡ out.old.items ++ text.item_text names.now told.now number) }
{
    put_told(out, told)?;
    out.extend_from_slice(b"=")?;
    put_value(out, names, number)?;
    out.extend_from_slice(b";")?;
    Ok(())
}

/// A state's places with their values.
fn put_items(
    out: &mut Vec<u8>,
    names: &[Vec<u8>],
    told: &[Told],
    state: &[u32],
) -> Result<(), AllocError>
    ensures { OnOk result (out.new.items ≡ out.old.items ++ text.items_text names.now [] told.now state.now) }
{
    let mut gap: &[u8] = b"";
    let mut told = told;
    let mut state = state;
    while let [first, others @ ..] = told {
        let [number, numbers @ ..] = state else {
            return Ok(());
        };
        out.extend_from_slice(gap)?;
        put_item(out, names, first, *number)?;
        gap = b" ";
        told = others;
        state = numbers;
    }
    Ok(())
}

fn put_state(
    out: &mut Vec<u8>,
    names: &[Vec<u8>],
    told: &[Told],
    state: &[u32],
) -> Result<(), AllocError>
    ensures { OnOk result (out.new.items ≡ out.old.items ++ text.state_line names.now told.now state.now) }
{
    put_items(out, names, told, state)?;
    out.extend_from_slice(b"\n")?;
    Ok(())
}

/// A line for each state.
pub(crate) fn put_states(
    out: &mut Vec<u8>,
    names: &[Vec<u8>],
    told: &[Told],
    states: &[Vec<u32>],
) -> Result<(), AllocError>
    ensures { OnOk result (out.new.items ≡ out.old.items ++ text.state_lines names.now told.now states.now) }
{
    let mut rest = states;
    while let [state, tail @ ..] = rest {
        put_state(out, names, told, state)?;
        rest = tail;
    }
    Ok(())
}
