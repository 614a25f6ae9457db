//! The lines of failures.
ghost use Rattle.std.specs.Prelude.{◌≡◌, ◌++◌, IfOk, OnOk};
ghost use Rattle.elf_symbols.specs.Lookups.{nearest};
ghost use Rattle.exploration_text.specs.Failures as text;
ghost use Rattle.order_text.specs.Naming.{place_behind};

use crate::spelling::spell_number;
use elf_symbols::Symbols;
use explorer::FoundFailure;
use explorer::flat_exploration::Stop;
use hart::{Hart, Status};
use order_text::spell_place;
use rv32_exec::stop;
use std::alloc::{AllocError, Global};
use text_fields::{Page, word_text};

fn spell_name(into: &mut Vec<u8>, hart: u8) -> Result<(), AllocError>
    ensures { OnOk result (into.new.items ≡ into.old.items ++ text.hart_name hart) }
{
    into.extend_from_slice(b"hart ")?;
    spell_number(into, u64::from(hart))?;
    into.extend_from_slice(b": ")
}

/// An address, and the name that lies there or nearest before it.
fn spell_address(into: &mut Vec<u8>, symbols: &Symbols, address: u32) -> Result<(), AllocError>
    ensures { OnOk result (into.new.items ≡ into.old.items ++ text.address_text symbols.now address) }
{
    into.extend_from_slice(&word_text(address))?;
    spell_symbol(into, symbols, address)
}

/// The name that an address has, if it has one, behind a space.
fn spell_symbol(into: &mut Vec<u8>, symbols: &Symbols, address: u32) -> Result<(), AllocError>
    ensures { OnOk result (into.new.items ≡ into.old.items ++ place_behind (nearest symbols.now address)) }
{
    let Some(place) = symbols.nearest(address) else {
        return Ok(());
    };
    let mut page = Page::new();
    page.text(b" ");
    spell_place(&mut page, place);
    into.extend_from_slice(page.as_slice())
}

/// Why a hart stops with this code.
fn cause_of(code: u8) -> &'static str
    ensures { result.now ≡ text.cause_text code }
{
    match code {
        stop::JUMP_MISALIGNED => " (jump target misaligned)",
        stop::FETCH_OUTSIDE => " (fetch outside memory)",
        stop::ILLEGAL => " (illegal instruction)",
        stop::BREAKPOINT => " (ebreak)",
        stop::LOAD_MISALIGNED => " (load misaligned)",
        stop::LOAD_OUTSIDE => " (load outside memory)",
        stop::STORE_MISALIGNED => " (store misaligned)",
        stop::STORE_OUTSIDE => " (store outside memory)",
        stop::UNKNOWN_CALL => " (unknown call)",
        _ => "",
    }
}

fn spell_stop(into: &mut Vec<u8>, symbols: &Symbols, stop: Stop) -> Result<(), AllocError>
    ensures { OnOk result (into.new.items ≡ into.old.items ++ text.stop_text symbols.now stop) }
{
    into.extend_from_slice(b"stop ")?;
    spell_number(into, u64::from(stop.code))?;
    into.extend_from_slice(b" at ")?;
    spell_address(into, symbols, stop.pc)?;
    into.extend_from_slice(cause_of(stop.code).as_bytes())?;
    Ok(())
}

fn spell_standing(
    into: &mut Vec<u8>,
    symbols: &Symbols,
    status: Status,
    pc: u32,
) -> Result<(), AllocError>
    ensures { OnOk result (into.new.items ≡ into.old.items ++ text.place_by symbols.now status pc) }
{
    match status {
        Status::Running => {
            into.extend_from_slice(b"run at ")?;
            spell_address(into, symbols, pc)
        }
        Status::Stopped(code) => spell_stop(into, symbols, Stop { code, pc }),
        Status::Exited(code) => {
            into.extend_from_slice(b"exit ")?;
            spell_number(into, u64::from(code))
        }
    }
}

fn spell_place_of(into: &mut Vec<u8>, symbols: &Symbols, hart: &Hart) -> Result<(), AllocError>
    ensures { OnOk result (into.new.items ≡ into.old.items ++ text.place_field symbols.now hart.now) }
{
    into.extend_from_slice(b"   ")?;
    spell_name(into, hart.id)?;
    spell_standing(into, symbols, hart.status, hart.pc)
}

/// The harts but this one.
fn spell_others(
    into: &mut Vec<u8>,
    symbols: &Symbols,
    stopped: u8,
    harts: &[Hart],
) -> Result<(), AllocError>
    ensures { OnOk result (into.new.items ≡ into.old.items ++ text.others_text symbols.now stopped harts.now) }
{
    let mut rest = harts;
    while let [first, tail @ ..] = rest {
        if first.id != stopped {
            spell_place_of(into, symbols, first)?;
        }
        rest = tail;
    }
    Ok(())
}

fn spell_failure(
    into: &mut Vec<u8>,
    symbols: &Symbols,
    number: usize,
    found: &FoundFailure,
) -> Result<(), AllocError>
    ensures { OnOk result (into.new.items ≡ into.old.items ++ text.failure_line symbols.now number found.now) }
{
    into.extend_from_slice(b"failure ")?;
    spell_number(into, number as u64)?;
    into.extend_from_slice(b"  ")?;
    spell_name(into, found.failure.hart)?;
    spell_stop(into, symbols, found.failure.stop)?;
    spell_others(into, symbols, found.failure.hart, &found.harts)?;
    into.extend_from_slice(b"\n")
}

pub(crate) fn spell_failures(
    into: &mut Vec<u8>,
    symbols: &Symbols,
    failures: &[FoundFailure],
) -> Result<(), AllocError>
    ensures { OnOk result (into.new.items ≡ into.old.items ++ text.failure_lines symbols.now 1 failures.now) }
{
    let mut rest = failures;
    let mut number = 1;
    while let [first, tail @ ..] = rest {
        spell_failure(into, symbols, number, first)?;
        rest = tail;
        number += 1;
    }
    Ok(())
}

/// A hart that stops, and where and why it does, as the line of a failure has it behind the number.
pub fn stopped_text(
    alloc: Global,
    symbols: &Symbols,
    hart: u8,
    stop: Stop,
) -> Result<Vec<u8>, AllocError>
    ensures { IfOk result (λ bytes. bytes.items ≡ text.stopped_text symbols.now hart stop) }
{
    let mut bytes = Vec::new(alloc);
    spell_name(&mut bytes, hart)?;
    spell_stop(&mut bytes, symbols, stop)?;
    Ok(bytes)
}

/// Adds how many failures there are, where there are any, as the last line has it before its states.
pub fn spell_failure_count(into: &mut Vec<u8>, failures: usize) -> Result<(), AllocError>
    ensures { OnOk result (into.new.items ≡ into.old.items ++ text.failures_part failures) }
{
    if failures > 0 {
        spell_number(into, failures as u64)?;
        into.extend_from_slice(b" failures, ")?;
    }
    Ok(())
}
