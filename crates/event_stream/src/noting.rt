//! Writing what the manager notes of memory's lines.
ghost use Rattle.std.specs.Prelude.{◌≡◌, ◌+◌, ◌<◌, ◌≤◌, ◌++◌, length};
ghost use Rattle.directory.specs.Directory.{line_at};
ghost use Rattle.directory.specs.Lines.{known_at};
ghost use Rattle.event_stream.specs.Noted as noted;
ghost use Rattle.text_fields.specs.Pages.{HasLineRoom, Spells, size};
ghost use Rattle.trace_text.specs.Words as words;

use crate::waits::{line_address, size_of};
use coherent_machine::Machine;
use directory::{Directory, Known, Transaction};
use std::io::{Result, Write};
use text_fields::Page;
use tl_types::{Grow, Perm};

fn perm_name(perm: Perm) -> &'static [u8]
    ensures value { result.now ≡ noted.perm_name perm }
    ensures len { length result.now ≤ 8 }
{
    match perm {
        Perm::Nothing => b" Nothing",
        Perm::Branch => b" Branch",
        Perm::Trunk => b" Trunk",
    }
}

/// Whether the hart's ProbeAck is awaited, and the line's end.
fn awaited_end(awaited: bool) -> &'static [u8]
    ensures value { result.now ≡ noted.awaited_end awaited }
    ensures len { length result.now ≤ 9 }
{
    if awaited { b" awaited\n" } else { b"\n" }
}

fn is_permission(perm: Perm) -> bool
    ensures { result ≡ noted.is_permission perm }
{
    match perm {
        Perm::Nothing => false,
        Perm::Branch | Perm::Trunk => true,
    }
}

fn spell_known(page: &mut Page, hart: u8, line: u32, known: Known)
    requires { HasLineRoom page.old }
    ensures { page.new ≡ page.old ++ noted.known_line hart line known }
{
    page.text(b"N ");
    page.number(hart as u64, b' ');
    page.word(line);
    page.text(perm_name(known.perm));
    page.text(awaited_end(known.awaited));
}

/// The record of a hart, where it is one.
fn spell_record(page: &mut Page, hart: u8, line: u32, known: Known)
    requires { HasLineRoom page.old }
    ensures { page.new ≡ page.old ++ noted.record_line hart line known }
{
    if is_permission(known.perm) || known.awaited {
        spell_known(page, hart, line, known);
    }
}

fn spell_record_at(page: &mut Page, machine: &Machine, number: u32, hart: u8)
    requires room { HasLineRoom page.old }
    requires few { number < 65536 }
    requires line { number < length machine.now.views.notes.lines }
    requires hart { hart < machine.now.views.notes.harts }
    ensures { page.new ≡ page.old ++ noted.record_at machine.now number hart }
{
    let known = machine.views().directory().known(number, hart);
    spell_record(page, hart, line_address(size_of(machine), number), known);
}

/// The records of a line, hart by hart.
fn put_records<W: Write>(page: &mut Page, out: &mut W, machine: &Machine, number: u32) -> Result<()>
    requires few { number < 65536 }
    requires line { number < length machine.now.views.notes.lines }
    ensures { Spells (W.contents out.old) (W.contents out.new) page.old page.new (noted.records_of machine.now number) result }
{
    let count = machine.views().directory().harts();
    let mut hart = 0;
    while hart < count {
        page.make_room(out)?;
        spell_record_at(page, machine, number, hart);
        hart += 1;
    }
    Ok(())
}

pub(crate) fn grow_name(grow: Grow) -> &'static [u8]
    ensures value { result.now ≡ words.grow grow }
    ensures len { length result.now ≤ 5 }
{
    match grow {
        Grow::NtoB => b" NtoB",
        Grow::NtoT => b" NtoT",
        Grow::BtoT => b" BtoT",
    }
}

fn spell_probing(page: &mut Page, line: u32, hart: u8, grow: Grow)
    requires { HasLineRoom page.old }
    ensures { page.new ≡ page.old ++ noted.transaction_line line (Transaction.Probing hart grow) }
{
    page.text(b"G ");
    page.number(hart as u64, b' ');
    page.word(line);
    page.text(b" Probing");
    page.text(grow_name(grow));
    page.text(b"\n");
}

fn spell_granted(page: &mut Page, line: u32, hart: u8)
    requires { HasLineRoom page.old }
    ensures { page.new ≡ page.old ++ noted.transaction_line line (Transaction.Granted hart) }
{
    page.text(b"G ");
    page.number(hart as u64, b' ');
    page.word(line);
    page.text(b" Granted\n");
}

fn spell_transaction(page: &mut Page, line: u32, transaction: Transaction)
    requires { HasLineRoom page.old }
    ensures { page.new ≡ page.old ++ noted.transaction_line line transaction }
{
    match transaction {
        Transaction::Idle => {}
        Transaction::Probing(hart, grow) => spell_probing(page, line, hart, grow),
        Transaction::Granted(hart) => spell_granted(page, line, hart),
    }
}

fn spell_transaction_at(page: &mut Page, machine: &Machine, number: u32)
    requires room { HasLineRoom page.old }
    requires few { number < 65536 }
    requires line { number < length machine.now.views.notes.lines }
    ensures { page.new ≡ page.old ++ noted.transaction_at machine.now number }
{
    let transaction = machine.views().directory().transaction(number);
    spell_transaction(page, line_address(size_of(machine), number), transaction);
}

fn put_transaction<W: Write>(
    page: &mut Page,
    out: &mut W,
    machine: &Machine,
    number: u32,
) -> Result<()>
    requires few { number < 65536 }
    requires line { number < length machine.now.views.notes.lines }
    ensures { Spells (W.contents out.old) (W.contents out.new) page.old page.new (noted.transaction_at machine.now number) result }
{
    page.make_room(out)?;
    spell_transaction_at(page, machine, number);
    Ok(())
}

/// The records and the transaction of a line.
fn put_notes<W: Write>(page: &mut Page, out: &mut W, machine: &Machine, number: u32) -> Result<()>
    requires few { number < 65536 }
    requires line { number < length machine.now.views.notes.lines }
    ensures { Spells (W.contents out.old) (W.contents out.new) page.old page.new (noted.noted_at machine.now number) result }
{
    put_records(page, out, machine, number)?;
    put_transaction(page, out, machine, number)
}

/// What the manager notes, line by line.
pub(crate) fn put_noted<W: Write>(page: &mut Page, out: &mut W, machine: &Machine) -> Result<()>
    requires { length machine.now.views.notes.lines ≡ length machine.now.views.memory }
    ensures { Spells (W.contents out.old) (W.contents out.new) page.old page.new (noted.noted_lines machine.now) result }
{
    let count = machine.views().memory().line_count();
    let mut number = 0;
    while number < count {
        put_notes(page, out, machine, number)?;
        number += 1;
    }
    Ok(())
}
