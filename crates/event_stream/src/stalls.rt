//! Writing what a message waits for that can't be taken yet.
ghost use Rattle.std.specs.Prelude.{◌≡◌, ◌+◌, ◌<◌, ◌≤◌, ◌++◌, length, decimal, IfSome};
ghost use Rattle.coherent_machine.specs.Machine.{IsReached};
ghost use Rattle.directory.specs.Lines.{known_at};
ghost use Rattle.elf_loader.specs.Size.{base};
ghost use Rattle.event_stream.specs.Stalls as stalls;
ghost use Rattle.machine_model.specs.Views.{place_of};
ghost use Rattle.text_fields.specs.Pages.{HasLineRoom, Spells, size};

use crate::noting::grow_name;
use crate::report::hart_of;
use crate::waits::size_of;
use coherent_machine::Machine;
use directory::{Known, Transaction};
use elf_loader::BASE;
use machine_model::sound_always;
use machine_types::{Event, Outcome};
use std::io::{Result, Write};
use text_fields::Page;
use tl_types::{Channel, Grow, LineSize};

/// The line of the message in front of a hart's queue of a channel; of a hart that isn't there, none.
fn front_line(machine: &Machine, hart: usize, channel: Channel) -> Option<u32>
    requires { IsReached machine.now }
    ensures value { result ≡ stalls.front_line machine.now hart channel }
    ensures noted { IfSome result (λ line. stalls.IsNoted machine.now line) }
{
    sound_always();
    if hart < machine.views().harts() {
        match machine.views().queues(hart).front(channel) {
            Some(message) => Some(message.line),
            None => None,
        }
    } else {
        None
    }
}

/// The place in memory, counted by lines, of the line at this address.
fn place_of(size: LineSize, line: u32) -> u32
    requires { base ≤ line }
    ensures { result ≡ place_of size line }
{
    (line - BASE) / size.bytes()
}

fn spell_probing(page: &mut Page, hart: u8, grow: Grow)
    requires { length page.old + 40 ≤ size }
    ensures { page.new ≡ page.old ++ stalls.transaction_text (Transaction.Probing hart grow) }
{
    page.text(b" Probing ");
    page.decimal(hart as u64);
    page.text(grow_name(grow));
}

fn spell_granted(page: &mut Page, hart: u8)
    requires { length page.old + 40 ≤ size }
    ensures { page.new ≡ page.old ++ stalls.transaction_text (Transaction.Granted hart) }
{
    page.text(b" Granted ");
    page.decimal(hart as u64);
}

fn spell_transaction(page: &mut Page, transaction: Transaction)
    requires { length page.old + 40 ≤ size }
    ensures { page.new ≡ page.old ++ stalls.transaction_text transaction }
{
    match transaction {
        Transaction::Idle => {}
        Transaction::Probing(hart, grow) => spell_probing(page, hart, grow),
        Transaction::Granted(hart) => spell_granted(page, hart),
    }
}

/// A line with its transaction.
fn spell_lead(page: &mut Page, line: u32, transaction: Transaction)
    requires { HasLineRoom page.old }
    ensures { page.new ≡ page.old ++ stalls.lead line transaction }
{
    page.text(b" ; ");
    page.word(line);
    spell_transaction(page, transaction);
}

fn put_lead<W: Write>(
    page: &mut Page,
    out: &mut W,
    line: u32,
    transaction: Transaction,
) -> Result<()>
    ensures { Spells (W.contents out.old) (W.contents out.new) page.old page.new (stalls.lead line transaction) result }
{
    page.make_room(out)?;
    spell_lead(page, line, transaction);
    Ok(())
}

/// The transaction of the line at this address.
fn transaction_of(machine: &Machine, line: u32) -> Transaction
    requires { stalls.IsNoted machine.now line }
    ensures { result ≡ (stalls.notes_at machine.now line).transaction }
{
    machine
        .views()
        .directory()
        .transaction(place_of(size_of(machine), line))
}

/// What is noted of a hart for the line at this address.
fn known_of(machine: &Machine, line: u32, hart: u8) -> Known
    requires line { stalls.IsNoted machine.now line }
    requires hart { hart < machine.now.views.notes.harts }
    ensures { result ≡ known_at (stalls.notes_at machine.now line) hart }
{
    machine
        .views()
        .directory()
        .known(place_of(size_of(machine), line), hart)
}

fn spell_hart(page: &mut Page, hart: u8)
    requires { HasLineRoom page.old }
    ensures { page.new ≡ page.old ++ stalls.hart_text hart }
{
    page.text(b" ");
    page.decimal(hart as u64);
}

fn spell_probed(page: &mut Page, hart: u8, known: Known)
    requires { HasLineRoom page.old }
    ensures { page.new ≡ page.old ++ stalls.probed_text known hart }
{
    if known.awaited {
        spell_hart(page, hart);
    }
}

/// A hart, where its ProbeAck of the line at this address is awaited.
fn spell_probed_hart(page: &mut Page, machine: &Machine, line: u32, hart: u8)
    requires room { HasLineRoom page.old }
    requires line { stalls.IsNoted machine.now line }
    requires hart { hart < machine.now.views.notes.harts }
    ensures { page.new ≡ page.old ++ stalls.probed_hart (stalls.notes_at machine.now line) hart }
{
    spell_probed(page, hart, known_of(machine, line, hart));
}

/// The harts whose ProbeAck of the line at this address is awaited.
fn put_probed<W: Write>(page: &mut Page, out: &mut W, machine: &Machine, line: u32) -> Result<()>
    requires { stalls.IsNoted machine.now line }
    ensures { Spells (W.contents out.old) (W.contents out.new) page.old page.new (stalls.probed_harts machine.now line) result }
{
    let count = machine.views().directory().harts();
    let mut hart = 0;
    while hart < count {
        page.make_room(out)?;
        spell_probed_hart(page, machine, line, hart);
        hart += 1;
    }
    Ok(())
}

/// A message and its hart.
fn spell_message_of(page: &mut Page, message: &[u8], hart: u8)
    requires room { HasLineRoom page.old }
    requires short { length message.now ≤ 20 }
    ensures { page.new ≡ page.old ++ (message.now ++ decimal hart) }
{
    page.text(message);
    page.decimal(hart as u64);
}

/// A message that is awaited of a hart.
fn put_message_of<W: Write>(page: &mut Page, out: &mut W, message: &[u8], hart: u8) -> Result<()>
    requires { length message.now ≤ 20 }
    ensures { Spells (W.contents out.old) (W.contents out.new) page.old page.new (message.now ++ decimal hart) result }
{
    page.make_room(out)?;
    spell_message_of(page, message, hart);
    Ok(())
}

/// ProbeAcks of the harts that were probed.
fn put_probe_acks<W: Write>(
    page: &mut Page,
    out: &mut W,
    machine: &Machine,
    line: u32,
) -> Result<()>
    requires { stalls.IsNoted machine.now line }
    ensures { Spells (W.contents out.old) (W.contents out.new) page.old page.new (stalls.probe_acks machine.now line) result }
{
    page.make_room(out)?;
    page.text(b" awaits ProbeAck");
    put_probed(page, out, machine, line)
}

/// What ends a transaction of the line at this address.
fn put_awaited_by<W: Write>(
    page: &mut Page,
    out: &mut W,
    machine: &Machine,
    line: u32,
    transaction: Transaction,
) -> Result<()>
    requires { stalls.IsNoted machine.now line }
    ensures { Spells (W.contents out.old) (W.contents out.new) page.old page.new (stalls.awaited_by machine.now line transaction) result }
{
    match transaction {
        Transaction::Idle => Ok(()),
        Transaction::Probing(..) => put_probe_acks(page, out, machine, line),
        Transaction::Granted(hart) => put_message_of(page, out, b" awaits GrantAck ", hart),
    }
}

/// A line with its transaction, and what ends that.
fn put_until_idle<W: Write>(
    page: &mut Page,
    out: &mut W,
    machine: &Machine,
    line: u32,
    transaction: Transaction,
) -> Result<()>
    requires { stalls.IsNoted machine.now line }
    ensures { Spells (W.contents out.old) (W.contents out.new) page.old page.new (stalls.until_idle machine.now line transaction) result }
{
    put_lead(page, out, line, transaction)?;
    put_awaited_by(page, out, machine, line, transaction)
}

/// What an Acquire of this line waits for.
fn put_busy<W: Write>(
    page: &mut Page,
    out: &mut W,
    machine: &Machine,
    line: Option<u32>,
) -> Result<()>
    requires { IfSome line (λ l. stalls.IsNoted machine.now l) }
    ensures { Spells (W.contents out.old) (W.contents out.new) page.old page.new (stalls.busy machine.now line) result }
{
    match line {
        Some(line) => {
            let transaction = transaction_of(machine, line);
            put_until_idle(page, out, machine, line, transaction)
        }
        None => Ok(()),
    }
}

/// A line with its transaction, and the answer that a hart awaits to its Release.
fn put_until_answered<W: Write>(
    page: &mut Page,
    out: &mut W,
    hart: u8,
    line: u32,
    transaction: Transaction,
) -> Result<()>
    ensures { Spells (W.contents out.old) (W.contents out.new) page.old page.new (stalls.until_answered hart line transaction) result }
{
    put_lead(page, out, line, transaction)?;
    put_message_of(page, out, b" awaits ReleaseAck ", hart)
}

/// What a Probe of this line waits for at a hart.
fn put_releasing<W: Write>(
    page: &mut Page,
    out: &mut W,
    machine: &Machine,
    hart: u8,
    line: Option<u32>,
) -> Result<()>
    requires { IfSome line (λ l. stalls.IsNoted machine.now l) }
    ensures { Spells (W.contents out.old) (W.contents out.new) page.old page.new (stalls.releasing machine.now hart line) result }
{
    match line {
        Some(line) => {
            let transaction = transaction_of(machine, line);
            put_until_answered(page, out, hart, line, transaction)
        }
        None => Ok(()),
    }
}

/// What the message in front of a queue of the event's hart waits for, where the event comes to this.
pub(crate) fn put_stall<W: Write>(
    page: &mut Page,
    out: &mut W,
    machine: &Machine,
    event: Event,
    outcome: Outcome,
) -> Result<()>
    requires { IsReached machine.now }
    ensures { Spells (W.contents out.old) (W.contents out.new) page.old page.new (stalls.stall machine.now event outcome) result }
{
    let hart = hart_of(event);
    match outcome {
        Outcome::Busy => {
            let line = front_line(machine, hart as usize, Channel::A);
            put_busy(page, out, machine, line)
        }
        Outcome::Releasing => {
            let line = front_line(machine, hart as usize, Channel::B);
            put_releasing(page, out, machine, hart, line)
        }
        Outcome::Retired
        | Outcome::Stopped(_)
        | Outcome::Exited(_)
        | Outcome::Drained
        | Outcome::Delivered
        | Outcome::Evicted
        | Outcome::Missed(_)
        | Outcome::Halted
        | Outcome::WaitRelease
        | Outcome::WaitGrant
        | Outcome::NoTracker
        | Outcome::SetFull
        | Outcome::BufferFull
        | Outcome::MustDrain
        | Outcome::NoEntry
        | Outcome::NotOldest
        | Outcome::Empty
        | Outcome::AckFull
        | Outcome::NotHeld
        | Outcome::AcquirePending
        | Outcome::ReleaseFull
        | Outcome::NotLocal => Ok(()),
    }
}
