//! Writing what a machine's harts hold.
ghost use Rattle.std.specs.Prelude.{◌≡◌, ◌+◌, ◌<◌, ◌≤◌, ◌++◌, length, slice_get};
ghost use Rattle.std.specs.List.{flat_map, range_with_len};
ghost use Rattle.event_stream.specs.Holding as holding;
ghost use Rattle.machine_types.specs.declared.limits.TheConstants.{MAX_HARTS};
ghost use Rattle.machine_model.specs.Views.{node_at};
ghost use Rattle.text_fields.specs.Pages.{HasLineRoom, Spells, size};
ghost use Rattle.text_fields.specs.Fields.{hex};
ghost use Rattle.tilelink_channels.specs.Queues.{queue_of};
ghost use Rattle.tl_types.specs.Line.{bytes_of};
ghost use Rattle.trace_text.specs.Words as words;

use crate::waits::{line_address, size_of};
use assembly::register;
use client_cache::{ClientCache, Held};
use coherent_machine::Machine;
use hart::Hart;
use rv32_decode::Register;
use rv32_exec::Regs;
use std::io::{Result, Write};
use store_buffer::{Entry, StoreBuffer};
use text_fields::Page;
use tilelink_channels::Queues;
use tl_types::{Channel, LineData, Msg};
use trace_text::spell_message;

/// A name with a number.
fn spell_value(page: &mut Page, hart: u8, name: &[u8], value: u32)
    requires room { HasLineRoom page.old }
    requires short { length name.now ≤ 4 }
    ensures { page.new ≡ page.old ++ holding.value_line hart name.now value }
{
    page.text(b"X ");
    page.number(hart as u64, b' ');
    page.text(name);
    page.text(b" ");
    page.word(value);
    page.text(b"\n");
}

fn spell_register(page: &mut Page, hart: u8, registers: &Regs, number: u8)
    requires room { HasLineRoom page.old }
    requires inside { number < 32 }
    ensures { page.new ≡ page.old ++ holding.register_line hart registers.now number }
{
    let place = Register::new(number);
    let value = registers.get(place);
    if value != 0 {
        spell_value(page, hart, register(place), value);
    }
}

fn put_file<W: Write>(page: &mut Page, out: &mut W, hart: u8, registers: &Regs) -> Result<()>
    ensures { Spells (W.contents out.old) (W.contents out.new) page.old page.new (flat_map (holding.register_line hart registers.now) (range_with_len 0 32)) result }
{
    let mut number: u8 = 0;
    while number < 32 {
        page.make_room(out)?;
        spell_register(page, hart, registers, number);
        number += 1;
    }
    Ok(())
}

/// The pc, and the registers that aren't zero.
fn put_registers<W: Write>(page: &mut Page, out: &mut W, id: u8, hart: &Hart) -> Result<()>
    ensures { Spells (W.contents out.old) (W.contents out.new) page.old page.new (holding.registers id hart.now) result }
{
    page.make_room(out)?;
    spell_value(page, id, b"pc", hart.pc);
    put_file(page, out, id, &hart.regs)
}

fn spell_byte(page: &mut Page, entry: &Entry, place: usize)
    requires room { length page.old + 2 ≤ size }
    requires inside { place < 4 }
    ensures value { page.new ≡ page.old ++ holding.byte_text entry.now place }
    ensures len { length page.new ≤ length page.old + 2 }
{
    if entry.mask.marks()[place] {
        page.hex(&entry.bytes[place..place + 1]);
    } else {
        page.text(b"--");
    }
}

fn spell_entry(page: &mut Page, hart: u8, group: u64, entry: &Entry)
    requires { HasLineRoom page.old }
    ensures { page.new ≡ page.old ++ holding.entry_line hart group entry.now }
{
    page.text(b"B ");
    page.number(hart as u64, b' ');
    page.number(group, b' ');
    page.word(entry.word);
    page.text(b" ");
    spell_byte(page, entry, 0);
    spell_byte(page, entry, 1);
    spell_byte(page, entry, 2);
    spell_byte(page, entry, 3);
    page.text(b"\n");
}

fn put_group<W: Write>(
    page: &mut Page,
    out: &mut W,
    hart: u8,
    group: u64,
    entries: &[Entry],
) -> Result<()>
    ensures { Spells (W.contents out.old) (W.contents out.new) page.old page.new (holding.group_lines hart group entries.now) result }
{
    for entry in entries {
        page.make_room(out)?;
        spell_entry(page, hart, group, entry);
    }
    Ok(())
}

/// The stores that wait, group by group.
fn put_buffer<W: Write>(page: &mut Page, out: &mut W, hart: u8, buffer: &StoreBuffer) -> Result<()>
    ensures { Spells (W.contents out.old) (W.contents out.new) page.old page.new (holding.buffer_lines hart buffer.now) result }
{
    let count = buffer.group_count();
    let mut index = 0;
    while index < count {
        put_group(page, out, hart, index as u64, buffer.group(index))?;
        index += 1;
    }
    Ok(())
}

/// A letter, a hart and an address.
fn spell_address_line(page: &mut Page, letter: &[u8], hart: u8, address: u32)
    requires room { length page.old + 34 ≤ size }
    requires short { length letter.now ≤ 2 }
    ensures value { page.new ≡ page.old ++ holding.address_line letter.now hart address }
    ensures len { length page.new ≤ length page.old + 34 }
{
    page.text(letter);
    page.number(hart as u64, b' ');
    page.word(address);
    page.text(b"\n");
}

fn put_reservation<W: Write>(
    page: &mut Page,
    out: &mut W,
    hart: u8,
    reserved: Option<u32>,
) -> Result<()>
    ensures { Spells (W.contents out.old) (W.contents out.new) page.old page.new (holding.reservation_line hart reserved) result }
{
    page.make_room(out)?;
    spell_reservation(page, hart, reserved);
    Ok(())
}

fn spell_reservation(page: &mut Page, hart: u8, reserved: Option<u32>)
    requires { HasLineRoom page.old }
    ensures { page.new ≡ page.old ++ holding.reservation_line hart reserved }
{
    if let Some(word) = reserved {
        spell_address_line(page, b"L ", hart, word);
    }
}

fn held_name(held: &Held) -> &'static [u8]
    ensures value { result.now ≡ holding.held_name held.now }
    ensures len { length result.now ≤ 13 }
{
    match held {
        Held::Branch(_) => b" Branch ",
        Held::Trunk { dirty: false, .. } => b" Trunk ",
        Held::Trunk { dirty: true, .. } => b" dirty Trunk ",
    }
}

/// A line's bytes.
pub(crate) fn spell_bytes(page: &mut Page, bytes: &LineData)
    requires { length page.old + 128 ≤ size }
    ensures value { page.new ≡ page.old ++ hex (bytes_of bytes.now) }
    ensures len { length page.new ≤ length page.old + 128 }
{
    match bytes {
        LineData::Bytes16(bytes) => page.hex(bytes),
        LineData::Bytes64(bytes) => page.hex(bytes),
    }
}

fn spell_copy(page: &mut Page, hart: u8, line: u32, copy: Option<Held>)
    requires { length page.old + 175 ≤ size }
    ensures value { page.new ≡ page.old ++ holding.copy_line hart line copy }
    ensures len { length page.new ≤ length page.old + 175 }
{
    if let Some(held) = copy {
        page.text(b"C ");
        page.number(hart as u64, b' ');
        page.word(line);
        page.text(held_name(&held));
        spell_bytes(page, &held.bytes());
        page.text(b"\n");
    }
}

fn spell_if(page: &mut Page, is_so: bool, letter: &[u8], hart: u8, line: u32)
    requires room { length page.old + 34 ≤ size }
    requires short { length letter.now ≤ 2 }
    ensures value { page.new ≡ page.old ++ holding.if_so is_so (holding.address_line letter.now hart line) }
    ensures len { length page.new ≤ length page.old + 34 }
{
    if is_so {
        spell_address_line(page, letter, hart, line);
    }
}

/// What a cache has to do with a line.
fn spell_line(page: &mut Page, hart: u8, cache: &ClientCache, line: u32)
    requires { HasLineRoom page.old }
    ensures { page.new ≡ page.old ++ holding.cache_line hart cache.now line }
{
    spell_copy(page, hart, line, cache.copy(line));
    spell_if(page, cache.is_acquiring(line), b"A ", hart, line);
    spell_if(page, cache.is_releasing(line), b"U ", hart, line);
}

fn spell_line_at(page: &mut Page, machine: &Machine, hart: u8, cache: &ClientCache, number: u32)
    requires room { HasLineRoom page.old }
    requires few { number < 65536 }
    ensures { page.new ≡ page.old ++ holding.line_in_cache machine.now hart cache.now number }
{
    spell_line(page, hart, cache, line_address(size_of(machine), number));
}

/// The copies with their bytes, and the outstanding Acquires and unanswered Releases, by line.
fn put_cache<W: Write>(
    page: &mut Page,
    out: &mut W,
    machine: &Machine,
    hart: u8,
    cache: &ClientCache,
) -> Result<()>
    ensures { Spells (W.contents out.old) (W.contents out.new) page.old page.new (holding.cache_lines machine.now hart cache.now) result }
{
    let count = machine.views().memory().line_count();
    let mut number = 0;
    while number < count {
        page.make_room(out)?;
        spell_line_at(page, machine, hart, cache, number);
        number += 1;
    }
    Ok(())
}

fn letter(channel: Channel) -> &'static [u8]
    ensures value { result.now ≡ words.channel channel }
    ensures len { length result.now ≤ 2 }
{
    match channel {
        Channel::A => b"A ",
        Channel::B => b"B ",
        Channel::C => b"C ",
        Channel::D => b"D ",
        Channel::E => b"E ",
    }
}

fn spell_waiting(page: &mut Page, hart: u8, channel: Channel, message: &Msg)
    requires { HasLineRoom page.old }
    ensures { page.new ≡ page.old ++ holding.message_line hart channel message.now }
{
    page.text(b"Q ");
    page.text(letter(channel));
    page.number(hart as u64, b' ');
    spell_message(page, message);
    page.text(b"\n");
}

fn spell_waiting_at(page: &mut Page, hart: u8, channel: Channel, queues: &Queues, place: usize)
    requires { HasLineRoom page.old }
    ensures { page.new ≡ page.old ++ holding.message_if hart channel (slice_get (queue_of queues.now channel) place) }
{
    if let Some(message) = queues.get(channel, place) {
        spell_waiting(page, hart, channel, &message);
    }
}

/// The messages that wait on a channel, the first sent first.
fn put_queue<W: Write>(
    page: &mut Page,
    out: &mut W,
    hart: u8,
    channel: Channel,
    queues: &Queues,
) -> Result<()>
    ensures { Spells (W.contents out.old) (W.contents out.new) page.old page.new (holding.queue_lines hart channel queues.now) result }
{
    let count = queues.len(channel);
    let mut place = 0;
    while place < count {
        page.make_room(out)?;
        spell_waiting_at(page, hart, channel, queues, place);
        place += 1;
    }
    Ok(())
}

/// The messages that wait on these channels.
fn put_queues<W: Write>(
    page: &mut Page,
    out: &mut W,
    hart: u8,
    queues: &Queues,
    channels: &[Channel],
) -> Result<()>
    ensures { Spells (W.contents out.old) (W.contents out.new) page.old page.new (flat_map (holding.waiting_lines hart queues.now) channels.now) result }
{
    for channel in channels {
        put_queue(page, out, hart, *channel, queues)?;
    }
    Ok(())
}

fn put_own_registers<W: Write>(
    page: &mut Page,
    out: &mut W,
    machine: &Machine,
    hart: u8,
) -> Result<()>
    requires { hart < length machine.now.views.nodes }
    ensures { Spells (W.contents out.old) (W.contents out.new) page.old page.new (holding.registers hart (node_at machine.now hart).hart) result }
{
    put_registers(page, out, hart, machine.views().hart(hart as usize))
}

fn put_own_buffer<W: Write>(page: &mut Page, out: &mut W, machine: &Machine, hart: u8) -> Result<()>
    requires { hart < length machine.now.views.nodes }
    ensures { Spells (W.contents out.old) (W.contents out.new) page.old page.new (holding.buffer_lines hart (node_at machine.now hart).buffer) result }
{
    put_buffer(page, out, hart, machine.views().buffer(hart as usize))
}

fn put_own_reservation<W: Write>(
    page: &mut Page,
    out: &mut W,
    machine: &Machine,
    hart: u8,
) -> Result<()>
    requires { hart < length machine.now.views.nodes }
    ensures { Spells (W.contents out.old) (W.contents out.new) page.old page.new (holding.reservation_line hart (node_at machine.now hart).reserved) result }
{
    put_reservation(page, out, hart, machine.views().reserved(hart as usize))
}

fn put_own_cache<W: Write>(page: &mut Page, out: &mut W, machine: &Machine, hart: u8) -> Result<()>
    requires { hart < length machine.now.views.nodes }
    ensures { Spells (W.contents out.old) (W.contents out.new) page.old page.new (holding.cache_lines machine.now hart (node_at machine.now hart).cache) result }
{
    put_cache(
        page,
        out,
        machine,
        hart,
        machine.views().cache(hart as usize),
    )
}

fn put_own_queues<W: Write>(page: &mut Page, out: &mut W, machine: &Machine, hart: u8) -> Result<()>
    requires { hart < length machine.now.views.nodes }
    ensures { Spells (W.contents out.old) (W.contents out.new) page.old page.new (flat_map (holding.waiting_lines hart (node_at machine.now hart).queues) holding.channels) result }
{
    let channels = [Channel::A, Channel::B, Channel::C, Channel::D, Channel::E];
    put_queues(
        page,
        out,
        hart,
        machine.views().queues(hart as usize),
        &channels,
    )
}

/// All that a hart holds.
fn put_hart<W: Write>(page: &mut Page, out: &mut W, machine: &Machine, hart: u8) -> Result<()>
    requires { hart < length machine.now.views.nodes }
    ensures { Spells (W.contents out.old) (W.contents out.new) page.old page.new (holding.hart_lines machine.now hart) result }
{
    put_own_registers(page, out, machine, hart)?;
    put_own_buffer(page, out, machine, hart)?;
    put_own_reservation(page, out, machine, hart)?;
    put_own_cache(page, out, machine, hart)?;
    put_own_queues(page, out, machine, hart)
}

/// What the harts of a machine hold. What has no room on the page is handed on.
pub(crate) fn put_held<W: Write>(page: &mut Page, out: &mut W, machine: &Machine) -> Result<()>
    requires { length machine.now.views.nodes ≤ MAX_HARTS }
    ensures { Spells (W.contents out.old) (W.contents out.new) page.old page.new (holding.held_lines machine.now) result }
{
    let count = machine.views().harts();
    let mut number = 0;
    while number < count {
        put_hart(page, out, machine, number as u8)?;
        number += 1;
    }
    Ok(())
}
