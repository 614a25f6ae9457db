//! Writing what a hart's next step waits for.
ghost use Rattle.std.specs.Prelude.{◌≡◌, ◌+◌, ◌<◌, ◌*◌, ◌++◌, length};
ghost use Rattle.std.specs.List.{flat_map};
ghost use Rattle.elf_loader.specs.Size.{base};
ghost use Rattle.event_stream.specs.Closing as closing;
ghost use Rattle.machine_model.specs.Ready.{shape_of};
ghost use Rattle.machine_model.specs.Views.{line_size};
ghost use Rattle.client_cache.specs.Shape.{set_of};
ghost use Rattle.text_fields.specs.Pages.{HasLineRoom, Spells};
ghost use Rattle.tl_types.specs.Line.{length_of};

use client_cache::ClientCache;
use coherent_machine::Machine;
use elf_loader::BASE;
use machine_types::Outcome;
use std::io::{Result, Write};
use store_buffer::{Entry, StoreBuffer};
use text_fields::Page;
use tl_types::LineSize;

/// The address that the hart's next instruction reads or writes.
pub fn next_address(machine: &Machine, hart: usize) -> Option<u32>
    requires { hart < length machine.now.views.nodes }
    ensures { result ≡ closing.next_address machine.now hart }
{
    match machine
        .views()
        .hart(hart)
        .next_action(machine.trace().image())
    {
        Some(action) => action.address(),
        None => None,
    }
}

fn spell_address(page: &mut Page, address: u32)
    requires { HasLineRoom page.old }
    ensures { page.new ≡ page.old ++ closing.address address }
{
    page.text(b" ");
    page.word(address);
}

fn spell_entry(page: &mut Page, entry: &Entry)
    requires { HasLineRoom page.old }
    ensures { page.new ≡ page.old ++ closing.entry_word entry.now }
{
    spell_address(page, entry.word);
}

fn put_entries<W: Write>(page: &mut Page, out: &mut W, entries: &[Entry]) -> Result<()>
    ensures { Spells (W.contents out.old) (W.contents out.new) page.old page.new (flat_map closing.entry_word entries.now) result }
{
    for entry in entries {
        page.make_room(out)?;
        spell_entry(page, entry);
    }
    Ok(())
}

/// The words of the stores that wait, those of the oldest group first.
fn put_words<W: Write>(page: &mut Page, out: &mut W, buffer: &StoreBuffer) -> Result<()>
    ensures { Spells (W.contents out.old) (W.contents out.new) page.old page.new (closing.waiting_words buffer.now) result }
{
    let count = buffer.group_count();
    let mut index = 0;
    while index < count {
        put_entries(page, out, buffer.group(index))?;
        index += 1;
    }
    Ok(())
}

/// Whether the line takes a way of its set.
fn takes_way(cache: &ClientCache, line: u32) -> bool
    ensures { result ≡ closing.takes_way cache.now line }
{
    cache.copy(line).is_some() || cache.is_acquiring(line)
}

/// How many bytes a line of the machine has.
pub(crate) fn size_of(machine: &Machine) -> LineSize
    ensures { result ≡ line_size machine.now }
{
    machine.views().config().line
}

/// The address of memory's line of this number.
pub(crate) fn line_address(size: LineSize, number: u32) -> u32
    requires { number < 65536 }
    ensures { result ≡ base + number * length_of size }
{
    match size {
        LineSize::Bytes16 => BASE + number * 16,
        LineSize::Bytes64 => BASE + number * 64,
    }
}

/// The set of a cache that a line belongs to.
fn set_of(machine: &Machine, line: u32) -> u32
    requires { 0 < machine.now.views.config.sets }
    ensures { result ≡ set_of (shape_of machine.now) line }
{
    line / size_of(machine).bytes() % machine.views().config().sets
}

/// Whether a line takes a way of the set of the line that is wanted.
fn takes_way_beside(machine: &Machine, cache: &ClientCache, wanted: u32, line: u32) -> bool
    requires { 0 < machine.now.views.config.sets }
    ensures { result ≡ closing.takes_way_beside machine.now cache.now wanted line }
{
    set_of(machine, line) == set_of(machine, wanted) && takes_way(cache, line)
}

/// Memory's line of this number, where it takes a way of the set.
fn spell_way(page: &mut Page, machine: &Machine, cache: &ClientCache, wanted: u32, number: u32)
    requires room { HasLineRoom page.old }
    requires sets { 0 < machine.now.views.config.sets }
    requires few { number < 65536 }
    ensures { page.new ≡ page.old ++ closing.way_of_set machine.now cache.now wanted number }
{
    let line = line_address(size_of(machine), number);
    if takes_way_beside(machine, cache, wanted, line) {
        spell_address(page, line);
    }
}

/// The lines that take the ways of the wanted line's set, the lowest first.
fn put_ways<W: Write>(
    page: &mut Page,
    out: &mut W,
    machine: &Machine,
    cache: &ClientCache,
    wanted: u32,
) -> Result<()>
    requires { 0 < machine.now.views.config.sets }
    ensures { Spells (W.contents out.old) (W.contents out.new) page.old page.new (closing.ways_of_set machine.now cache.now wanted) result }
{
    let count = machine.views().memory().line_count();
    let mut number = 0;
    while number < count {
        page.make_room(out)?;
        spell_way(page, machine, cache, wanted, number);
        number += 1;
    }
    Ok(())
}

fn put_ways_named<W: Write>(
    page: &mut Page,
    out: &mut W,
    machine: &Machine,
    cache: &ClientCache,
    address: Option<u32>,
) -> Result<()>
    requires { 0 < machine.now.views.config.sets }
    ensures { Spells (W.contents out.old) (W.contents out.new) page.old page.new (closing.ways_named machine.now cache.now address) result }
{
    match address {
        Some(address) => {
            let wanted = size_of(machine).line_of(address);
            put_ways(page, out, machine, cache, wanted)
        }
        None => Ok(()),
    }
}

/// The line that an address lies in, where there is one.
fn spell_line_named(page: &mut Page, machine: &Machine, address: Option<u32>)
    requires { HasLineRoom page.old }
    ensures { page.new ≡ page.old ++ closing.line_named machine.now address }
{
    if let Some(address) = address {
        spell_address(page, size_of(machine).line_of(address));
    }
}

fn put_line_named<W: Write>(
    page: &mut Page,
    out: &mut W,
    machine: &Machine,
    address: Option<u32>,
) -> Result<()>
    ensures { Spells (W.contents out.old) (W.contents out.new) page.old page.new (closing.line_named machine.now address) result }
{
    page.make_room(out)?;
    spell_line_named(page, machine, address);
    Ok(())
}

/// What the hart's next step waits for, where it comes to this.
pub(crate) fn put_waited<W: Write>(
    page: &mut Page,
    out: &mut W,
    machine: &Machine,
    hart: usize,
    outcome: Outcome,
) -> Result<()>
    requires hart { hart < length machine.now.views.nodes }
    requires sets { 0 < machine.now.views.config.sets }
    ensures { Spells (W.contents out.old) (W.contents out.new) page.old page.new (closing.waited machine.now hart outcome) result }
{
    match outcome {
        Outcome::MustDrain | Outcome::BufferFull => {
            put_words(page, out, machine.views().buffer(hart))
        }
        Outcome::SetFull => {
            let address = next_address(machine, hart);
            put_ways_named(page, out, machine, machine.views().cache(hart), address)
        }
        Outcome::WaitGrant | Outcome::WaitRelease => {
            put_line_named(page, out, machine, next_address(machine, hart))
        }
        Outcome::Retired
        | Outcome::Stopped(_)
        | Outcome::Exited(_)
        | Outcome::Drained
        | Outcome::Delivered
        | Outcome::Evicted
        | Outcome::Missed(_)
        | Outcome::Halted
        | Outcome::NoTracker
        | Outcome::NoEntry
        | Outcome::NotOldest
        | Outcome::Empty
        | Outcome::Busy
        | Outcome::Releasing
        | Outcome::AckFull
        | Outcome::NotHeld
        | Outcome::AcquirePending
        | Outcome::ReleaseFull
        | Outcome::NotLocal => Ok(()),
    }
}
