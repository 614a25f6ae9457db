//! Keeping the values of what an event may change.
ghost use Rattle.std.specs.Prelude.{◌≡◌, ◌++◌, ◌∷◌, [], OnOk, map};
ghost use Rattle.machine_model.specs.Views.{line_size};
ghost use Rattle.run_waves.specs.Telling.{seen_in};
ghost use Rattle.run_waves.specs.Watching as watching;
ghost use Rattle.tl_types.specs.Line.{line_of};

use crate::groups::Group;
use crate::reading::values_of;
use crate::values::Values;
use coherent_machine::Machine;
use machine_types::Event;
use std::alloc::AllocError;
use tl_types::{Channel, Msg};

/// A part of a machine with the values that its signals had.
#[derive(Clone, Copy, Debug)]
pub(crate) struct Seen {
    pub group: Group,
    pub values: Values,
}

fn see(machine: &Machine, group: Group) -> Seen
    ensures { result ≡ seen_in machine.now group }
{
    Seen {
        group,
        values: values_of(machine, group),
    }
}

/// Keeps the values of these parts.
fn keep(seen: &mut Vec<Seen>, machine: &Machine, groups: &[Group]) -> Result<(), AllocError>
    ensures { OnOk result (seen.new.items ≡ seen.old.items ++ map (seen_in machine.now) groups.now) }
{
    for group in groups {
        seen.push(see(machine, *group))?;
    }
    Ok(())
}

/// Keeps what stands in each hart's queue of a channel.
fn keep_queues(seen: &mut Vec<Seen>, machine: &Machine, channel: Channel) -> Result<(), AllocError>
    ensures { OnOk result (seen.new.items ≡ seen.old.items ++ map (seen_in machine.now) (watching.queues_on machine.now channel)) }
{
    let harts = machine.views().directory().harts();
    for hart in 0..harts {
        seen.push(see(machine, Group::Queue { hart, channel }))?;
    }
    Ok(())
}

/// Keeps what the manager notes of each hart for a line.
fn keep_records(seen: &mut Vec<Seen>, machine: &Machine, line: u32) -> Result<(), AllocError>
    ensures { OnOk result (seen.new.items ≡ seen.old.items ++ map (seen_in machine.now) (watching.records_of machine.now line)) }
{
    let harts = machine.views().directory().harts();
    for hart in 0..harts {
        seen.push(see(machine, Group::Record { hart, line }))?;
    }
    Ok(())
}

/// Keeps what the manager notes of a line.
fn keep_notes(seen: &mut Vec<Seen>, machine: &Machine, line: u32) -> Result<(), AllocError>
    ensures { OnOk result (seen.new.items ≡ seen.old.items ++ map (seen_in machine.now) (watching.notes_of machine.now line)) }
{
    keep(seen, machine, &[Group::Transaction { line }])?;
    keep_records(seen, machine, line)
}

/// The message in front of a hart's queue, where there is such a hart.
fn front_at(machine: &Machine, hart: usize, channel: Channel) -> Option<Msg>
    ensures { result ≡ watching.front_at machine.now hart channel }
{
    let views = machine.views();
    if hart < views.harts() {
        views.queues(hart).front(channel)
    } else {
        None
    }
}

/// The address that a hart's next instruction reads or writes, where there is such a hart.
fn address_at(machine: &Machine, hart: usize) -> Option<u32>
    ensures { result ≡ watching.next_address machine.now hart }
{
    let views = machine.views();
    if hart >= views.harts() {
        return None;
    }
    match views.hart(hart).next_action(machine.trace().image()) {
        Some(action) => action.address(),
        None => None,
    }
}

/// The line around an address.
fn line_around(machine: &Machine, address: u32) -> u32
    ensures { result ≡ line_of (line_size machine.now) address }
{
    machine.views().config().line.line_of(address)
}

/// Keeps what a hart's cache has of the line around an address, if there is one.
fn keep_around(
    seen: &mut Vec<Seen>,
    machine: &Machine,
    hart: u8,
    address: Option<u32>,
) -> Result<(), AllocError>
    ensures { OnOk result (seen.new.items ≡ seen.old.items ++ map (seen_in machine.now) (watching.copy_around machine.now hart address)) }
{
    match address {
        Some(address) => {
            let line = line_around(machine, address);
            keep(seen, machine, &[Group::Copy { hart, line }])
        }
        None => Ok(()),
    }
}

/// Keeps what a step may change.
fn keep_step(seen: &mut Vec<Seen>, machine: &Machine, hart: u8) -> Result<(), AllocError>
    ensures { OnOk result (seen.new.items ≡ seen.old.items ++ map (seen_in machine.now) (watching.by_step machine.now hart)) }
{
    let channel = Channel::A;
    let groups = [Group::Hart { hart }, Group::Queue { hart, channel }];
    keep(seen, machine, &groups)?;
    keep_around(seen, machine, hart, address_at(machine, hart as usize))
}

/// Keeps what a drain of a word may change.
fn keep_drain(
    seen: &mut Vec<Seen>,
    machine: &Machine,
    hart: u8,
    word: u32,
) -> Result<(), AllocError>
    ensures { OnOk result (seen.new.items ≡ seen.old.items ++ map (seen_in machine.now) (watching.by_drain machine.now hart word)) }
{
    let channel = Channel::A;
    let line = line_around(machine, word);
    keep(
        seen,
        machine,
        &[
            Group::Hart { hart },
            Group::Queue { hart, channel },
            Group::Copy { hart, line },
        ],
    )
}

/// Keeps what an eviction of a line may change.
fn keep_eviction(
    seen: &mut Vec<Seen>,
    machine: &Machine,
    hart: u8,
    line: u32,
) -> Result<(), AllocError>
    ensures { OnOk result (seen.new.items ≡ seen.old.items ++ map (seen_in machine.now) (watching.by_eviction hart line)) }
{
    let channel = Channel::C;
    keep(
        seen,
        machine,
        &[
            Group::Hart { hart },
            Group::Queue { hart, channel },
            Group::Copy { hart, line },
        ],
    )
}

/// Keeps what an Acquire may change.
fn keep_acquire(
    seen: &mut Vec<Seen>,
    machine: &Machine,
    hart: u8,
    line: u32,
) -> Result<(), AllocError>
    ensures { OnOk result (seen.new.items ≡ seen.old.items ++ map (seen_in machine.now) (watching.by_acquire machine.now hart line)) }
{
    let groups = [
        Group::Queue {
            hart,
            channel: Channel::A,
        },
        Group::Queue {
            hart,
            channel: Channel::D,
        },
    ];
    keep(seen, machine, &groups)?;
    keep_queues(seen, machine, Channel::B)?;
    keep_notes(seen, machine, line)
}

/// Keeps what a Probe may change.
fn keep_probe(
    seen: &mut Vec<Seen>,
    machine: &Machine,
    hart: u8,
    line: u32,
) -> Result<(), AllocError>
    ensures { OnOk result (seen.new.items ≡ seen.old.items ++ map (seen_in machine.now) (watching.by_probe hart line)) }
{
    let groups = [
        Group::Hart { hart },
        Group::Queue {
            hart,
            channel: Channel::B,
        },
        Group::Queue {
            hart,
            channel: Channel::C,
        },
        Group::Copy { hart, line },
    ];
    keep(seen, machine, &groups)
}

/// Keeps what a ProbeAck or a Release may change.
fn keep_release(
    seen: &mut Vec<Seen>,
    machine: &Machine,
    hart: u8,
    line: u32,
) -> Result<(), AllocError>
    ensures { OnOk result (seen.new.items ≡ seen.old.items ++ map (seen_in machine.now) (watching.by_release machine.now hart line)) }
{
    let channel = Channel::C;
    keep(seen, machine, &[Group::Queue { hart, channel }])?;
    keep_queues(seen, machine, Channel::D)?;
    keep_notes(seen, machine, line)
}

/// Keeps what a Grant or a ReleaseAck may change.
fn keep_grant(
    seen: &mut Vec<Seen>,
    machine: &Machine,
    hart: u8,
    line: u32,
) -> Result<(), AllocError>
    ensures { OnOk result (seen.new.items ≡ seen.old.items ++ map (seen_in machine.now) (watching.by_grant hart line)) }
{
    let groups = [
        Group::Queue {
            hart,
            channel: Channel::D,
        },
        Group::Queue {
            hart,
            channel: Channel::E,
        },
        Group::Copy { hart, line },
    ];
    keep(seen, machine, &groups)
}

/// Keeps what a GrantAck may change.
fn keep_grant_ack(
    seen: &mut Vec<Seen>,
    machine: &Machine,
    hart: u8,
    line: u32,
) -> Result<(), AllocError>
    ensures { OnOk result (seen.new.items ≡ seen.old.items ++ map (seen_in machine.now) (watching.by_grant_ack hart line)) }
{
    let channel = Channel::E;
    let groups = [Group::Queue { hart, channel }, Group::Transaction { line }];
    keep(seen, machine, &groups)
}

/// Keeps what a message that is taken may change.
fn keep_message(
    seen: &mut Vec<Seen>,
    machine: &Machine,
    channel: Channel,
    hart: u8,
    line: u32,
) -> Result<(), AllocError>
    ensures { OnOk result (seen.new.items ≡ seen.old.items ++ map (seen_in machine.now) (watching.by_message machine.now channel hart line)) }
{
    match channel {
        Channel::A => keep_acquire(seen, machine, hart, line),
        Channel::B => keep_probe(seen, machine, hart, line),
        Channel::C => keep_release(seen, machine, hart, line),
        Channel::D => keep_grant(seen, machine, hart, line),
        Channel::E => keep_grant_ack(seen, machine, hart, line),
    }
}

/// Keeps what a delivery may change.
fn keep_delivery(
    seen: &mut Vec<Seen>,
    machine: &Machine,
    channel: Channel,
    hart: u8,
) -> Result<(), AllocError>
    ensures { OnOk result (seen.new.items ≡ seen.old.items ++ map (seen_in machine.now) (watching.by_delivery machine.now channel hart)) }
{
    match front_at(machine, hart as usize, channel) {
        Some(message) => keep_message(seen, machine, channel, hart, message.line),
        None => Ok(()),
    }
}

/// Keeps the values of all that an event may change.
pub(crate) fn keep_watched(
    seen: &mut Vec<Seen>,
    machine: &Machine,
    event: Event,
) -> Result<(), AllocError>
    ensures { OnOk result (seen.new.items ≡ seen.old.items ++ map (seen_in machine.now) (watching.watched machine.now event)) }
{
    match event {
        Event::Step { hart } => keep_step(seen, machine, hart),
        Event::Drain { hart, word } => keep_drain(seen, machine, hart, word),
        Event::Evict { hart, line } => keep_eviction(seen, machine, hart, line),
        Event::Deliver { channel, hart } => keep_delivery(seen, machine, channel, hart),
        Event::Local { hart, .. } => keep(seen, machine, &[Group::Hart { hart }]),
    }
}
