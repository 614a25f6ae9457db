//! The values of signals: numbers for what the parts of a machine are made of.
ghost use Rattle.std.specs.Prelude.{◌≡◌, ◌≤◌};
ghost use Rattle.run_waves.specs.Values as values;

use client_cache::{ClientCache, Held};
use directory::{Known, Transaction};
use hart::{Hart, Retired, Status};
use store_buffer::{ByteMask, StoreBuffer};
use tilelink_channels::Queues;
use tl_types::{Body, Channel, Msg, Perm};

/// The values of the signals of one part, in their places; zeros stand behind the last one.
pub(crate) type Values = [u32; 10];

/// Those of what isn't there.
pub(crate) const ZEROS: Values = [0; 10];

pub(crate) fn bit(mark: bool) -> u32
    ensures value { result ≡ values.bit mark }
    ensures low { result ≤ 1 }
{
    if mark { 1 } else { 0 }
}

/// The word of the instruction that was retired last, 0 before the first one.
pub(crate) fn instruction(retired: &[Retired]) -> u32
    ensures { result ≡ values.instruction retired.now }
{
    match retired.last() {
        Some(entry) => entry.word,
        None => 0,
    }
}

/// 0 where a hart runs, 1 where it stopped, 2 where it exited.
pub(crate) fn status(status: Status) -> u32
    ensures { result ≡ values.status status }
{
    match status {
        Status::Running => 0,
        Status::Stopped(_) => 1,
        Status::Exited(_) => 2,
    }
}

/// The code of a stop or an exit.
pub(crate) fn code(status: Status) -> u32
    ensures { result ≡ values.code status }
{
    match status {
        Status::Running => 0,
        Status::Stopped(code) | Status::Exited(code) => u32::from(code),
    }
}

fn mask_number(mask: ByteMask) -> u32
    ensures { result ≡ values.mask_number mask }
{
    let [first, second, third, fourth] = mask.marks();
    bit(first) + 2 * bit(second) + 4 * bit(third) + 8 * bit(fourth)
}

/// Of the entry that waits in front its word, its bytes as a number, and a bit for each byte that is written.
pub(crate) fn front_of(buffer: &StoreBuffer) -> (u32, u32, u32)
    ensures word { result.0 ≡ values.oldest_word (values.front_entry buffer.now) }
    ensures bytes { result.1 ≡ values.oldest_bytes (values.front_entry buffer.now) }
    ensures mask { result.2 ≡ values.oldest_mask (values.front_entry buffer.now) }
{
    match buffer.oldest().first() {
        Some(entry) => (
            entry.word,
            u32::from_le_bytes(entry.bytes),
            mask_number(entry.mask),
        ),
        None => (0, 0, 0),
    }
}

/// The reserved word, and whether there is one.
pub(crate) fn reserved_of(reserved: Option<u32>) -> (u32, u32)
    ensures { result ≡ (values.is_reserved reserved, values.reserved_word reserved) }
{
    match reserved {
        Some(word) => (1, word),
        None => (0, 0),
    }
}

fn body_number(body: &Body) -> u32
    ensures { result ≡ values.body_number body.now }
{
    match body {
        Body::AcquireBlock(_) => 1,
        Body::ProbeBlock(_) => 2,
        Body::ProbeAck(_) => 3,
        Body::ProbeAckData { .. } => 4,
        Body::Release(_) => 5,
        Body::ReleaseData { .. } => 6,
        Body::Grant(_) => 7,
        Body::GrantData { .. } => 8,
        Body::ReleaseAck => 9,
        Body::GrantAck => 10,
    }
}

fn front_number(front: &Option<Msg>) -> u32
    ensures { result ≡ values.front_number front.now }
{
    match front {
        Some(message) => body_number(&message.body),
        None => 0,
    }
}

fn front_line(front: &Option<Msg>) -> u32
    ensures { result ≡ values.front_line front.now }
{
    match front {
        Some(message) => message.line,
        None => 0,
    }
}

/// How many messages wait on a channel, and which one is in front and its line.
pub(crate) fn of_queue(queues: &Queues, channel: Channel) -> Values
    ensures { result ≡ values.of_messages (values.messages_on queues.now channel) }
{
    let front = queues.front(channel);
    [
        queues.len(channel).min(255) as u32,
        front_number(&front),
        front_line(&front),
        0,
        0,
        0,
        0,
        0,
        0,
        0,
    ]
}

fn held_number(held: &Option<Held>) -> u32
    ensures { result ≡ values.held_number held.now }
{
    match held {
        Some(Held::Branch(_)) => 1,
        Some(Held::Trunk { .. }) => 2,
        None => 0,
    }
}

fn is_dirty(held: &Option<Held>) -> u32
    ensures { result ≡ values.is_dirty held.now }
{
    match held {
        Some(Held::Trunk { dirty, .. }) => bit(*dirty),
        Some(Held::Branch(_)) | None => 0,
    }
}

/// A cache's copy of a line, and whether an Acquire is outstanding, or a Release unanswered.
pub(crate) fn of_cache(cache: &ClientCache, line: u32) -> Values
    ensures { result ≡ values.of_cache cache.now line }
{
    let held = cache.copy(line);
    [
        held_number(&held),
        is_dirty(&held),
        bit(cache.is_acquiring(line)),
        bit(cache.is_releasing(line)),
        0,
        0,
        0,
        0,
        0,
        0,
    ]
}

fn permission(perm: Perm) -> u32
    ensures { result ≡ values.permission perm }
{
    match perm {
        Perm::Nothing => 0,
        Perm::Branch => 1,
        Perm::Trunk => 2,
    }
}

/// What the manager notes of a hart for a line.
pub(crate) fn of_known(known: Known) -> Values
    ensures { result ≡ values.of_known known }
{
    [
        permission(known.perm),
        bit(known.awaited),
        0,
        0,
        0,
        0,
        0,
        0,
        0,
        0,
    ]
}

fn transaction_number(transaction: Transaction) -> u32
    ensures { result ≡ values.transaction_number transaction }
{
    match transaction {
        Transaction::Idle => 0,
        Transaction::Probing(_, _) => 1,
        Transaction::Granted(_) => 2,
    }
}

fn requester(transaction: Transaction) -> u32
    ensures { result ≡ values.requester transaction }
{
    match transaction {
        Transaction::Idle => 0,
        Transaction::Probing(hart, _) | Transaction::Granted(hart) => u32::from(hart),
    }
}

/// Where a line's transaction stands, and the hart that is to have the Grant or has it.
pub(crate) fn of_transaction(transaction: Transaction) -> Values
    ensures { result ≡ values.of_transaction transaction }
{
    [
        transaction_number(transaction),
        requester(transaction),
        0,
        0,
        0,
        0,
        0,
        0,
        0,
        0,
    ]
}

/// A hart, its store buffer and its reservation.
pub(crate) fn of_hart(
    hart: &Hart,
    retired: &[Retired],
    buffer: &StoreBuffer,
    reserved: Option<u32>,
) -> Values
    ensures { result ≡ values.of_parts hart.now buffer.now reserved retired.now }
{
    let (word, bytes, mask) = front_of(buffer);
    let (is_reserved, reserved) = reserved_of(reserved);
    [
        hart.pc,
        instruction(retired),
        status(hart.status),
        code(hart.status),
        buffer.entry_count().min(255) as u32,
        word,
        bytes,
        mask,
        is_reserved,
        reserved,
    ]
}
