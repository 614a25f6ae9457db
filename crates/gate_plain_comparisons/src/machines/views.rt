//! Whether two machines say the same of one hart and of the line that begins at a word.

ghost use Rattle.std.specs.Prelude.{◌≡◌, ◌<◌, length};

use super::LINE_BYTES;
use client_cache::{ClientCache, Held};
use coherent_machine::Views;
use elf_loader::BASE;
use gate_plain_machine::{NodeView, PlainMachine, Transaction};
use store_buffer::StoreBuffer;
use tilelink_channels::Queues;
use tl_types::{Channel, Perm};

static CHANNELS: [Channel; 5] = [Channel::A, Channel::B, Channel::C, Channel::D, Channel::E];

fn is_same_buffer(node: &NodeView<'_>, buffer: &StoreBuffer, word: u32) -> bool {
    let (marks, bytes) = buffer.forward(word);
    node.is_buffer_empty() == buffer.is_empty()
        && node.has_sealed() == buffer.has_sealed()
        && node.forwarded(word) == (marks.marks(), bytes)
}

/// As many messages wait in each queue, and the first of them are the same.
fn are_same_queues(node: &NodeView<'_>, queues: &Queues) -> bool {
    let mut are_same = true;
    for channel in &CHANNELS {
        let queue = node.queue(*channel);
        are_same = are_same
            && queue.len() == queues.len(*channel)
            && queue.first().copied() == queues.front(*channel);
    }
    are_same
}

fn is_same_cache(node: &NodeView<'_>, cache: &ClientCache, line: u32) -> bool {
    let (perm, bytes, is_dirty) = match cache.copy(line) {
        None => (Perm::Nothing, None, false),
        Some(held) => (
            held.perm(),
            Some(held.bytes()),
            matches!(held, Held::Trunk { dirty: true, .. }),
        ),
    };
    node.perm(line) == perm
        && node.bytes(line) == bytes
        && node.is_dirty(line) == is_dirty
        && node.is_acquiring(line) == cache.is_acquiring(line)
        && node.is_releasing(line) == cache.is_releasing(line)
}

/// The manager's transaction in the plain machine's words.
fn plainly(transaction: directory::Transaction) -> Transaction {
    match transaction {
        directory::Transaction::Idle => Transaction::Idle,
        directory::Transaction::Probing(requester, grow) => Transaction::Probing {
            requester,
            grow,
        },
        directory::Transaction::Granted(hart) => Transaction::Granted(hart),
    }
}

/// The manager's notes and main memory.
fn is_same_line(plain: &PlainMachine, views: &Views<'_>, hart: u8, line: u32) -> bool {
    let place = line.saturating_sub(BASE) / LINE_BYTES;
    let directory = views.directory();
    let memory = views.memory();
    if place as usize >= directory.lines() || hart >= directory.harts() {
        return false;
    }
    if place >= memory.line_count() {
        return false;
    }
    let known = directory.known(place, hart);
    plain.record(line, hart) == known.perm
        && plain.is_awaited(line, hart) == known.awaited
        && plain.transaction(line) == plainly(directory.transaction(place))
        && plain.memory_line(line) == memory.line(place)
}

/// Whether both have the hart and the line, and say the same of them.
pub fn is_same_view(plain: &PlainMachine, views: &Views<'_>, hart: u8, word: u32) -> bool {
    let place = usize::from(hart);
    let Some(node) = plain.node(hart) else {
        return false;
    };
    if place >= views.harts() {
        return false;
    }
    node.hart() == *views.hart(place)
        && node.reserved() == views.reserved(place)
        && is_same_buffer(&node, views.buffer(place), word)
        && are_same_queues(&node, views.queues(place))
        && is_same_cache(&node, views.cache(place), word)
        && is_same_line(plain, views, hart, word)
}
