//! What waits behind a log.
ghost use Rattle.std.specs.Prelude.{◌≡◌, ◌==◌, ◌&&◌, filter, length, not};
ghost use Rattle.log_text.specs.Objections.{front_of_queue, is_taken_from};
ghost use Rattle.machine_model.specs.LawfulLog.{concerns, is_on, is_release, is_release_ack, no_release_open, sent_count, taken_count};
ghost use Rattle.tl_types.specs.Message.{channel_of};

use tl_types::{Body, Channel, Msg};
use trace_recorder::{Direction, Logged};

/// The message in front of a queue, where each that was taken from it was the front one.
#[tactic(auto, using(crate::proofs::Taken::taken_counted))]
pub(crate) fn front_of(log: &[Logged], channel: Channel, hart: u8) -> Option<Msg>
    ensures { result ≡ front_of_queue channel hart log.now }
{
    let mut left = taken_from(log, channel, hart);
    let mut rest = log;
    while let [entry, tail @ ..] = rest {
        if entry.direction == Direction::Sent && is_on(entry, channel, hart) {
            if left == 0 {
                return Some(entry.message);
            }
            left -= 1;
        }
        rest = tail;
    }
    None
}

// How many messages were taken from a queue.
fn taken_from(log: &[Logged], channel: Channel, hart: u8) -> usize
    ensures { result ≡ length (filter (is_taken_from channel hart) log.now) }
{
    log.iter()
        .filter(|entry| entry.direction == Direction::Taken && is_on(entry, channel, hart))
        .count()
}

// Whether the entry is of this queue.
fn is_on(entry: &Logged, channel: Channel, hart: u8) -> bool
    ensures { result ≡ (entry.now.hart == hart && is_on channel (channel_of entry.now.message)) }
{
    entry.hart == hart && entry.message.channel() == channel
}

/// Whether the hart sent a Release of the line whose ReleaseAck it didn't take yet.
pub(crate) fn awaits_release_ack(log: &[Logged], line: u32, hart: u8) -> bool
    ensures { result ≡ not (no_release_open hart line log.now) }
{
    releases_sent(log, line, hart) != release_acks_taken(log, line, hart)
}

fn releases_sent(log: &[Logged], line: u32, hart: u8) -> usize
    ensures { result ≡ sent_count is_release (concerns hart line) log.now }
{
    log.iter()
        .filter(|entry| entry.direction == Direction::Sent
            && is_of(entry, line, hart)
            && is_release(&entry.message.body))
        .count()
}

fn release_acks_taken(log: &[Logged], line: u32, hart: u8) -> usize
    ensures { result ≡ taken_count is_release_ack (concerns hart line) log.now }
{
    log.iter()
        .filter(|entry| entry.direction == Direction::Taken
            && is_of(entry, line, hart)
            && is_release_ack(&entry.message.body))
        .count()
}

fn is_release(body: &Body) -> bool
    ensures { result ≡ is_release body.now }
{
    matches!(body, Body::Release(_) | Body::ReleaseData { .. })
}

fn is_release_ack(body: &Body) -> bool
    ensures { result ≡ is_release_ack body.now }
{
    matches!(body, Body::ReleaseAck)
}

// Whether the entry is of this line and this hart.
fn is_of(entry: &Logged, line: u32, hart: u8) -> bool
    ensures { result ≡ concerns hart line entry.now }
{
    entry.hart == hart && entry.message.line == line
}
