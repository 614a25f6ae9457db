//! The messages that wait in each hart's queues.
ghost use Rattle.std.specs.Prelude.{◌≡◌, ◌==◌, ◌↔◌, ℕ, IsTrue, OnOk, Some, [], slice_get, if◌then◌else◌};
ghost use Rattle.std.specs.BTreeMap as tree;
ghost use Rattle.std.specs.Option.{option_map_or};
ghost use Rattle.std.specs.Ordering.{nat_cmp};
ghost use Rattle.std.specs.VecDeque.{deque_items};
ghost use Rattle.lawful_log.specs.Followed.{moved, waiting_after, waiting_on};
ghost use Rattle.tl_types.specs.Message.{channel_of};
ghost use Rattle.tl_types.specs.declared.message.Channel.{Channel as ChannelValue};

use std::alloc::{AllocError, Global};
use std::collections::{BTreeMap, VecDeque};
use tl_types::{Channel, Msg};
use trace_recorder::{Direction, Logged};

/// By channel and hart what was sent and not taken yet, the first one first.
#[derive(Drop)]
pub(crate) struct Queues {
    a: BTreeMap<u8, VecDeque<Msg>>,
    b: BTreeMap<u8, VecDeque<Msg>>,
    c: BTreeMap<u8, VecDeque<Msg>>,
    d: BTreeMap<u8, VecDeque<Msg>>,
    e: BTreeMap<u8, VecDeque<Msg>>,
}

impl Queues {
    /// Queues in which nothing waits.
    pub(crate) fn new(alloc: Global) -> Queues
        ensures { (channel : ChannelValue) (h : ℕ) → waiting_on result channel h ≡ [] }
    {
        Queues {
            a: BTreeMap::new(alloc),
            b: BTreeMap::new(alloc),
            c: BTreeMap::new(alloc),
            d: BTreeMap::new(alloc),
            e: BTreeMap::new(alloc),
        }
    }

    /// Whether the entry's message is the front of its queue.
    pub(crate) fn is_front(&self, entry: &Logged) -> bool
        ensures { IsTrue result ↔ (slice_get (waiting_on self.now (channel_of entry.now.message) entry.now.hart) 0 ≡ Some entry.now.message) }
    {
        match entry.message.channel() {
            Channel::A => is_front_in(&self.a, entry),
            Channel::B => is_front_in(&self.b, entry),
            Channel::C => is_front_in(&self.c, entry),
            Channel::D => is_front_in(&self.d, entry),
            Channel::E => is_front_in(&self.e, entry),
        }
    }

    /// A message that is sent goes behind the others of its queue; one that is taken leaves it in front.
    pub(crate) fn note(&mut self, entry: &Logged) -> Result<(), AllocError>
        ensures { OnOk result ((channel : ChannelValue) (h : ℕ) → waiting_on self.new channel h ≡ waiting_after channel h entry.now (waiting_on self.old channel h)) }
    {
        match entry.message.channel() {
            Channel::A => note_in(&mut self.a, entry),
            Channel::B => note_in(&mut self.b, entry),
            Channel::C => note_in(&mut self.c, entry),
            Channel::D => note_in(&mut self.d, entry),
            Channel::E => note_in(&mut self.e, entry),
        }
    }
}

fn is_front_in(queues: &BTreeMap<u8, VecDeque<Msg>>, entry: &Logged) -> bool
    ensures { IsTrue result ↔ (slice_get (option_map_or deque_items (tree.get nat_cmp queues.now entry.now.hart) []) 0 ≡ Some entry.now.message) }
{
    match queues.get(&entry.hart) {
        Some(waiting) => is_first(waiting, &entry.message),
        None => false,
    }
}

fn is_first(waiting: &VecDeque<Msg>, message: &Msg) -> bool
    ensures { IsTrue result ↔ (slice_get (deque_items waiting.now) 0 ≡ Some message.now) }
{
    match waiting.front() {
        Some(front) => is_same(front, message),
        None => false,
    }
}

fn is_same(first: &Msg, second: &Msg) -> bool
    ensures { IsTrue result ↔ (first.now ≡ second.now) }
{
    first == second
}

fn note_in(queues: &mut BTreeMap<u8, VecDeque<Msg>>, entry: &Logged) -> Result<(), AllocError>
    ensures { OnOk result ((h : ℕ) → option_map_or deque_items (tree.get nat_cmp queues.new h) []
        ≡ (if entry.now.hart == h
        then moved entry.now.direction entry.now.message (option_map_or deque_items (tree.get nat_cmp queues.old h) [])
        else option_map_or deque_items (tree.get nat_cmp queues.old h) [])) }
{
    let waiting = queues.entry(entry.hart)?.or_default();
    match entry.direction {
        Direction::Sent => waiting.push_back(entry.message)?,
        Direction::Taken => {
            waiting.pop_front();
        }
    }
    Ok(())
}
