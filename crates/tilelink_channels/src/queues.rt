//! The five queues of a hart.
ghost use Rattle.std.specs.Prelude.{◌≡◌, ◌<◌, ◌↔◌, length, slice_get, IfOk, IsTrue};
ghost use Rattle.machine_types.specs.Message.{channel_of};
ghost use Rattle.tilelink_channels.specs.Queues.{none_waiting, room_of, queue_of, front_of, pushed, popped};

use machine_types::tl_types::{Channel, Msg};
use machine_types::{MAX_HARTS, TRACKERS};
use std::alloc::{AllocError, Global};
use std::collections::VecDeque;
use std::marker::Model;

/// A Probe for each Acquire of each other hart.
const PROBES: usize = TRACKERS * (MAX_HARTS as usize - 1);

/// How many messages a queue of this channel has room for.
pub fn room(channel: Channel) -> usize
    ensures { result ≡ room_of channel }
{
    match channel {
        Channel::A | Channel::E => TRACKERS,
        Channel::B => PROBES,
        Channel::C => PROBES + TRACKERS,
        Channel::D => TRACKERS + TRACKERS,
    }
}

/// The messages that wait on each channel of one hart. The room for all of them is taken when it is made.
#[derive(Drop)]
pub struct Queues {
    a: VecDeque<Msg>,
    b: VecDeque<Msg>,
    c: VecDeque<Msg>,
    d: VecDeque<Msg>,
    e: VecDeque<Msg>,
}

impl Model for Queues {
    ghost use Rattle.std.specs.Prelude.{◌≤◌};
    ghost use Rattle.std.specs.VecDeque.{deque_capacity};
    ghost use Rattle.tilelink_channels.specs.Queues.{Waiting, room_of};
    ghost use Rattle.machine_types.specs.TheVariants.{A, B, C, D, E};

    ghost Value = { Waiting };

    ghost view = { λ q. record { a = q.a.items; b = q.b.items; c = q.c.items; d = q.d.items; e = q.e.items } };

    ghost invariant = { λ q. (room_of A ≤ deque_capacity q.a) × (room_of B ≤ deque_capacity q.b) × (room_of C ≤ deque_capacity q.c) × (room_of D ≤ deque_capacity q.d) × (room_of E ≤ deque_capacity q.e) };
}

impl Queues {
    /// Empty queues. The only error is want of memory; no later call takes any.
    pub fn new(alloc: Global) -> Result<Queues, AllocError>
        ensures { IfOk result (λ queues. queues ≡ none_waiting) }
    {
        Ok(Queues {
            a: VecDeque::with_capacity(alloc, room(Channel::A))?,
            b: VecDeque::with_capacity(alloc, room(Channel::B))?,
            c: VecDeque::with_capacity(alloc, room(Channel::C))?,
            d: VecDeque::with_capacity(alloc, room(Channel::D))?,
            e: VecDeque::with_capacity(alloc, room(Channel::E))?,
        })
    }

    /// How many messages wait on the channel.
    pub fn len(&self, channel: Channel) -> usize
        ensures { result ≡ length (queue_of self.now channel) }
    {
        match channel {
            Channel::A => self.a.len(),
            Channel::B => self.b.len(),
            Channel::C => self.c.len(),
            Channel::D => self.d.len(),
            Channel::E => self.e.len(),
        }
    }

    /// Whether a further message may be pushed on the channel.
    pub fn has_room(&self, channel: Channel) -> bool
        ensures { IsTrue result ↔ (length (queue_of self.now channel) < room_of channel) }
    {
        self.len(channel) < room(channel)
    }

    /// The message in front of the channel's queue, if one waits.
    pub fn front(&self, channel: Channel) -> Option<Msg>
        ensures { result ≡ front_of (queue_of self.now channel) }
    {
        let first = match channel {
            Channel::A => self.a.front(),
            Channel::B => self.b.front(),
            Channel::C => self.c.front(),
            Channel::D => self.d.front(),
            Channel::E => self.e.front(),
        };
        first.copied()
    }

    /// The message with so many in front of it on the channel, if as many wait.
    pub fn get(&self, channel: Channel, place: usize) -> Option<Msg>
        ensures { result ≡ slice_get (queue_of self.now channel) place }
    {
        let found = match channel {
            Channel::A => self.a.get(place),
            Channel::B => self.b.get(place),
            Channel::C => self.c.get(place),
            Channel::D => self.d.get(place),
            Channel::E => self.e.get(place),
        };
        found.copied()
    }

    /// Sends a message on its own channel.
    pub fn push(&mut self, message: Msg)
        requires { length (queue_of self.old (channel_of message)) < room_of (channel_of message) }
        ensures { self.new ≡ pushed self.old message }
    {
        match message.channel() {
            Channel::A => self.a.push_back_reserved(message),
            Channel::B => self.b.push_back_reserved(message),
            Channel::C => self.c.push_back_reserved(message),
            Channel::D => self.d.push_back_reserved(message),
            Channel::E => self.e.push_back_reserved(message),
        }
    }

    /// Takes the message in front off the channel's queue, if one waits.
    pub fn pop(&mut self, channel: Channel) -> Option<Msg>
        ensures front { result ≡ front_of (queue_of self.old channel) }
        ensures rest { self.new ≡ popped self.old channel }
    {
        match channel {
            Channel::A => self.a.pop_front(),
            Channel::B => self.b.pop_front(),
            Channel::C => self.c.pop_front(),
            Channel::D => self.d.pop_front(),
            Channel::E => self.e.pop_front(),
        }
    }
}
