//! Queues in the order of sending, and how many messages each holds in the worked rows.
use crate::same::{same, same_of};
use std::process::Abort;
use tilelink_channels::{Queues, room};
use tl_types::{Body, Cap, Change, Channel, Grow, LineData, Msg};

const X: u32 = 0x8000_0100;

const Y: u32 = 0x8000_0200;

/// How many messages each channel has room for.
static ROOMS: [(Channel, usize); 5] = [
    (Channel::A, 4),
    (Channel::B, 28),
    (Channel::C, 32),
    (Channel::D, 8),
    (Channel::E, 4),
];

/// What is done with a hart's queues, and what is to be seen of them.
#[derive(Clone, Copy)]
enum Act {
    Sends(u32, Body),
    /// So many messages.
    SendsMany(usize, u32, Body),
    /// The message is the next of its channel.
    Takes(u32, Body),
    /// How many messages a channel holds, and whether it has room for another.
    Holds(Channel, usize, bool),
    IsEmpty(Channel),
}

/// Sends a message where its queue has room.
fn send(rt: &impl Abort, queues: &mut Queues, line: u32, body: Body) {
    let message = Msg { line, body };
    assert!(rt; queues.has_room(message.channel()));
    queues.push(message);
}

fn send_many(rt: &impl Abort, queues: &mut Queues, count: usize, line: u32, body: Body) {
    for _ in 0..count {
        send(rt, queues, line, body);
    }
}

fn taken(rt: &impl Abort, queues: &mut Queues, line: u32, body: Body) {
    let message = Msg { line, body };
    let channel = message.channel();
    same(rt, queues.front(channel), Some(message));
    same(rt, queues.pop(channel), Some(message));
}

fn holds(rt: &impl Abort, queues: &Queues, channel: Channel, count: usize, has_room: bool) {
    same_of(rt, queues.len(channel), count, &channel);
    same_of(rt, queues.has_room(channel), has_room, &channel);
}

fn is_empty(rt: &impl Abort, queues: &mut Queues, channel: Channel) {
    same_of(rt, queues.front(channel), None, &channel);
    same_of(rt, queues.pop(channel), None, &channel);
    same_of(rt, queues.len(channel), 0, &channel);
}

fn take(rt: &impl Abort, queues: &mut Queues, act: Act) {
    match act {
        Act::Sends(line, body) => send(rt, queues, line, body),
        Act::SendsMany(count, line, body) => send_many(rt, queues, count, line, body),
        Act::Takes(line, body) => taken(rt, queues, line, body),
        Act::Holds(channel, count, has_room) => holds(rt, queues, channel, count, has_room),
        Act::IsEmpty(channel) => is_empty(rt, queues, channel),
    }
}

fn play(rt: &impl Abort, queues: &mut Queues, acts: &[Act]) {
    for act in acts {
        take(rt, queues, *act);
    }
}

/// New queues. Those that were refused, in runs in which one allocation fails, are asked for again; no act can take
/// memory.
fn queues_of(rt: &(impl Abort + AllocGlobal)) -> Queues {
    match Queues::new(rt.alloc()) {
        Ok(queues) => queues,
        Err(_) => Queues::new(rt.alloc()).expect(rt, "queues again"),
    }
}

/// Plays the acts on new queues.
fn plays(rt: &(impl Abort + AllocGlobal), acts: &[Act]) {
    play(rt, &mut queues_of(rt), acts);
}

#[test]
fn rooms_are_4_28_32_8_4(rt: HostRuntime) {
    for (channel, size) in &ROOMS {
        same_of(&rt, room(*channel), *size, channel);
    }
}

const WIDE_RELEASE: Body = Body::ReleaseData {
    change: Change::TtoN,
    bytes: LineData::Bytes64([9; 64]),
};

static FIRST_IN_FIRST_OUT: [Act; 14] = [
    Act::IsEmpty(Channel::A),
    Act::IsEmpty(Channel::B),
    Act::IsEmpty(Channel::C),
    Act::IsEmpty(Channel::D),
    Act::IsEmpty(Channel::E),
    Act::Sends(X, WIDE_RELEASE),
    Act::Sends(X, Body::ProbeBlock(Cap::ToN)),
    Act::Sends(X, Body::ProbeAck(Change::NtoN)),
    Act::Holds(Channel::C, 2, true),
    Act::Holds(Channel::B, 1, true),
    Act::Takes(X, WIDE_RELEASE),
    Act::Takes(X, Body::ProbeAck(Change::NtoN)),
    Act::Takes(X, Body::ProbeBlock(Cap::ToN)),
    Act::IsEmpty(Channel::C),
];

#[test]
fn first_in_first_out_on_each_channel_alone(rt: HostRuntime) {
    plays(&rt, &FIRST_IN_FIRST_OUT);
}

const RELEASE: Body = Body::ReleaseData {
    change: Change::TtoN,
    bytes: LineData::Bytes16([1; 16]),
};

const ROW_10: [Act; 8] = [
    Act::Sends(Y, Body::ProbeBlock(Cap::ToB)),
    Act::Sends(Y, RELEASE),
    Act::Takes(Y, RELEASE),
    Act::Sends(Y, Body::ReleaseAck),
    Act::Takes(Y, Body::ReleaseAck),
    Act::Takes(Y, Body::ProbeBlock(Cap::ToB)),
    Act::Sends(Y, Body::ProbeAck(Change::NtoN)),
    Act::Takes(Y, Body::ProbeAck(Change::NtoN)),
];

/// A Release passes a Probe of the other direction; the hart's answers stay in order.
#[test]
fn row_10(rt: HostRuntime) {
    plays(&rt, &ROW_10);
}

const ROW_22: [Act; 7] = [
    Act::Sends(X, Body::GrantAck),
    Act::Sends(X + 0x10, Body::GrantAck),
    Act::Sends(X + 0x20, Body::GrantAck),
    Act::Sends(X + 0x30, Body::GrantAck),
    Act::Holds(Channel::E, 4, false),
    Act::Takes(X, Body::GrantAck),
    Act::Holds(Channel::E, 3, true),
];

/// E is full with 4 GrantAcks, and has room once one is taken.
#[test]
fn row_22(rt: HostRuntime) {
    plays(&rt, &ROW_22);
}

const ROW_45: [Act; 8] = [
    Act::Sends(X, Body::AcquireBlock(Grow::NtoT)),
    Act::Sends(X + 0x10, Body::AcquireBlock(Grow::NtoT)),
    Act::Sends(X + 0x20, Body::AcquireBlock(Grow::NtoT)),
    Act::Sends(X + 0x30, Body::AcquireBlock(Grow::NtoT)),
    Act::Holds(Channel::A, 4, false),
    Act::Takes(X, Body::AcquireBlock(Grow::NtoT)),
    Act::Sends(X + 0x40, Body::AcquireBlock(Grow::NtoT)),
    Act::Holds(Channel::A, 4, false),
];

/// Four Acquires are outstanding; the fifth goes once the first was taken.
#[test]
fn row_45(rt: HostRuntime) {
    plays(&rt, &ROW_45);
}

const ROW_46: [Act; 9] = [
    Act::Sends(X, Body::Release(Change::BtoN)),
    Act::Sends(X + 0x10, Body::Release(Change::BtoN)),
    Act::Sends(X + 0x20, Body::Release(Change::BtoN)),
    Act::Sends(X + 0x30, Body::Release(Change::BtoN)),
    Act::SendsMany(28, X + 0x40, Body::ProbeAck(Change::NtoN)),
    Act::Holds(Channel::C, 32, false),
    Act::Takes(X, Body::Release(Change::BtoN)),
    Act::Sends(X, Body::ReleaseAck),
    Act::Holds(Channel::C, 31, true),
];

/// Four Releases stand in C, and room is left there for an answer to each Probe.
#[test]
fn row_46(rt: HostRuntime) {
    plays(&rt, &ROW_46);
}

/// Seven messages go and come, of lines from this one on.
fn seven_go_round(rt: &impl Abort, queues: &mut Queues, line: u32) {
    for index in 0..7u32 {
        send(rt, queues, line.wrapping_add(16 * index), Body::ReleaseAck);
    }
    for index in 0..7u32 {
        taken(rt, queues, line.wrapping_add(16 * index), Body::ReleaseAck);
    }
}

/// Many messages go and come, more than any ring has room for.
fn many_go_round(rt: &impl Abort, queues: &mut Queues) {
    for round in 0..100u32 {
        seven_go_round(rt, queues, 0x8000_0000 + 112 * round);
    }
    same(rt, queues.len(Channel::D), 0);
}

/// A ring goes round: each message comes out once, in order, long after the first room was used.
#[test]
fn long_use_keeps_the_order(rt: HostRuntime) {
    many_go_round(&rt, &mut queues_of(&rt));
}

/// A message of each channel.
static BODIES: [Body; 5] = [
    Body::AcquireBlock(Grow::NtoB),
    Body::ProbeBlock(Cap::ToN),
    Body::Release(Change::BtoN),
    Body::ReleaseAck,
    Body::GrantAck,
];

/// As many messages as there is room for go and come.
fn all_room_is_used(rt: &impl Abort, queues: &mut Queues, body: Body) {
    let channel = (Msg { line: X, body }).channel();
    send_many(rt, queues, room(channel), X, body);
    same_of(rt, queues.has_room(channel), false, &channel);
    for _ in 0..room(channel) {
        taken(rt, queues, X, body);
    }
    same_of(rt, queues.len(channel), 0, &channel);
}

/// Meant for runs in which one allocation fails: queues that were made take no more memory.
#[test]
fn memory_is_taken_at_making_alone(rt: HostRuntime) {
    let mut queues = queues_of(&rt);
    for body in &BODIES {
        all_room_is_used(&rt, &mut queues, *body);
    }
}
