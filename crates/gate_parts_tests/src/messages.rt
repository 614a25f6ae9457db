//! The table of what a Probe leaves, the channel of each message, and lines of both sizes.
ghost use Rattle.std.specs.Prelude.{◌≡◌, ◌<◌};

use crate::same::{same, same_of};
use std::marker::Brand;
use std::mem::size_of;
use std::sync::ledger::{Blank, Ledger};
use tl_types::{Body, Cap, Change, Channel, Grow, LineData, LineSize, Msg, Perm, Ticks, shrink};

/// TileLink 1.8.1, "Permissions transitions": what is held, the Probe, what is left, the change.
static SHRINK: [(Perm, Cap, Perm, Change); 9] = [
    (Perm::Trunk, Cap::ToT, Perm::Trunk, Change::TtoT),
    (Perm::Trunk, Cap::ToB, Perm::Branch, Change::TtoB),
    (Perm::Trunk, Cap::ToN, Perm::Nothing, Change::TtoN),
    (Perm::Branch, Cap::ToT, Perm::Branch, Change::BtoB),
    (Perm::Branch, Cap::ToB, Perm::Branch, Change::BtoB),
    (Perm::Branch, Cap::ToN, Perm::Nothing, Change::BtoN),
    (Perm::Nothing, Cap::ToT, Perm::Nothing, Change::NtoN),
    (Perm::Nothing, Cap::ToB, Perm::Nothing, Change::NtoN),
    (Perm::Nothing, Cap::ToN, Perm::Nothing, Change::NtoN),
];

#[test]
fn shrink_is_its_table(rt: HostRuntime) {
    for (held, cap, left, change) in &SHRINK {
        same_of(&rt, shrink(*held, *cap), (*left, *change), cap);
        same_of(&rt, change.left(), *left, change);
    }
}

/// What an Acquire asks for, the Grant that answers it, and the permission that this gives.
static GRANTED: [(Grow, Cap, Perm); 3] = [
    (Grow::NtoB, Cap::ToB, Perm::Branch),
    (Grow::NtoT, Cap::ToT, Perm::Trunk),
    (Grow::BtoT, Cap::ToT, Perm::Trunk),
];

#[test]
fn grants_name_what_was_asked_for(rt: HostRuntime) {
    for (grow, cap, perm) in &GRANTED {
        same_of(&rt, (grow.granted(), cap.perm()), (*cap, *perm), grow);
    }
    same(&rt, Cap::ToN.perm(), Perm::Nothing);
}

const BYTES: LineData = LineData::Bytes16([7; 16]);

/// TileLink 1.8.1, "Channels of TL-C": a message of each kind, and the channel that it goes on.
static CHANNELS: [(Body, Channel); 10] = [
    (Body::AcquireBlock(Grow::NtoB), Channel::A),
    (Body::ProbeBlock(Cap::ToN), Channel::B),
    (Body::ProbeAck(Change::NtoN), Channel::C),
    (
        Body::ProbeAckData {
            change: Change::TtoN,
            bytes: BYTES,
        },
        Channel::C,
    ),
    (Body::Release(Change::BtoN), Channel::C),
    (
        Body::ReleaseData {
            change: Change::TtoN,
            bytes: BYTES,
        },
        Channel::C,
    ),
    (Body::Grant(Cap::ToT), Channel::D),
    (
        Body::GrantData {
            cap: Cap::ToB,
            bytes: BYTES,
        },
        Channel::D,
    ),
    (Body::ReleaseAck, Channel::D),
    (Body::GrantAck, Channel::E),
];

#[test]
fn each_message_has_its_channel(rt: HostRuntime) {
    for (body, channel) in &CHANNELS {
        let message = Msg {
            line: 0x8000_0100,
            body: *body,
        };
        same_of(&rt, message.channel(), *channel, body);
    }
}

#[test]
fn lines_have_16_or_64_bytes(rt: HostRuntime) {
    let short = LineData::Bytes16([1; 16]);
    let long = LineData::Bytes64([2; 64]);
    let sizes = (short.size(), long.size());
    same(&rt, sizes, (LineSize::Bytes16, LineSize::Bytes64));
    same(&rt, (sizes.0.bytes(), sizes.1.bytes()), (16, 64));
    same(&rt, short.as_slice(), [1; 16].as_slice());
    same(&rt, long.as_slice(), [2; 64].as_slice());
}

/// Counts two looks on any ledger: nothing of it is kept at run time.
fn two_looks<L: Ledger>(blank: Blank)
    requires name { blank.name ≡ L.name }
    requires parts { blank.parts ≡ L.parts }
    requires some { 0 < L.parts }
{
    let mut ticks: Ticks<L> = Ticks::new(blank);
    ticks.tick();
    ticks.tick();
}

#[test]
fn looks_are_counted_for_contracts_alone(rt: HostRuntime) {
    two_looks::<Brand>(Blank::new(1));
    same(&rt, size_of::<Ticks<Brand>>(), 0);
}
