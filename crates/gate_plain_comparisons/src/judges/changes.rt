//! Other messages in the place of one.

use tl_types::{Body, Cap, Change, Grow, LineData};
use trace_recorder::Logged;

/// What stands in the place of an entry at one end of its message alone.
pub fn of_one_end(entry: Logged) -> [Option<Logged>; 5] {
    let mut elsewhere = entry;
    elsewhere.hart = if entry.hart == 0 { 1 } else { 0 };
    [
        Some(elsewhere),
        with(entry, Some(other_kind(entry.message.body))),
        with(entry, other_permission(entry.message.body)),
        with(entry, with_other_bytes(entry.message.body)),
        with(entry, with_bytes(entry.message.body)),
    ]
}

/// What stands in its place at both ends.
pub fn of_both_ends(entry: Logged) -> [Option<Logged>; 3] {
    [
        with(entry, other_permission(entry.message.body)),
        with(entry, with_other_bytes(entry.message.body)),
        with(entry, with_bytes(entry.message.body)),
    ]
}

fn with(entry: Logged, body: Option<Body>) -> Option<Logged> {
    let mut other = entry;
    other.message.body = body?;
    Some(other)
}

// The same with other bytes, if it has some.
fn with_other_bytes(body: Body) -> Option<Body> {
    match body {
        Body::ProbeAckData { change, bytes } => Some(Body::ProbeAckData {
            change,
            bytes: other_bytes(bytes),
        }),
        Body::ReleaseData { change, bytes } => Some(Body::ReleaseData {
            change,
            bytes: other_bytes(bytes),
        }),
        Body::GrantData { cap, bytes } => Some(Body::GrantData {
            cap,
            bytes: other_bytes(bytes),
        }),
        _ => None,
    }
}

// The same with bytes, where it has none and may have some.
fn with_bytes(body: Body) -> Option<Body> {
    let bytes = LineData::Bytes16([0; 16]);
    match body {
        Body::ProbeAck(change) => Some(Body::ProbeAckData { change, bytes }),
        Body::Release(change) => Some(Body::ReleaseData { change, bytes }),
        Body::Grant(cap) => Some(Body::GrantData { cap, bytes }),
        _ => None,
    }
}

// The bytes with the last one's lowest bit turned.
fn other_bytes(bytes: LineData) -> LineData {
    match bytes {
        LineData::Bytes16(bytes) => {
            let mut other = bytes;
            other[15] ^= 1;
            LineData::Bytes16(other)
        }
        LineData::Bytes64(bytes) => {
            let mut other = bytes;
            other[63] ^= 1;
            LineData::Bytes64(other)
        }
    }
}

// The same kind of message with another permission, if it names one.
fn other_permission(body: Body) -> Option<Body> {
    match body {
        Body::AcquireBlock(grow) => Some(Body::AcquireBlock(other_grow(grow))),
        Body::ProbeBlock(cap) => Some(Body::ProbeBlock(other_cap(cap))),
        Body::ProbeAck(change) => Some(Body::ProbeAck(other_change(change))),
        Body::ProbeAckData { change, bytes } => Some(Body::ProbeAckData {
            change: other_change(change),
            bytes,
        }),
        Body::Release(change) => Some(Body::Release(other_change(change))),
        Body::ReleaseData { change, bytes } => Some(Body::ReleaseData {
            change: other_change(change),
            bytes,
        }),
        Body::Grant(cap) => Some(Body::Grant(other_cap(cap))),
        Body::GrantData { cap, bytes } => Some(Body::GrantData {
            cap: other_cap(cap),
            bytes,
        }),
        Body::ReleaseAck | Body::GrantAck => None,
    }
}

fn other_kind(body: Body) -> Body {
    match body {
        Body::AcquireBlock(_) => Body::Release(Change::BtoN),
        Body::ProbeBlock(_) => Body::Grant(Cap::ToT),
        Body::ProbeAck(change) => Body::Release(change),
        Body::ProbeAckData { change, .. } => Body::ProbeAck(change),
        Body::Release(change) => Body::ProbeAck(change),
        Body::ReleaseData { change, .. } => Body::Release(change),
        Body::Grant(_) => Body::ReleaseAck,
        Body::GrantData { cap, .. } => Body::Grant(cap),
        Body::ReleaseAck => Body::GrantAck,
        Body::GrantAck => Body::AcquireBlock(Grow::NtoB),
    }
}

fn other_grow(grow: Grow) -> Grow {
    match grow {
        Grow::NtoB => Grow::NtoT,
        Grow::NtoT => Grow::BtoT,
        Grow::BtoT => Grow::NtoB,
    }
}

fn other_cap(cap: Cap) -> Cap {
    match cap {
        Cap::ToT => Cap::ToB,
        Cap::ToB | Cap::ToN => Cap::ToT,
    }
}

fn other_change(change: Change) -> Change {
    match change {
        Change::TtoB => Change::TtoN,
        Change::TtoN => Change::BtoN,
        Change::BtoN => Change::TtoN,
        Change::TtoT | Change::BtoB => Change::NtoN,
        Change::NtoN => Change::BtoN,
    }
}
