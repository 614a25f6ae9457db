//! What a message tells of permissions and bytes.
ghost use Rattle.std.specs.Prelude.{◌≡◌};
ghost use Rattle.coherent_log.specs.Told as told;
ghost use Rattle.tl_types.specs.Permission.{held_before};
ghost use Rattle.coherent_log.specs.Rules as rules;

use tl_types::{Body, Cap, Change, Grow, LineData, Perm};
use trace_recorder::{Direction, Logged};

/// The permission that a client has behind the entry, if it changes that.
pub(crate) fn at_client(entry: &Logged) -> Option<Perm>
    ensures { result ≡ told.at_client entry.now.direction entry.now.message.body }
{
    match (entry.direction, entry.message.body) {
        (Direction::Taken, Body::Grant(cap) | Body::GrantData { cap, .. }) => Some(cap.perm()),
        (
            Direction::Sent,
            Body::ProbeAck(change)
            | Body::ProbeAckData { change, .. }
            | Body::Release(change)
            | Body::ReleaseData { change, .. },
        ) => Some(change.left()),
        _ => None,
    }
}

/// The permission that the manager knows the client to have behind the entry, if it changes that.
pub(crate) fn at_manager(entry: &Logged) -> Option<Perm>
    ensures { result ≡ told.at_manager entry.now.direction entry.now.message.body }
{
    match (entry.direction, entry.message.body) {
        (Direction::Sent, Body::Grant(cap) | Body::GrantData { cap, .. }) => Some(cap.perm()),
        (
            Direction::Taken,
            Body::ProbeAck(change)
            | Body::ProbeAckData { change, .. }
            | Body::Release(change)
            | Body::ReleaseData { change, .. },
        ) => Some(change.left()),
        _ => None,
    }
}

/// What a Probe that is taken leaves at most.
pub(crate) fn probed(entry: &Logged) -> Option<Cap>
    ensures { result ≡ told.probed entry.now.direction entry.now.message.body }
{
    match (entry.direction, entry.message.body) {
        (Direction::Taken, Body::ProbeBlock(cap)) => Some(cap),
        _ => None,
    }
}

/// The bytes that the entry brings to the manager, or that the manager grants.
pub(crate) fn brought(entry: &Logged) -> Option<LineData>
    ensures { result ≡ told.brought entry.now.direction entry.now.message.body }
{
    match (entry.direction, entry.message.body) {
        (Direction::Sent, Body::GrantData { bytes, .. })
        | (Direction::Taken, Body::ProbeAckData { bytes, .. } | Body::ReleaseData { bytes, .. }) =>
            { Some(bytes) }
        _ => None,
    }
}

/// The permission that an Acquire begins with.
pub(crate) fn asked_from(grow: Grow) -> Perm
    ensures { result ≡ rules.asked_from grow }
{
    match grow {
        Grow::NtoB | Grow::NtoT => Perm::Nothing,
        Grow::BtoT => Perm::Branch,
    }
}

/// The permission that a change begins with.
pub(crate) fn held_before(change: Change) -> Perm
    ensures { result ≡ held_before change }
{
    match change {
        Change::TtoT | Change::TtoB | Change::TtoN => Perm::Trunk,
        Change::BtoB | Change::BtoN => Perm::Branch,
        Change::NtoN => Perm::Nothing,
    }
}
