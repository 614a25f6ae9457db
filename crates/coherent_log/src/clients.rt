//! What a log says of a client and a line, and the rules that ask about the client alone.
ghost use Rattle.std.specs.Prelude.{◌≡◌, ◌↔◌, IsTrue};
ghost use Rattle.std.specs.Option.{option_or};
ghost use Rattle.coherent_log.specs.Followed.{client_noted};
ghost use Rattle.coherent_log.specs.Told as told;
ghost use Rattle.coherent_log.specs.Rules as rules;
ghost use Rattle.tl_types.specs.Shrink.{shrunk_by};

use crate::messages::{asked_from, at_client, at_manager, held_before, probed};
use tl_types::{Body, Cap, Change, Perm, shrink};
use trace_recorder::Logged;

/// A client's permission of a line, since the message of that number, counted from 0.
#[derive(Clone, Copy, Debug, PartialEq, Eq)]
pub struct Held {
    pub perm: Perm,
    pub since: usize,
}

/// A Probe that a client took: what it leaves at most, and its number in the log, counted from 0.
#[derive(Clone, Copy, Debug, PartialEq, Eq)]
pub struct Probed {
    pub cap: Cap,
    pub index: usize,
}

/// What a log says last of a client and a line.
#[derive(Clone, Copy)]
pub(crate) struct ClientLog {
    /// The client's permission.
    pub(crate) held: Option<Held>,
    /// The same, by the manager.
    pub(crate) noted: Option<Held>,
    /// The Probe that the client took.
    pub(crate) probe: Option<Probed>,
}

impl ClientLog {
    /// Of a client that no message named.
    pub(crate) const NOTHING: ClientLog = ClientLog {
        held: None,
        noted: None,
        probe: None,
    };

    /// The entry is the message of this number.
    pub(crate) fn note(&mut self, entry: &Logged, index: usize)
        ensures { self.new ≡ client_noted entry.now index self.old }
    {
        self.held = held_since(at_client(entry), index, self.held);
        self.noted = held_since(at_manager(entry), index, self.noted);
        self.probe = probed_at(probed(entry), index, self.probe);
    }

    /// Whether the message begins with what the client has.
    pub(crate) fn is_permission_held(&self, body: &Body) -> bool
        ensures { IsTrue result ↔ rules.IsPermissionHeld body.now (rules.perm_in self.now.held) }
    {
        match body {
            Body::AcquireBlock(grow) => is_perm(asked_from(*grow), perm_in(self.held)),
            Body::Release(change) | Body::ReleaseData { change, .. } => {
                is_perm(held_before(*change), perm_in(self.held))
            }
            _ => true,
        }
    }

    /// Whether the message tells what the Probe leaves.
    pub(crate) fn is_probe_obeyed(&self, body: &Body) -> bool
        ensures { IsTrue result ↔ rules.IsProbeObeyed body.now (rules.perm_in self.now.held) self.now.probe }
    {
        match body {
            Body::ProbeAck(change) | Body::ProbeAckData { change, .. } => match self.probe {
                Some(probe) => is_shrunk(*change, perm_in(self.held), probe.cap),
                None => true,
            },
            _ => true,
        }
    }

    /// Whether the client has Trunk, where the message has data.
    pub(crate) fn is_data_asked(&self, body: &Body) -> bool
        ensures { IsTrue result ↔ rules.IsDataAsked body.now (rules.perm_in self.now.held) }
    {
        match body {
            Body::ProbeAckData { .. } | Body::ReleaseData { .. } => {
                is_perm(perm_in(self.held), Perm::Trunk)
            }
            _ => true,
        }
    }

    /// Whether the message may go to another client, beside this one.
    pub(crate) fn may_go_beside(&self, body: &Body) -> bool
        ensures { IsTrue result ↔ rules.MayGoBeside body.now (rules.perm_in self.now.noted) }
    {
        match body {
            Body::Grant(cap) | Body::GrantData { cap, .. } => {
                may_be_granted_beside(*cap, perm_in(self.noted))
            }
            _ => true,
        }
    }
}

// Nothing, where no message left another permission.
fn perm_in(held: Option<Held>) -> Perm
    ensures { result ≡ rules.perm_in held }
{
    match held {
        Some(held) => held.perm,
        None => Perm::Nothing,
    }
}

fn held_since(perm: Option<Perm>, index: usize, before: Option<Held>) -> Option<Held>
    ensures { result ≡ option_or (told.held_since index perm) before }
{
    match perm {
        Some(perm) => Some(Held { perm, since: index }),
        None => before,
    }
}

fn probed_at(cap: Option<Cap>, index: usize, before: Option<Probed>) -> Option<Probed>
    ensures { result ≡ option_or (told.probed_at index cap) before }
{
    match cap {
        Some(cap) => Some(Probed { cap, index }),
        None => before,
    }
}

fn is_perm(first: Perm, second: Perm) -> bool
    ensures { IsTrue result ↔ (first ≡ second) }
{
    first == second
}

// Whether a Probe leaves that of the permission.
fn is_shrunk(change: Change, perm: Perm, cap: Cap) -> bool
    ensures { IsTrue result ↔ (change ≡ (shrunk_by perm cap).1) }
{
    let (_, left) = shrink(perm, cap);
    change == left
}

fn may_be_granted_beside(cap: Cap, other: Perm) -> bool
    ensures { IsTrue result ↔ rules.MayBeGrantedBeside cap other }
{
    match cap {
        Cap::ToT => other == Perm::Nothing,
        Cap::ToB => other != Perm::Trunk,
        Cap::ToN => true,
    }
}
