//! What the message in front of a queue comes to.
ghost use Rattle.std.specs.Prelude.{◌≡◌, ◌<◌, ◌≤◌, ℕ, length};
ghost use Rattle.client_cache.specs.Cache.{probed};
ghost use Rattle.directory.specs.Directory.{acquired, line_at};
ghost use Rattle.elf_loader.specs.Size.{base};
ghost use Rattle.machine_model.specs.Deliveries.{plan_body, plan_deliver, unless_acks_full, unless_busy, unless_releasing};
ghost use Rattle.machine_model.specs.declared.act.Plan.{Plan as AnyPlan};
ghost use Rattle.machine_model.specs.Ready.{IsSound};
ghost use Rattle.machine_model.specs.Views.{line_size, node_at, place_of};
ghost use Rattle.machine_parts.specs.Deciding.{unless_stalled};
ghost use Rattle.tilelink_channels.specs.Queues.{front_of, queue_of};
ghost use Rattle.tl_types.specs.declared.permission.Cap.{Cap as AnyCap};
ghost use Rattle.tl_types.specs.declared.permission.Grow.{Grow as AnyGrow};

use crate::lines::place_of;
use crate::node::Node;
use crate::parts::Parts;
use client_cache::ClientCache;
use directory::{Directory, Transaction};
use machine_model::{Act, Plan};
use machine_types::Outcome;
use tl_types::{Body, Channel, Msg};

/// An Acquire waits while its line has a transaction.
fn stalled_acquire(directory: &Directory, place: u32) -> Option<Outcome>
    requires { place < length directory.now.lines }
    ensures { (hart : ℕ) (grow : AnyGrow) (go : AnyPlan) → unless_busy (acquired directory.now place hart grow).0 go ≡ unless_stalled result go }
{
    match directory.transaction(place) {
        Transaction::Idle => None,
        Transaction::Probing(..) | Transaction::Granted(_) => Some(Outcome::Busy),
    }
}

/// A Probe waits while the cache's Release of its line is unanswered.
fn stalled_probe(cache: &ClientCache, line: u32) -> Option<Outcome>
    ensures { (cap : AnyCap) (go : AnyPlan) → unless_releasing (probed cache.now line cap).0 go ≡ unless_stalled result go }
{
    if cache.is_releasing(line) {
        Some(Outcome::Releasing)
    } else {
        None
    }
}

/// A Grant waits for room for its GrantAck.
fn stalled_grant(node: &Node) -> Option<Outcome>
    ensures { (go : AnyPlan) → unless_acks_full node.now go ≡ unless_stalled result go }
{
    if node.queues.has_room(Channel::E) {
        None
    } else {
        Some(Outcome::AckFull)
    }
}

/// Why a message that stands in front can't be handled yet.
fn stalled(parts: &Parts, hart: u8, message: &Msg) -> Option<Outcome>
    requires hart { hart < length parts.now.state.views.nodes }
    requires from { base ≤ message.now.line }
    requires line { place_of (line_size parts.now.state) message.now.line < length parts.now.state.views.notes.lines }
    ensures { (go : AnyPlan) → plan_body parts.now.state hart (node_at parts.now.state hart) message.now.line message.now.body go ≡ unless_stalled result go }
{
    let node = &parts.nodes[hart as usize];
    match message.body {
        Body::AcquireBlock(_) => {
            let place = place_of(parts.config.line, message.line);
            stalled_acquire(&parts.directory, place)
        }
        Body::ProbeBlock(_) => stalled_probe(&node.cache, message.line),
        Body::Grant(_) | Body::GrantData { .. } => stalled_grant(node),
        Body::ProbeAck(_)
        | Body::ProbeAckData { .. }
        | Body::Release(_)
        | Body::ReleaseData { .. }
        | Body::ReleaseAck
        | Body::GrantAck => None,
    }
}

/// What the message in front of the hart's queue of a channel comes to.
pub(crate) fn plan_deliver(parts: &Parts, hart: u8, channel: Channel) -> Plan
    requires sound { IsSound parts.now.state }
    requires hart { hart < length parts.now.state.views.nodes }
    ensures { result ≡ plan_deliver parts.now.state hart (node_at parts.now.state hart) channel }
{
    let node = parts.node(hart);
    let Some(message) = node.queues.front(channel) else {
        return Plan::Stays(Outcome::Empty);
    };
    match stalled(parts, hart, &message) {
        None => Plan::Changes(Act::Deliver(message)),
        Some(outcome) => Plan::Stays(outcome),
    }
}
