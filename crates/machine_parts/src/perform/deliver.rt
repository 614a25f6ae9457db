//! What the delivery of a message changes.

ghost use Rattle.std.specs.Prelude.{◌≡◌, ◌<◌, ◌≤◌, length};
ghost use Rattle.machine_model.specs.Deliveries.{delivered, handled};
ghost use Rattle.machine_model.specs.Laws.{QueuesFit};
ghost use Rattle.machine_model.specs.Ready.{IsReadyBody, IsReadyMessage, IsSound};
ghost use Rattle.machine_model.specs.Views.{line_size, node_at};
ghost use Rattle.machine_model.specs.declared.act.Act.{Act};
ghost use Rattle.machine_parts.specs.Handled.{HasLine};
ghost use Rattle.machine_parts.specs.Needs.{HasNeeded, needs_of};
ghost use Rattle.machine_parts.specs.Unstalled.{IsUnstalledBody};

use super::client::{on_grant, on_probe, on_release_ack};
use super::manager::{on_acquire, on_grant_ack, on_probe_ack, on_release};
use super::messages::take;
use crate::parts::Parts;
use tl_types::{Body, Msg};

/// What the manager or the cache does with a message that it has taken.
fn handle(parts: &mut Parts, hart: u8, message: &Msg)
    requires hart { hart < length parts.old.state.views.nodes }
    requires harts { parts.old.state.views.notes.harts ≡ length parts.old.state.views.nodes }
    requires line { HasLine message.now.line parts.old.state }
    requires size { (node_at parts.old.state hart).cache.shape.size ≡ line_size parts.old.state }
    requires body { IsReadyBody hart message.now.line message.now.body parts.old.state }
    requires unstalled { IsUnstalledBody hart message.now.line message.now.body parts.old.state }
    requires queues { QueuesFit (handled hart message.now.line message.now.body parts.old.state) }
    requires log { length parts.old.state.views.nodes ≤ parts.old.room.log }
    ensures { parts.new.state ≡ handled hart message.now.line message.now.body parts.old.state }
{
    let line = message.line;
    match message.body {
        Body::AcquireBlock(grow) => on_acquire(parts, hart, line, grow),
        Body::ProbeBlock(cap) => on_probe(parts, hart, line, cap),
        Body::ProbeAck(change) => on_probe_ack(parts, hart, line, change, None),
        Body::ProbeAckData { change, bytes } => {
            on_probe_ack(parts, hart, line, change, Some(bytes))
        }
        Body::Release(_) => on_release(parts, hart, line, None),
        Body::ReleaseData { bytes, .. } => on_release(parts, hart, line, Some(bytes)),
        Body::Grant(cap) => on_grant(parts, hart, line, cap, None),
        Body::GrantData { cap, bytes } => on_grant(parts, hart, line, cap, Some(bytes)),
        Body::ReleaseAck => on_release_ack(parts, hart, line),
        Body::GrantAck => on_grant_ack(parts, line),
    }
}

/// The message leaves the front of its queue and is handled: the log has it first, and then what is
/// sent.
pub(crate) fn deliver(parts: &mut Parts, hart: u8, message: &Msg)
    requires sound { IsSound parts.old.state }
    requires hart { hart < length parts.old.state.views.nodes }
    requires ready { IsReadyMessage hart message.now parts.old.state }
    requires unstalled { IsUnstalledBody hart message.now.line message.now.body parts.old.state }
    requires queues { QueuesFit (delivered hart message.now parts.old.state) }
    requires room { HasNeeded hart (needs_of parts.old.state hart (Act.Deliver message.now)) parts.old.room }
    ensures { parts.new.state ≡ delivered hart message.now parts.old.state }
{
    take(parts, hart, message);
    handle(parts, hart, message);
}
