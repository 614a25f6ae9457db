//! Messages that go into a hart's queues and leave them. The log has each.

ghost use Rattle.std.specs.Prelude.{◌≡◌, ◌-◌, ◌<◌, length};
ghost use Rattle.machine_model.specs.Deliveries.{taken};
ghost use Rattle.machine_model.specs.Views.{node_at, sent};
ghost use Rattle.tilelink_channels.specs.Queues.{queue_of, room_of};
ghost use Rattle.tl_types.specs.Message.{channel_of};

use crate::parts::Parts;
use tl_types::Msg;

/// Sends a message to a hart's cache, or from it to the manager.
pub(crate) fn send(parts: &mut Parts, hart: u8, message: &Msg)
    requires hart { hart < length parts.old.state.views.nodes }
    requires queue { length (queue_of (node_at parts.old.state hart).queues (channel_of message.now)) < room_of (channel_of message.now) }
    requires log { 0 < parts.old.room.log }
    ensures state { parts.new.state ≡ sent hart message.now parts.old.state }
    ensures room { parts.new.room.log ≡ parts.old.room.log - 1 }
{
    parts.nodes[hart as usize].queues.push(*message);
    parts.trace.send(hart, *message);
}

/// Takes the message in front off the queue of its channel.
pub(crate) fn take(parts: &mut Parts, hart: u8, message: &Msg)
    requires hart { hart < length parts.old.state.views.nodes }
    requires log { 0 < parts.old.room.log }
    ensures state { parts.new.state ≡ taken hart message.now parts.old.state }
    ensures room { parts.new.room.log ≡ parts.old.room.log - 1 }
{
    parts.nodes[hart as usize].queues.pop(message.channel());
    parts.trace.take(hart, *message);
}
