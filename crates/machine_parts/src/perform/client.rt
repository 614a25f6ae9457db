//! What a hart's cache does with a message that it has taken.

ghost use Rattle.std.specs.Prelude.{◌≡◌, ◌<◌, IsTrue, length};
ghost use Rattle.std.specs.FinSet as set;
ghost use Rattle.client_cache.specs.Cache.{probed};
ghost use Rattle.machine_model.specs.Deliveries.{on_grant, on_probe, on_release_ack, probe_ack_body, with_less};
ghost use Rattle.machine_model.specs.Laws.{QueuesFit};
ghost use Rattle.machine_model.specs.Views.{line_size, node_at};
ghost use Rattle.machine_parts.specs.Handled.{installed, shrunk};
ghost use Rattle.machine_parts.specs.Unstalled.{IsAnswered};

use super::messages::send;
use crate::parts::Parts;
use client_cache::Probed;
use tl_types::{Body, Cap, Change, LineData, Msg};

/// A ReleaseAck answers the line's Release.
pub(crate) fn on_release_ack(parts: &mut Parts, hart: u8, line: u32)
    requires { hart < length parts.old.state.views.nodes }
    ensures { parts.new.state ≡ on_release_ack hart line parts.old.state }
{
    parts.nodes[hart as usize].cache.on_release_ack(line);
}

/// The copy is installed clean.
fn install(parts: &mut Parts, hart: u8, line: u32, cap: Cap, bytes: Option<LineData>)
    requires hart { hart < length parts.old.state.views.nodes }
    requires tracked { IsTrue (set.contains (node_at parts.old.state hart).cache.acquiring line) }
    ensures state { parts.new.state ≡ installed hart line cap bytes parts.old.state }
    ensures room { parts.new.room ≡ parts.old.room }
{
    parts.nodes[hart as usize].cache.on_grant(line, cap, bytes);
}

/// A Grant: the copy is installed clean, and the manager hears of it.
pub(crate) fn on_grant(parts: &mut Parts, hart: u8, line: u32, cap: Cap, bytes: Option<LineData>)
    requires hart { hart < length parts.old.state.views.nodes }
    requires tracked { IsTrue (set.contains (node_at parts.old.state hart).cache.acquiring line) }
    requires queues { QueuesFit (on_grant hart line cap bytes parts.old.state) }
    requires log { 0 < parts.old.room.log }
    ensures { parts.new.state ≡ on_grant hart line cap bytes parts.old.state }
{
    install(parts, hart, line, cap, bytes);
    send(
        parts,
        hart,
        &Msg {
            line,
            body: Body::GrantAck,
        },
    );
}

/// The copy shrinks to what the Probe allows.
fn shrink(parts: &mut Parts, hart: u8, line: u32, cap: Cap) -> Probed
    requires hart { hart < length parts.old.state.views.nodes }
    requires size { (node_at parts.old.state hart).cache.shape.size ≡ line_size parts.old.state }
    ensures answer { result ≡ (probed (node_at parts.old.state hart).cache line cap).0 }
    ensures state { parts.new.state ≡ shrunk hart line cap parts.old.state }
    ensures room { parts.new.room ≡ parts.old.room }
{
    let size = parts.config.line;
    let node = &mut parts.nodes[hart as usize];
    let answer = node.cache.on_probe(line, cap);
    node.keep_reservation(size, line);
    answer
}

fn probe_ack_body(change: Change, bytes: Option<LineData>) -> Body
    ensures { result ≡ probe_ack_body change bytes }
{
    match bytes {
        None => Body::ProbeAck(change),
        Some(bytes) => Body::ProbeAckData { change, bytes },
    }
}

/// A Probe: the copy shrinks, and its answer says to what.
pub(crate) fn on_probe(parts: &mut Parts, hart: u8, line: u32, cap: Cap)
    requires hart { hart < length parts.old.state.views.nodes }
    requires size { (node_at parts.old.state hart).cache.shape.size ≡ line_size parts.old.state }
    requires unstalled { IsAnswered (probed (node_at parts.old.state hart).cache line cap).0 }
    requires queues { QueuesFit (on_probe hart line cap parts.old.state) }
    requires log { 0 < parts.old.room.log }
    ensures { parts.new.state ≡ on_probe hart line cap parts.old.state }
{
    let answer = shrink(parts, hart, line, cap);
    let Probed::Answered { change, bytes } = answer else {
        unreachable!()
    };
    send(
        parts,
        hart,
        &Msg {
            line,
            body: probe_ack_body(change, bytes),
        },
    );
}
