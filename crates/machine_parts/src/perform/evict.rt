//! What an eviction changes: a Release goes out.

ghost use Rattle.std.specs.Prelude.{◌≡◌, ◌<◌, length};
ghost use Rattle.client_cache.specs.Cache.{evicted};
ghost use Rattle.machine_model.specs.declared.act.Act.TheVariants as act;
ghost use Rattle.machine_model.specs.Changing.{given_up, release_body as spec_release_body};
ghost use Rattle.machine_model.specs.Deliveries.{with_less};
ghost use Rattle.machine_model.specs.Laws.{QueuesFit};
ghost use Rattle.machine_model.specs.Ready.{IsSound};
ghost use Rattle.machine_model.specs.Views.{node_at, with_node};
ghost use Rattle.machine_parts.specs.Needs.{HasNeeded, needs_of};
ghost use Rattle.machine_parts.specs.Unstalled.{IsGivenUp};

use super::messages::send;
use crate::node::Node;
use crate::parts::Parts;
use client_cache::Evict;
use tl_types::{Body, Change, LineData, LineSize, Msg};

/// The cache gives a line up, and a Release goes out.
pub(crate) fn give_up(parts: &mut Parts, hart: u8, line: u32)
    requires sound { IsSound parts.old.state }
    requires hart { hart < length parts.old.state.views.nodes }
    requires room { HasNeeded hart (needs_of parts.old.state hart (act.Evict line)) parts.old.room }
    requires unstalled { IsGivenUp (evicted (node_at parts.old.state hart).cache line).0 }
    requires room_in_queue { QueuesFit (given_up hart line parts.old.state) }
    ensures { parts.new.state ≡ given_up hart line parts.old.state }
{
    let Evict::Evicted { change, bytes } = lose(parts, hart, line) else {
        unreachable!()
    };
    let body = release_body(change, bytes);
    send(parts, hart, &Msg { line, body });
}

fn release_body(change: Change, bytes: Option<LineData>) -> Body
    ensures { result ≡ spec_release_body change bytes }
{
    match bytes {
        None => Body::Release(change),
        Some(bytes) => Body::ReleaseData { change, bytes },
    }
}

// The copy leaves, and a reservation of one of the line's words with it.
fn lose(parts: &mut Parts, hart: u8, line: u32) -> Evict
    requires sound { IsSound parts.old.state }
    requires hart { hart < length parts.old.state.views.nodes }
    ensures answer { result ≡ (evicted (node_at parts.old.state hart).cache line).0 }
    ensures state { parts.new.state ≡ with_node hart (with_less (evicted (node_at parts.old.state hart).cache line).1 line (node_at parts.old.state hart)) parts.old.state }
    ensures room { parts.new.room ≡ parts.old.room }
{
    let size = parts.config.line;
    lose_copy(&mut parts.nodes[hart as usize], size, line)
}

fn lose_copy(node: &mut Node, size: LineSize, line: u32) -> Evict
    requires size { size ≡ node.old.cache.shape.size }
    ensures answer { result ≡ (evicted node.old.cache line).0 }
    ensures node { node.new ≡ with_less (evicted node.old.cache line).1 line node.old }
{
    let answer = node.cache.evict(line);
    node.keep_reservation(size, line);
    answer
}
