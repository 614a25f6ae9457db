//! What a miss changes: an Acquire goes out.

ghost use Rattle.std.specs.Prelude.{◌≡◌, ◌<◌, length};
ghost use Rattle.client_cache.specs.Cache.{wanted};
ghost use Rattle.machine_model.specs.declared.act.Act.TheVariants as act;
ghost use Rattle.machine_model.specs.Changing.{missed};
ghost use Rattle.machine_model.specs.Laws.{QueuesFit};
ghost use Rattle.machine_model.specs.Ready.{IsSound};
ghost use Rattle.machine_model.specs.Views.{node_at, with_node};
ghost use Rattle.machine_parts.specs.Needs.{HasNeeded, needs_of};

use super::messages::send;
use crate::parts::Parts;
use tl_types::{Body, Grow, Msg};

/// An Acquire takes a tracker and a slot, and goes out.
pub(crate) fn miss(parts: &mut Parts, hart: u8, line: u32, grow: Grow)
    requires sound { IsSound parts.old.state }
    requires hart { hart < length parts.old.state.views.nodes }
    requires room { HasNeeded hart (needs_of parts.old.state hart (act.Miss line grow)) parts.old.room }
    requires room_in_queue { QueuesFit (missed hart line grow parts.old.state) }
    ensures { parts.new.state ≡ missed hart line grow parts.old.state }
{
    ask(parts, hart, line, grow);
    let body = Body::AcquireBlock(grow);
    send(parts, hart, &Msg { line, body });
}

// The cache notes that an Acquire of the line is outstanding.
fn ask(parts: &mut Parts, hart: u8, line: u32, grow: Grow)
    requires hart { hart < length parts.old.state.views.nodes }
    ensures state { parts.new.state ≡ with_node hart (record (node_at parts.old.state hart) { cache = (wanted (node_at parts.old.state hart).cache line grow).1 }) parts.old.state }
    ensures room { parts.new.room ≡ parts.old.room }
{
    parts.nodes[hart as usize].cache.want(line, grow);
}
