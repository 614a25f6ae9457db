//! What an act changes, once it has its room: each kind of event in its file, a delivery by who takes the message.

mod client;
mod commit;
mod deed;
mod deliver;
mod drain;
mod evict;
mod local;
mod manager;
mod messages;
mod miss;
mod step;

ghost use Rattle.std.specs.Prelude.{◌≡◌, ◌+◌, ◌<◌, ◌≤◌, ℕ, IsOk, OnOk, OnErr, length};
ghost use Rattle.machine_types.specs.declared.limits.TheConstants.{MAX_ENTRIES};
ghost use Rattle.machine_model.specs.Changing as changing;
ghost use Rattle.machine_model.specs.Events as events;
ghost use Rattle.machine_model.specs.Ready.{IsReady, IsReadyAct, IsSound};
ghost use Rattle.machine_parts.specs.Needs.{HasNeeded, needs_of};
ghost use Rattle.machine_parts.specs.Unstalled.{IsUnstalled};

use crate::parts::Parts;
use deliver::deliver;
use drain::drain;
use evict::give_up;
use local::go_alone;
use machine_model::Act;
use miss::miss;
use std::alloc::AllocError;
use step::{retire, stop};

/// The act is performed.
pub(crate) fn perform(parts: &mut Parts, hart: u8, act: &Act) -> Result<(), AllocError>
    requires sound { IsSound parts.old.state }
    requires hart { hart < length parts.old.state.views.nodes }
    requires ready { IsReady hart act.now parts.old.state }
    requires unstalled { IsUnstalled hart act.now parts.old.state }
    requires fits { changing.next_place parts.old.state hart + events.entries_by act.now ≤ MAX_ENTRIES }
    requires room { HasNeeded hart (needs_of parts.old.state hart act.now) parts.old.room }
    ensures ok { OnOk result (parts.new.state ≡ changing.acted hart act.now parts.old.state) }
    ensures err { OnErr result (parts.new.state ≡ parts.old.state) }
    ensures stop { (code : ℕ) → act.now ≡ Act.Stop code → IsOk result }
{
    match act {
        Act::Stop(code) => stop(parts, hart, *code),
        Act::Retire { entry, instr, deed } => retire(parts, hart, entry, instr, deed)?,
        Act::Miss { line, grow } => miss(parts, hart, *line, *grow),
        Act::Drain(word) => drain(parts, hart, *word),
        Act::Evict(line) => give_up(parts, hart, *line),
        Act::Deliver(message) => deliver(parts, hart, message),
        Act::Local(count) => go_alone(parts, hart, *count),
    }
    Ok(())
}
