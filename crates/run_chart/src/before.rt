//! What is kept of a machine before an event, to tell what the event did.
ghost use Rattle.std.specs.Prelude.{◌≡◌};
ghost use Rattle.run_chart.specs.Rows as rows;

use crate::accesses::address_at;
use event_stream::coherent_machine::{Machine, Views};
use event_stream::{Lengths, action_of, hart_of};
use machine_types::Event;
use rv32_exec::Action;

/// How long the lists are, what the instruction of a step is to do, the word that the event's hart has reserved,
/// and the address that the event is about.
#[derive(Clone, Copy)]
pub(crate) struct Before {
    pub lengths: Lengths,
    pub action: Option<Action>,
    pub reserved: Option<u32>,
    pub address: Option<u32>,
}

/// The word that a hart has reserved; of one that isn't there, none.
pub(crate) fn reserved_in(views: Views<'_>, hart: usize) -> Option<u32>
    ensures { result ≡ rows.reserved_in views.entry hart }
{
    if hart < views.harts() {
        views.reserved(hart)
    } else {
        None
    }
}

pub(crate) fn stood_before(machine: &Machine, event: Event) -> Before
    ensures { result ≡ rows.before machine.now event }
{
    let hart = hart_of(event);
    Before {
        lengths: Lengths::of(machine, hart),
        action: action_of(machine, event),
        reserved: reserved_in(machine.views(), hart as usize),
        address: address_at(machine, event),
    }
}
