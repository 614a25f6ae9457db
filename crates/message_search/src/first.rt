//! The event that first sends a message.
ghost use Rattle.std.specs.Prelude.{◌≡◌, ◌≤◌, IfOk, drop, length};
ghost use Rattle.std.specs.List.{list_any};
ghost use Rattle.message_search.specs.First.{IsFirst};
ghost use Rattle.message_search.specs.Sought.{is_sought};

use crate::sought::Sought;
use coherent_machine::Machine;
use elf_loader::Image;
use machine_types::{Config, Event};
use std::alloc::{AllocError, Global};

/// How many of the events, played from reset, it takes until such a message is sent; none where none of them sends one.
/// The only error of events that a machine takes is want of memory.
pub fn first_sent(
    alloc: Global,
    image: Image,
    config: Config,
    events: &[Event],
    sought: &Sought,
) -> Result<Option<usize>, AllocError>
    ensures { IfOk result (IsFirst image config sought.now events.now) }
{
    let mut machine = Machine::new(alloc, image, config)?;
    let mut count = 0;
    let mut rest = events;
    while let [event, tail @ ..] = rest {
        let told = messages_of(&machine);
        if let Err(_error) = machine.apply(*event) {
            return Err(AllocError);
        }
        count += 1;
        if is_sent_behind(&machine, told, sought) {
            return Ok(Some(count));
        }
        rest = tail;
    }
    Ok(None)
}

// How many messages the machine has logged.
fn messages_of(machine: &Machine) -> usize
    ensures { result ≡ length machine.now.trace.log }
{
    machine.trace().log().len()
}

// Whether such a message was sent, behind the first so many that were logged.
fn is_sent_behind(machine: &Machine, told: usize, sought: &Sought) -> bool
    requires { told ≤ length machine.now.trace.log }
    ensures { result ≡ list_any (is_sought sought.now) (drop told machine.now.trace.log) }
{
    sought.is_sent_in(&machine.trace().log()[told..])
}
