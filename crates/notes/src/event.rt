//! What is wrong with an event, or an address, that no machine of a size has.

use crate::machine::Machine;
use machine_types::{Event, MAX_ROW};
use std::fmt::{self, Display, Formatter};
use trace_text::Script;

/// Which of its numbers makes an event bad for the machine of a script.
#[derive(Clone, Copy)]
pub struct EventNote<'a> {
    pub event: Event,
    pub script: &'a Script,
}

impl Display for EventNote<'_> {
    fn fmt<W: fmt::Write>(&self, f: &mut Formatter<W>) -> fmt::Result {
        let machine = machine_of(self.script);
        let flaw = match self.event {
            Event::Drain { word, .. } => machine.address_flaw(word, 4),
            Event::Evict { line, .. } => machine.address_flaw(line, machine.line),
            _ => None,
        };
        let hart = u32::from(hart_of(self.event));
        match (machine.hart_flaw(hart).or(flaw), self.event) {
            (Some(flaw), _) => write!(f, "{flaw}"),
            (None, Event::Local { count, .. }) => {
                write!(f, "count {count}: it is 1 to {MAX_ROW}")
            }
            (None, _) => Ok(()),
        }
    }
}

/// That no line of memory is at an address, by a script.
#[derive(Clone, Copy)]
pub struct OutsideNote<'a> {
    address: u32,
    script: &'a Script,
}

impl<'a> OutsideNote<'a> {
    /// None where there is one.
    pub fn of(address: u32, script: &'a Script) -> Option<OutsideNote<'a>> {
        machine_of(script).address_flaw(address, 1)?;
        Some(OutsideNote { address, script })
    }
}

impl Display for OutsideNote<'_> {
    fn fmt<W: fmt::Write>(&self, f: &mut Formatter<W>) -> fmt::Result {
        match machine_of(self.script).address_flaw(self.address, 1) {
            Some(flaw) => write!(f, "{flaw}"),
            None => Ok(()),
        }
    }
}

fn machine_of(script: &Script) -> Machine {
    Machine {
        text: "script",
        harts: script.harts,
        kib: script.kib,
        line: script.line.bytes(),
    }
}

fn hart_of(event: Event) -> u8 {
    match event {
        Event::Step { hart }
        | Event::Drain { hart, .. }
        | Event::Evict { hart, .. }
        | Event::Deliver { hart, .. }
        | Event::Local { hart, .. } => hart,
    }
}
