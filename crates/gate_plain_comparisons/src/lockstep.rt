//! A machine of caches and messages beside a plain flat machine: the flat machine gets the flat event of
//! each of the machine's events, and then what the harts of both are is compared.

mod same;
mod written;

use anyhow::Result;
use coherent_machine::Machine;
use elf_loader::Image;
use flat_model::FlatEvent;
use gate_plain_machine::{FlatMachine, Variant};
use hart::Retired;
use machine_types::{Config, Event, MAX_HARTS, Outcome};
use rv32_exec::Action;
use same::difference_of;
use std::alloc::Global;
use std::fmt;
use trace_recorder::{OpId, Trace};
use written::Written;

/// What the flat machine makes of an SC that fails in the machine though its flat reservation stands.
#[derive(Clone, Copy)]
pub enum Failures {
    /// It fails as well: the line may have been given up or lost for no reason that a program shows.
    Follow,
    /// It decides by its own reservation, for scripts in which no line moves but on demand.
    Decide,
}

/// How often something happened.
#[derive(Clone, Copy)]
pub struct Counts {
    /// The machine's events.
    pub events: u64,
    /// The flat events that showed them.
    pub shown: u64,
    /// Those of them by which an SC failed though its flat reservation stood.
    pub failures: u64,
    /// The SCs that succeeded.
    pub successes: u64,
}

impl Counts {
    pub fn nothing() -> Counts {
        Counts {
            events: 0,
            shown: 0,
            failures: 0,
            successes: 0,
        }
    }

    pub fn add(&mut self, other: &Counts) {
        self.events = self.events.saturating_add(other.events);
        self.shown = self.shown.saturating_add(other.shown);
        self.failures = self.failures.saturating_add(other.failures);
        self.successes = self.successes.saturating_add(other.successes);
    }
}

impl fmt::Display for Counts {
    fn fmt<W: fmt::Write>(&self, f: &mut fmt::Formatter<W>) -> fmt::Result {
        let Counts {
            events,
            shown,
            failures,
            successes,
        } = self;
        write!(
            f,
            "{events} events shown by {shown}, {successes} SCs succeed, {failures} fail for no reason"
        )
    }
}

/// A machine, and the flat machine that is to show it.
#[derive(Drop)]
pub struct Lockstep {
    machine: Machine,
    flat: FlatMachine,
    written: Written,
    failures: Failures,
    pub counts: Counts,
}

/// The last instruction that a hart has retired, and its place in the hart's list.
fn last_entry(trace: &Trace, hart: u8) -> Option<(u32, &Retired)> {
    let hart = usize::from(hart);
    if hart >= trace.harts() {
        return None;
    }
    let entries = trace.entries(hart);
    let entry = entries.last()?;
    let length = u32::try_from(entries.len()).unwrap_or(0);
    Some((length.checked_sub(1)?, entry))
}

/// The flat event of an event with this outcome, and how often it happens. A step that retires is left aside.
fn flat_events_of(event: Event, outcome: Outcome) -> (FlatEvent, u32) {
    match (event, outcome) {
        (Event::Step { hart }, Outcome::Stopped(_)) => (FlatEvent::Step { hart }, 1),
        (Event::Drain { hart, word }, Outcome::Drained) => (FlatEvent::Drain { hart, word }, 1),
        (Event::Local { hart, count }, Outcome::Retired) => (FlatEvent::Step { hart }, count),
        _ => (FlatEvent::Step { hart: 0 }, 0),
    }
}

fn flat_at_reset(
    alloc: Global,
    image: &Image,
    config: Config,
    variant: Variant,
) -> Result<FlatMachine> {
    let copy = image.try_copy(alloc)?;
    Ok(FlatMachine::new(alloc, copy, config, variant)?)
}

impl Lockstep {
    /// Both at reset.
    pub fn at_reset(
        alloc: Global,
        image: Image,
        config: Config,
        variant: Variant,
        failures: Failures,
    ) -> Result<Lockstep> {
        let written = Written::at_reset(alloc, &image)?;
        let flat = flat_at_reset(alloc, &image, config, variant)?;
        let machine = Machine::new(alloc, image, config)?;
        Ok(Lockstep {
            machine,
            flat,
            written,
            failures,
            counts: Counts::nothing(),
        })
    }

    /// The machine's trace.
    pub fn trace(&self) -> &Trace {
        self.machine.trace()
    }

    /// What a hart's next instruction is going to do.
    fn next_access(&self, hart: u8) -> Option<Action> {
        let views = self.machine.views();
        let hart = usize::from(hart);
        if hart >= views.harts() {
            return None;
        }
        views.hart(hart).next_action(self.machine.trace().image())
    }

    /// The flat event of a step that retired, which writes what it does; an SC may fail though its flat
    /// reservation stands.
    fn retires(&mut self, hart: u8, access: Option<Action>) -> Result<FlatEvent> {
        let Some(access) = access else {
            return Ok(FlatEvent::Step { hart });
        };
        let Some((place, entry)) = last_entry(self.machine.trace(), hart) else {
            return Ok(FlatEvent::Step { hart });
        };
        let is_success = entry.sc_ok;
        self.written.retired(OpId { hart, place }, access, entry)?;
        Ok(match (access, is_success) {
            (Action::Sc { addr, .. }, Some(is_success)) => {
                self.ends_conditional(hart, addr, is_success)
            }
            _ => FlatEvent::Step { hart },
        })
    }

    /// The flat event of an SC that has retired.
    fn ends_conditional(&mut self, hart: u8, address: u32, is_success: bool) -> FlatEvent {
        if is_success {
            self.counts.successes = self.counts.successes.saturating_add(1);
            return FlatEvent::Step { hart };
        }
        match (self.flat.node(usize::from(hart)), self.failures) {
            (Some(flat), Failures::Follow) if flat.reserved() == Some(address) => {
                self.counts.failures = self.counts.failures.saturating_add(1);
                FlatEvent::Fail { hart }
            }
            _ => FlatEvent::Step { hart },
        }
    }

    /// So many flat events happen, and whether the outcome of each is this one.
    fn shows(&mut self, event: FlatEvent, count: u32, expected: Outcome) -> bool {
        for _ in 0..count {
            match self.flat.apply(event) {
                Ok(outcome) if outcome == expected => {
                    self.counts.shown = self.counts.shown.saturating_add(1);
                }
                _ => return false,
            }
        }
        true
    }

    /// In what a hart of the machine differs from that of the flat machine.
    fn difference_at(&self, hart: usize) -> Option<&'static str> {
        let views = self.machine.views();
        match self.flat.node(hart) {
            Some(flat) => difference_of(&flat, &views, self.machine.trace(), hart),
            None if hart < views.harts() => Some("a hart differs"),
            None => None,
        }
    }

    /// Compares all but what was retired and performed earlier, and memory that wasn't written just now.
    fn compares(&self) -> Option<&'static str> {
        for hart in 0..MAX_HARTS as usize {
            if let Some(difference) = self.difference_at(hart) {
                return Some(difference);
            }
        }
        let (order, flat) = (self.machine.trace().performed(), self.flat.performed());
        if order.len() != flat.len() || order.last() != flat.last() {
            return Some("the performed order differs");
        }
        if !self.written.is_at_last(self.flat.memory()) {
            return Some("memory differs");
        }
        None
    }

    /// Compares all lists, the whole performed order and all of memory.
    pub fn compares_all(&self) -> Option<&'static str> {
        let trace = self.machine.trace();
        for hart in 0..MAX_HARTS as usize {
            if let Some(flat) = self.flat.node(hart) {
                if hart >= trace.harts() || trace.entries(hart) != flat.entries() {
                    return Some("a list differs");
                }
            }
        }
        if trace.performed() != self.flat.performed() {
            return Some("the performed order differs");
        }
        if !self.written.is(self.flat.memory()) {
            return Some("memory differs");
        }
        None
    }

    /// The event happens to the machine, and its flat events to the flat machine. Gives the first difference
    /// then; the machine takes the event.
    pub fn apply(&mut self, event: Event) -> Result<Option<&'static str>> {
        let access = match event {
            Event::Step { hart } => self.next_access(hart),
            _ => None,
        };
        let outcome = self.machine.apply(event)?;
        self.counts.events = self.counts.events.saturating_add(1);
        let (flat, count) = match (event, outcome) {
            (Event::Step { hart }, Outcome::Retired | Outcome::Exited(_)) => {
                (self.retires(hart, access)?, 1)
            }
            _ => flat_events_of(event, outcome),
        };
        self.written.performed(self.machine.trace().performed());
        if !self.shows(flat, count, outcome) {
            return Ok(Some("an outcome differs"));
        }
        Ok(self.compares())
    }
}
