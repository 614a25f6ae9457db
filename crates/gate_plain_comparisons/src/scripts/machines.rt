//! The machines that scripts are played on.

use anyhow::{Context, Result, bail};
use coherent_machine::Machine;
use elf_loader::Image;
use gate_plain_machine::PlainMachine;
use machine_types::{Config, Event, Outcome};
use std::alloc::Global;
use trace_recorder::Trace;

/// What a play asks of a machine.
pub trait Playable: Sized {
    fn at_reset(alloc: Global, image: Image, config: Config) -> Result<Self>;

    fn happen(&mut self, event: Event) -> Result<Outcome>;

    /// The trace, and what each hart put out.
    fn ended(self) -> Result<(Trace, Vec<Vec<u32>>)>;
}

impl Playable for PlainMachine {
    fn at_reset(alloc: Global, image: Image, config: Config) -> Result<Self> {
        Ok(PlainMachine::new(alloc, image, config)?)
    }

    fn happen(&mut self, event: Event) -> Result<Outcome> {
        match self.apply(event) {
            Ok(outcome) => Ok(outcome),
            Err(refusal) => bail!("{event:?}: {refusal:?}"),
        }
    }

    fn ended(self) -> Result<(Trace, Vec<Vec<u32>>)> {
        self.into_parts()?.context("a trace")
    }
}

impl Playable for Machine {
    fn at_reset(alloc: Global, image: Image, config: Config) -> Result<Self> {
        Ok(Machine::new(alloc, image, config)?)
    }

    fn happen(&mut self, event: Event) -> Result<Outcome> {
        Ok(self.apply(event)?)
    }

    fn ended(self) -> Result<(Trace, Vec<Vec<u32>>)> {
        Ok(self.into_parts())
    }
}
