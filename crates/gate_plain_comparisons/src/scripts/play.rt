//! A script played on an image.

use super::case::Case;
use super::machines::Playable;
use crate::images::ImageKind;
use anyhow::Result;
use coherent_machine::Machine;
use gate_plain_machine::PlainMachine;
use hart_ends::put_end;
use machine_types::{Event, Outcome};
use std::alloc::Global;
use std::io::{self, Write};
use trace_recorder::Trace;
use trace_text::{Script, write_trace};

/// What a play gave, as text.
#[derive(Drop)]
pub struct Played {
    /// A line for each event.
    outcomes: Vec<u8>,
    trace: Vec<u8>,
    /// A line for each hart.
    ends: Vec<u8>,
}

/// In what the plain machine and the machine differ from what is kept of a case.
#[derive(Clone, Copy)]
pub struct Differences {
    pub plain: Option<&'static str>,
    pub coherent: Option<&'static str>,
}

impl Played {
    pub fn nothing(alloc: Global) -> Played {
        Played {
            outcomes: Vec::new(alloc),
            trace: Vec::new(alloc),
            ends: Vec::new(alloc),
        }
    }

    /// Plays a case with each machine.
    pub fn differences(&mut self, alloc: Global, case: &Case) -> Result<Differences> {
        self.play::<PlainMachine>(alloc, case)?;
        let plain = self.difference(case);
        self.play::<Machine>(alloc, case)?;
        let coherent = self.difference(case);
        Ok(Differences { plain, coherent })
    }

    /// Plays a case, in place of what was played before.
    fn play<M: Playable + Drop>(&mut self, alloc: Global, case: &Case) -> Result<()> {
        self.outcomes.clear();
        self.trace.clear();
        self.ends.clear();
        let script = case.read_script(alloc)?;
        let mut machine = at_reset::<M>(alloc, case, &script)?;
        self.play_events(&mut machine, script.events.as_slice())?;
        self.write_end_of(machine)
    }

    fn play_events<M: Playable>(&mut self, machine: &mut M, events: &[Event]) -> Result<()> {
        for event in events {
            match machine.happen(*event)? {
                Outcome::Missed(line) => writeln!(&mut self.outcomes, "Missed(0x{line:08x})")?,
                outcome => writeln!(&mut self.outcomes, "{outcome:?}")?,
            }
        }
        Ok(())
    }

    fn write_end_of<M: Playable>(&mut self, machine: M) -> Result<()> {
        let (trace, outputs) = machine.ended()?;
        self.write_ends(&trace, &outputs)?;
        Ok(())
    }

    fn write_ends(&mut self, trace: &Trace, outputs: &[Vec<u32>]) -> io::Result<()> {
        write_trace(trace, &mut self.trace)?;
        for (hart, (status, output)) in trace.statuses().iter().zip(outputs).enumerate() {
            put_end(hart, *status, output, &mut self.ends)?;
            writeln!(&mut self.ends)?;
        }
        Ok(())
    }

    /// What isn't as kept of the case; the outcomes of programs from ELF files aren't kept.
    fn difference(&self, case: &Case) -> Option<&'static str> {
        if let ImageKind::Raw = case.kind {
            if self.outcomes.as_slice() != case.outcomes.as_slice() {
                return Some("outcomes differ");
            }
        }
        if self.trace.as_slice() != case.trace.as_slice() {
            return Some("trace differs");
        }
        if self.ends.as_slice() != case.ends.as_slice() {
            return Some("ends differ");
        }
        None
    }
}

fn at_reset<M: Playable>(alloc: Global, case: &Case, script: &Script) -> Result<M> {
    let (image, config) = case.opening(alloc, script)?;
    M::at_reset(alloc, image, config)
}
