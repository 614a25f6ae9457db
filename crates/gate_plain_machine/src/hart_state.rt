//! What belongs to one hart, whatever memory is made of.

use crate::buffer::Groups;
use crate::deciding::{Act, Deed, Plan};
use crate::steps::{after_instr, next_alone};
use elf_loader::Image;
use hart::{Hart, Retired};
use machine_types::{Config, MemoryModel, Outcome};
use rv32_decode::Instr;
use std::alloc::{AllocError, Global};
use trace_recorder::OpId;

/// A hart's operations at these places of its list are performed, one behind another.
pub(crate) fn perform(
    performed: &mut Vec<OpId>,
    hart: u8,
    places: &[u32],
) -> Result<(), AllocError> {
    for place in places {
        let place = *place;
        performed.push(OpId { hart, place })?;
    }
    Ok(())
}

#[derive(Drop)]
pub(crate) struct HartState {
    pub hart: Hart,
    /// What it has retired.
    pub entries: Vec<Retired>,
    /// The numbers that it put out.
    pub output: Vec<u32>,
    pub reserved: Option<u32>,
    pub buffer: Groups,
}

impl HartState {
    pub fn at_reset(alloc: Global, image: &Image, config: &Config, id: u8) -> HartState {
        HartState {
            hart: Hart::at_reset(id, image.entry(), config.harts),
            entries: Vec::new(alloc),
            output: Vec::new(alloc),
            reserved: None,
            buffer: Groups::new(alloc),
        }
    }

    /// How many instructions have retired: the place of the next one.
    pub fn place(&self) -> u32 {
        u32::try_from(self.entries.len()).unwrap_or(u32::MAX)
    }

    /// A drain, where the caches are left aside.
    pub fn plan_drain(&self, word: u32) -> Plan {
        if !self.buffer.has(word) {
            return Plan::Stays(Outcome::NoEntry);
        }
        match self.buffer.drainable(word) {
            Some(_) => Plan::Changes(Act::Drain(word)),
            None => Plan::Stays(Outcome::NotOldest),
        }
    }

    /// What an instruction does to its hart alone as it retires; then the hart moves on, and its list has
    /// one more entry.
    pub fn retired(
        &mut self,
        alloc: Global,
        model: MemoryModel,
        entry: Retired,
        instr: &Instr,
        deed: &Deed,
    ) -> Result<(), AllocError> {
        match deed {
            Deed::Output(number) => self.output.push(*number)?,
            Deed::Store(store) => self.buffer.after_put(alloc, model, store)?,
            Deed::Seal => self.buffer.after_seal(),
            Deed::Lr(word) => self.reserved = Some(*word),
            Deed::Fail | Deed::Sc { .. } => self.reserved = None,
            Deed::Private | Deed::Load { .. } | Deed::Amo { .. } => {}
        }
        let after = after_instr(&self.hart, &entry, instr);
        self.moved_on(entry, after)
    }

    fn moved_on(&mut self, entry: Retired, after: Hart) -> Result<(), AllocError> {
        self.entries.push(entry)?;
        self.hart = after;
        Ok(())
    }

    /// So many private instructions retire at once.
    pub fn went_alone(&mut self, image: &Image, count: u32) -> Result<(), AllocError> {
        for _ in 0..count {
            if let Some((entry, after)) = next_alone(image, &self.hart) {
                self.moved_on(entry, after)?;
            }
        }
        Ok(())
    }
}
