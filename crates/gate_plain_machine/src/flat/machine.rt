//! What a flat machine is at a moment, and what happens to it.

use crate::deciding::{Act, Deed, Plan, outcome_of};
use crate::events::Refusal;
use crate::flat::accesses::{Accessed, Kind, Rules, Variant};
use crate::hart_state::{HartState, perform};
use crate::steps::{fetch, retires, retires_as, stall_of, write_waits};
use crate::words::{bytes_at, word_of, write_word};
use elf_loader::{BASE, Image};
use flat_model::FlatEvent;
use hart::{Retired, Status};
use machine_types::{Config, Outcome};
use rv32_decode::Instr;
use rv32_exec::Action;
use std::alloc::{AllocError, Global};
use trace_recorder::OpId;

/// A flat machine that does what the flat meaning says, or a wrong variant of it, in lists. Where memory is
/// refused amid an event it is left as it then stands.
pub struct FlatMachine {
    alloc: Global,
    rules: Rules,
    image: Image,
    /// By hart.
    pub(crate) harts: Vec<HartState>,
    /// Memory's bytes.
    pub(crate) memory: Vec<u8>,
    pub(crate) performed: Vec<OpId>,
}

// A call of its own: derived, it would stand field by field in each function that owns one.
impl Drop for FlatMachine {
    fn drop(self) {
        let FlatMachine {
            alloc: _,
            rules: _,
            image: _,
            harts: _,
            memory: _,
            performed: _,
        } = self;
    }
}

fn hart_of(event: FlatEvent) -> u8 {
    match event {
        FlatEvent::Step { hart } | FlatEvent::Drain { hart, .. } | FlatEvent::Fail { hart } => hart,
    }
}

impl FlatMachine {
    /// A flat machine at reset. Of the caches only the lines, the sets and whether these hold one line count.
    pub fn new(
        alloc: Global,
        image: Image,
        config: Config,
        variant: Variant,
    ) -> Result<FlatMachine, AllocError> {
        let mut machine = FlatMachine {
            alloc,
            rules: Rules { config, variant },
            image,
            harts: Vec::new(alloc),
            memory: Vec::new(alloc),
            performed: Vec::new(alloc),
        };
        machine.reset()?;
        Ok(machine)
    }

    /// Memory is the image's, and each hart is about to start.
    fn reset(&mut self) -> Result<(), AllocError> {
        self.memory.extend_from_slice(self.image.bytes())?;
        for id in 0..8u8 {
            if u32::from(id) < self.rules.config.harts {
                self.add_hart(id)?;
            }
        }
        Ok(())
    }

    fn add_hart(&mut self, id: u8) -> Result<(), AllocError> {
        let state = HartState::at_reset(self.alloc, &self.image, &self.rules.config, id);
        self.harts.push(state)?;
        Ok(())
    }

    /// Nothing but the instruction's own stalls stands in its way.
    fn plan_step(&self, state: &HartState) -> Plan {
        let fetched = match fetch(&self.image, &state.hart) {
            Ok(fetched) => fetched,
            Err(plan) => return plan,
        };
        let model = self.rules.config.model;
        if let (Variant::AsksBufferFirst, Action::Sc { addr, .. }) = (
            self.rules.variant,
            fetched.access,
        ) {
            if write_waits(model, &state.buffer, &fetched.instr, addr) {
                return Plan::Stays(Outcome::MustDrain);
            }
        }
        if let Some(stall) = stall_of(model, state, &fetched) {
            return Plan::Stays(stall);
        }
        let word = word_of(fetched.access.address().unwrap_or(BASE));
        let place = word.saturating_sub(BASE) as usize;
        retires(state, &fetched, bytes_at(&self.memory, place))
    }

    /// A store conditional fails, whatever the reservation and the buffer are; none where the hart's next
    /// instruction is none with a good address.
    fn plan_fail(&self, state: &HartState) -> Option<Plan> {
        match fetch(&self.image, &state.hart) {
            Ok(fetched) => match fetched.access {
                Action::Sc { .. } => {
                    let plan = retires_as(state, &fetched, None, Some(false), Deed::Fail);
                    Some(plan)
                }
                _ => None,
            },
            Err(Plan::Stays(outcome)) => Some(Plan::Stays(outcome)),
            Err(Plan::Changes(_)) => None,
        }
    }

    /// Memory is accessed: reservations end.
    fn is_accessed(&mut self, accessed: &Accessed) {
        for state in self.harts.iter_mut() {
            if let Some(word) = state.reserved {
                if self.rules.ends(accessed, state.hart.id, word) {
                    state.reserved = None;
                }
            }
        }
    }

    /// Where the instruction's operation is performed it is so first, and what it writes at once goes to
    /// memory.
    fn retired(
        &mut self,
        hart: u8,
        entry: Retired,
        instr: &Instr,
        deed: &Deed,
    ) -> Result<(), AllocError> {
        if let Some((address, kind)) = self.rules.access_by(deed) {
            self.is_accessed(&Accessed {
                hart,
                address,
                kind,
            });
        }
        let Some(state) = self.harts.get_mut(usize::from(hart)) else {
            return Ok(());
        };
        if deed.is_performed() {
            perform(&mut self.performed, hart, &[state.place()])?;
        }
        if let Deed::Sc { word, value } | Deed::Amo { word, value } = deed {
            let place = word.saturating_sub(BASE) as usize;
            write_word(&mut self.memory, place, [true; 4], value.to_le_bytes());
        }
        state.retired(self.alloc, self.rules.config.model, entry, instr, deed)
    }

    /// The stores of the word's entry are performed in program order, memory is written, and the entry leaves
    /// the oldest group.
    fn drained(&mut self, hart: u8, word: u32) -> Result<(), AllocError> {
        self.is_accessed(&Accessed {
            hart,
            address: word,
            kind: Kind::Drain,
        });
        let Some(state) = self.harts.get_mut(usize::from(hart)) else {
            return Ok(());
        };
        if let Some(entry) = state.buffer.drainable(word) {
            perform(&mut self.performed, hart, &entry.ops)?;
            let place = word.saturating_sub(BASE) as usize;
            write_word(&mut self.memory, place, entry.mask, entry.bytes);
        }
        state.buffer.after_take(word);
        Ok(())
    }

    fn acted(&mut self, hart: u8, act: &Act) -> Result<(), AllocError> {
        match act {
            Act::Stop(code) => {
                if let Some(state) = self.harts.get_mut(usize::from(hart)) {
                    state.hart.status = Status::Stopped(*code);
                }
                Ok(())
            }
            Act::Retire { entry, instr, deed } => self.retired(hart, *entry, instr, deed),
            Act::Drain(word) => self.drained(hart, *word),
            // No flat event leads to one of these.
            Act::Miss { .. } | Act::Evict(_) | Act::Deliver(_) | Act::Local(_) => Ok(()),
        }
    }

    /// What comes of an event; a refused one, and one whose outcome says that it can't happen now, changes
    /// nothing. It is refused where there is no such hart, and a failure where its next instruction is no
    /// SC with a good address.
    pub fn apply(&mut self, event: FlatEvent) -> Result<Outcome, Refusal> {
        let hart = hart_of(event);
        match self.plan(hart, event) {
            Err(refusal) => Err(refusal),
            Ok(Plan::Stays(outcome)) => Ok(outcome),
            Ok(Plan::Changes(act)) => self.changed(hart, &act),
        }
    }

    /// What an event of a hart comes to, where it isn't refused.
    fn plan(&self, hart: u8, event: FlatEvent) -> Result<Plan, Refusal> {
        let state = self.known_hart(hart)?;
        match event {
            FlatEvent::Step { .. } => Ok(self.plan_step(state)),
            FlatEvent::Drain { word, .. } => Ok(state.plan_drain(word)),
            FlatEvent::Fail { .. } => self.plan_fail(state).ok_or(Refusal::BadEvent),
        }
    }

    fn known_hart(&self, hart: u8) -> Result<&HartState, Refusal> {
        self.harts.get(usize::from(hart)).ok_or(Refusal::BadEvent)
    }

    fn changed(&mut self, hart: u8, act: &Act) -> Result<Outcome, Refusal> {
        self.acted(hart, act)?;
        let state = self.known_hart(hart)?;
        Ok(outcome_of(act, state.hart.status))
    }
}
