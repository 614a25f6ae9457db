//! The event meaning: which events are good, what each comes to and changes.

use crate::deciding::{Act, Plan, outcome_of};
use crate::state::{Node, PlainMachine};
use crate::steps::{fetch, next_alone, retires, stall_of};
use crate::words::{bytes_at, line_of, word_of};
use elf_loader::BASE;
use machine_types::{Event, Outcome};
use rv32_exec::Action;
use std::alloc::AllocError;

/// Events that may change a machine.
const MOST_CHANGES: u32 = 4_000_000;
/// Instructions that a hart may retire.
const MOST_ENTRIES: usize = 1_000_000;

/// Why an event isn't applied.
#[derive(Clone, Copy, Debug)]
pub enum Refusal {
    /// The event names a hart, word, line or count that the machine hasn't.
    BadEvent,
    /// The event would change the machine, but 4,000,000 events did, or the hart's list would pass
    /// 1,000,000 retired instructions.
    Limit,
    /// Memory was refused; what had changed by then stays.
    NoMemory,
}

impl From<AllocError> for Refusal {
    fn from(_error: AllocError) -> Self {
        Refusal::NoMemory
    }
}

fn hart_of(event: Event) -> u8 {
    match event {
        Event::Step { hart }
        | Event::Drain { hart, .. }
        | Event::Evict { hart, .. }
        | Event::Deliver { hart, .. }
        | Event::Local { hart, .. } => hart,
    }
}

impl PlainMachine {
    /// The instruction's own stalls come first; then it may need a copy that isn't there, unless all that it
    /// loads waits in the buffer.
    fn plan_step(&self, node: &Node) -> Plan {
        let fetched = match fetch(&self.image, &node.state.hart) {
            Ok(fetched) => fetched,
            Err(plan) => return plan,
        };
        if let Some(stall) = stall_of(self.config.model, &node.state, &fetched) {
            return Plan::Stays(stall);
        }
        let (address, writes) = match fetched.access {
            Action::Load { addr, size } if !node.state.buffer.covers(addr, size) => (addr, false),
            Action::Lr { addr } | Action::Amo { addr, .. } => (addr, true),
            _ => return retires(&node.state, &fetched, [0; 4]),
        };
        if let Some(miss) = node.cache.plan_miss(address, writes) {
            return miss;
        }
        let line = line_of(self.config.line, address);
        let known = node.cache.known(line);
        let place = word_of(address).saturating_sub(line) as usize;
        retires(
            &node.state,
            &fetched,
            bytes_at(known.bytes.as_slice(), place),
        )
    }

    fn plan_drain(&self, node: &Node, word: u32) -> Plan {
        match (
            node.state.plan_drain(word),
            node.cache.plan_miss(word, true),
        ) {
            (Plan::Changes(_), Some(miss)) => miss,
            (plan, _) => plan,
        }
    }

    fn plan_local(&self, node: &Node, count: u32) -> Plan {
        if !node.state.hart.status.is_running() {
            return Plan::Stays(Outcome::Halted);
        }
        let mut hart = node.state.hart;
        for _ in 0..count {
            match next_alone(&self.image, &hart) {
                Some((_, next)) => hart = next,
                None => return Plan::Stays(Outcome::NotLocal),
            }
        }
        Plan::Changes(Act::Local(count))
    }

    /// So many bytes at an address lie in memory.
    fn is_inside(&self, address: u32, bytes: u32) -> bool {
        let end = u64::from(BASE) + u64::from(self.image.size());
        address >= BASE && u64::from(address) + u64::from(bytes) <= end
    }

    /// What an event comes to; none where what it names beside its hart isn't there.
    fn plan_of(&self, node: &Node, event: Event) -> Option<Plan> {
        let size = self.config.line;
        match event {
            Event::Step { .. } => Some(self.plan_step(node)),
            Event::Drain { word, .. } if word == word_of(word) && self.is_inside(word, 4) => {
                Some(self.plan_drain(node, word))
            }
            Event::Evict { line, .. }
                if line == line_of(size, line) && self.is_inside(line, size.bytes()) => {
                Some(node.cache.plan_evict(line))
            }
            Event::Deliver { channel, .. } => Some(self.plan_deliver(node, channel)),
            Event::Local { count, .. } if 1 <= count && count <= 256 => {
                Some(self.plan_local(node, count))
            }
            _ => None,
        }
    }

    /// So many events have changed the machine, or the hart's list would pass its length.
    fn is_limited(&self, node: &Node, plan: &Plan) -> bool {
        let more = match plan {
            Plan::Stays(_) => return false,
            Plan::Changes(Act::Retire { .. }) => 1,
            Plan::Changes(Act::Local(count)) => *count as usize,
            Plan::Changes(_) => 0,
        };
        let entries = node.state.entries.len().saturating_add(more);
        self.changes >= MOST_CHANGES || entries > MOST_ENTRIES
    }

    /// What comes of an event; a refused one, and one whose outcome says that it can't happen now, changes
    /// nothing.
    pub fn apply(&mut self, event: Event) -> Result<Outcome, Refusal> {
        let hart = hart_of(event);
        match self.plan(hart, event) {
            Err(refusal) => Err(refusal),
            Ok(Plan::Stays(outcome)) => Ok(outcome),
            Ok(Plan::Changes(act)) => self.changed(hart, &act),
        }
    }

    /// What an event of a hart comes to, where it isn't refused.
    fn plan(&self, hart: u8, event: Event) -> Result<Plan, Refusal> {
        let node = self.known_node(hart)?;
        match self.plan_of(node, event) {
            None => Err(Refusal::BadEvent),
            Some(plan) if self.is_limited(node, &plan) => Err(Refusal::Limit),
            Some(plan) => Ok(plan),
        }
    }

    fn known_node(&self, hart: u8) -> Result<&Node, Refusal> {
        self.nodes.get(usize::from(hart)).ok_or(Refusal::BadEvent)
    }

    fn changed(&mut self, hart: u8, act: &Act) -> Result<Outcome, Refusal> {
        self.acted(hart, act)?;
        self.changes = self.changes.saturating_add(1);
        let node = self.known_node(hart)?;
        Ok(outcome_of(act, node.state.hart.status))
    }
}
