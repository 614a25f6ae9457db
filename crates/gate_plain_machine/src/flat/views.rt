//! What can be asked of a flat machine, to compare a machine with it.

use crate::buffer::Entry;
use crate::flat::machine::FlatMachine;
use crate::hart_state::HartState;
use hart::{Hart, Retired};
use trace_recorder::OpId;

/// What belongs to one hart of a flat machine.
#[derive(Clone, Copy)]
pub struct FlatView<'a> {
    state: &'a HartState,
}

impl<'a> FlatView<'a> {
    /// The hart as it stands.
    pub fn hart(&self) -> &'a Hart {
        &self.state.hart
    }

    /// What the hart has retired.
    pub fn entries(&self) -> &'a [Retired] {
        &self.state.entries
    }

    /// The numbers that the hart put out, the first one first.
    pub fn output(&self) -> &'a [u32] {
        &self.state.output
    }

    /// The word that the hart has reserved.
    pub fn reserved(&self) -> Option<u32> {
        self.state.reserved
    }

    /// A group of stores that wait, counted from the oldest; the last is the open one.
    pub fn group(&self, index: usize) -> Option<&'a [Entry]> {
        self.state.buffer.group(index)
    }
}

impl FlatMachine {
    /// What belongs to a hart; none where there is no such hart.
    pub fn node(&self, hart: usize) -> Option<FlatView<'_>> {
        let state = self.harts.get(hart)?;
        Some(FlatView { state })
    }

    /// Memory's bytes, the one at 0x80000000 first.
    pub fn memory(&self) -> &[u8] {
        &self.memory
    }

    /// The performed operations, the first one first.
    pub fn performed(&self) -> &[OpId] {
        &self.performed
    }
}
