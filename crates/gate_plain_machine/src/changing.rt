//! What each act changes.

use crate::cache::Known;
use crate::deciding::{Act, Deed};
use crate::hart_state::perform;
use crate::state::PlainMachine;
use hart::{Retired, Status};
use rv32_decode::Instr;
use std::alloc::AllocError;
use tl_types::{Body, Cap, Grow, Msg, Perm, shrink};

impl PlainMachine {
    /// Where the instruction's operation is performed it is so first, and what it writes at once goes to the
    /// hart's copy.
    fn retired(
        &mut self,
        hart: u8,
        entry: Retired,
        instr: &Instr,
        deed: &Deed,
    ) -> Result<(), AllocError> {
        let Some(node) = self.nodes.get_mut(usize::from(hart)) else {
            return Ok(());
        };
        if deed.is_performed() {
            perform(&mut self.performed, hart, &[node.state.place()])?;
        }
        if let Deed::Sc { word, value } | Deed::Amo { word, value } = deed {
            node.cache
                .word_written(*word, [true; 4], value.to_le_bytes())?;
        }
        node.state
            .retired(self.alloc, self.config.model, entry, instr, deed)
    }

    /// An Acquire takes a tracker, and goes out.
    fn missed(&mut self, hart: u8, line: u32, grow: Grow) -> Result<(), AllocError> {
        if let Some(node) = self.node_mut(hart) {
            node.cache.after_asked(line)?;
        }
        let body = Body::AcquireBlock(grow);
        self.sent(hart, Msg { line, body })
    }

    /// The stores of the word's entry are performed in program order, the copy is written, and the entry
    /// leaves the oldest group.
    fn drained(&mut self, hart: u8, word: u32) -> Result<(), AllocError> {
        let Some(node) = self.nodes.get_mut(usize::from(hart)) else {
            return Ok(());
        };
        if let Some(entry) = node.state.buffer.drainable(word) {
            perform(&mut self.performed, hart, &entry.ops)?;
            node.cache.word_written(word, entry.mask, entry.bytes)?;
        }
        node.state.buffer.after_take(word);
        Ok(())
    }

    /// The cache gives a line up.
    fn given_up(&mut self, hart: u8, line: u32) -> Result<(), AllocError> {
        let Some(node) = self.node_mut(hart) else {
            return Ok(());
        };
        let known = node.cache.known(line);
        let (perm, change) = shrink(known.perm, Cap::ToN);
        node.cache.put(Known {
            perm,
            is_dirty: false,
            is_releasing: true,
            ..known
        })?;
        node.kept_reservation(line);
        let bytes = known.bytes;
        let body = if known.is_dirty {
            Body::ReleaseData { change, bytes }
        } else {
            Body::Release(change)
        };
        self.sent(hart, Msg { line, body })
    }

    /// So many private instructions retire at once.
    fn went_alone(&mut self, hart: u8, count: u32) -> Result<(), AllocError> {
        match self.nodes.get_mut(usize::from(hart)) {
            Some(node) => node.state.went_alone(&self.image, count),
            None => Ok(()),
        }
    }

    pub(crate) fn acted(&mut self, hart: u8, act: &Act) -> Result<(), AllocError> {
        match act {
            Act::Stop(code) => {
                if let Some(node) = self.node_mut(hart) {
                    node.state.hart.status = Status::Stopped(*code);
                }
                Ok(())
            }
            Act::Retire { entry, instr, deed } => self.retired(hart, *entry, instr, deed),
            Act::Miss { line, grow } => self.missed(hart, *line, *grow),
            Act::Drain(word) => self.drained(hart, *word),
            Act::Evict(line) => self.given_up(hart, *line),
            Act::Deliver(message) => self.delivered(hart, message),
            Act::Local(count) => self.went_alone(hart, *count),
        }
    }
}
