//! What a machine is at a moment.

use crate::cache::Cache;
use crate::hart_state::HartState;
use crate::notes::Notes;
use crate::queues::Waiting;
use crate::words::{bytes_at, lines_below};
use elf_loader::{BASE, Image};
use hart::{Retired, Status};
use machine_types::Config;
use std::alloc::{AllocError, Global};
use std::mem::replace;
use tl_types::{LineData, LineSize, Msg, Perm};
use trace_recorder::{Direction, Logged, OpId, Trace, are_within_limits};

/// What belongs to one hart.
#[derive(Drop)]
pub(crate) struct Node {
    pub state: HartState,
    pub cache: Cache,
    pub queues: Waiting,
}

/// A machine that does what the event meaning says, in lists. Where memory is refused amid an event it is
/// left as it then stands.
pub struct PlainMachine {
    pub(crate) alloc: Global,
    pub(crate) config: Config,
    pub(crate) image: Image,
    /// By hart.
    pub(crate) nodes: Vec<Node>,
    /// Main memory's bytes.
    pub(crate) memory: Vec<u8>,
    /// The manager's notes by line.
    pub(crate) notes: Vec<Notes>,
    /// How many events changed the machine.
    pub(crate) changes: u32,
    pub(crate) performed: Vec<OpId>,
    pub(crate) log: Vec<Logged>,
}

// A call of its own: derived, it would stand field by field in each function that owns one.
impl Drop for PlainMachine {
    fn drop(self) {
        let PlainMachine {
            alloc: _,
            config: _,
            image: _,
            nodes: _,
            memory: _,
            notes: _,
            changes: _,
            performed: _,
            log: _,
        } = self;
    }
}

fn opening_node(alloc: Global, image: &Image, config: &Config, id: u8) -> Node {
    Node {
        state: HartState::at_reset(alloc, image, config, id),
        cache: Cache {
            config: *config,
            lines: Vec::new(alloc),
        },
        queues: Waiting::new(alloc),
    }
}

impl Node {
    /// A reservation of a word of the line lasts while the copy is Trunk.
    pub fn kept_reservation(&mut self, line: u32) {
        if let Some(word) = self.state.reserved {
            let is_in_line = word >= line && word - line < self.cache.config.line.bytes();
            if is_in_line && self.cache.known(line).perm != Perm::Trunk {
                self.state.reserved = None;
            }
        }
    }
}

impl PlainMachine {
    /// A machine at reset.
    pub fn new(alloc: Global, image: Image, config: Config) -> Result<PlainMachine, AllocError> {
        let mut machine = PlainMachine {
            alloc,
            config,
            image,
            nodes: Vec::new(alloc),
            memory: Vec::new(alloc),
            notes: Vec::new(alloc),
            changes: 0,
            performed: Vec::new(alloc),
            log: Vec::new(alloc),
        };
        machine.reset()?;
        Ok(machine)
    }

    /// Memory is the image's, nobody has a line, and each hart is about to start.
    fn reset(&mut self) -> Result<(), AllocError> {
        self.memory.extend_from_slice(self.image.bytes())?;
        let lines = lines_below(self.config.line, self.image.size());
        self.notes.resize(lines as usize, Notes::quiet())?;
        for id in 0..8u8 {
            if u32::from(id) < self.config.harts {
                self.add_node(id)?;
            }
        }
        Ok(())
    }

    fn add_node(&mut self, id: u8) -> Result<(), AllocError> {
        let node = opening_node(self.alloc, &self.image, &self.config, id);
        self.nodes.push(node)?;
        Ok(())
    }

    /// The hart of this number; none where there is no such hart.
    pub(crate) fn node_mut(&mut self, hart: u8) -> Option<&mut Node> {
        self.nodes.get_mut(usize::from(hart))
    }

    /// What is noted of the line that begins at an address.
    pub(crate) fn notes_of(&self, line: u32) -> Notes {
        let place = lines_below(self.config.line, line.saturating_sub(BASE)) as usize;
        match self.notes.get(place) {
            Some(notes) => *notes,
            None => Notes::quiet(),
        }
    }

    /// What is noted of a line becomes this.
    pub(crate) fn with_notes(&mut self, line: u32, notes: Notes) {
        let place = lines_below(self.config.line, line.saturating_sub(BASE)) as usize;
        if let Some(kept) = self.notes.get_mut(place) {
            *kept = notes;
        }
    }

    pub(crate) fn line_in_memory(&self, line: u32) -> LineData {
        let place = line.saturating_sub(BASE) as usize;
        match self.config.line {
            LineSize::Bytes16 => LineData::Bytes16(bytes_at(&self.memory, place)),
            LineSize::Bytes64 => LineData::Bytes64(bytes_at(&self.memory, place)),
        }
    }

    /// Data that comes with an answer goes to memory.
    pub(crate) fn with_memory(&mut self, line: u32, data: &LineData) {
        let place = line.saturating_sub(BASE) as usize;
        if let Some(rest) = self.memory.as_mut_slice().get_mut(place..) {
            for (kept, byte) in rest.iter_mut().zip(data.as_slice()) {
                *kept = *byte;
            }
        }
    }

    /// A message goes to the back of its channel's queue of a hart, and into the log.
    pub(crate) fn sent(&mut self, hart: u8, message: Msg) -> Result<(), AllocError> {
        if let Some(node) = self.node_mut(hart) {
            node.queues.queue_of_mut(message.channel()).push(message)?;
        }
        self.logged(Direction::Sent, hart, message)
    }

    fn logged(&mut self, direction: Direction, hart: u8, message: Msg) -> Result<(), AllocError> {
        self.log.push(Logged {
            direction,
            hart,
            message,
        })?;
        Ok(())
    }

    /// The message leaves the front of its queue, which the log says first.
    pub(crate) fn taken(&mut self, hart: u8, message: Msg) -> Result<(), AllocError> {
        self.logged(Direction::Taken, hart, message)?;
        if let Some(node) = self.node_mut(hart) {
            let queue = node.queues.queue_of_mut(message.channel());
            if !queue.is_empty() {
                queue.remove(0);
            }
        }
        Ok(())
    }

    fn statuses(&self) -> Result<Vec<Status>, AllocError> {
        let mut statuses = Vec::new(self.alloc);
        for node in self.nodes.iter() {
            statuses.push(node.state.hart.status)?;
        }
        Ok(statuses)
    }

    /// The harts' lists leave the machine.
    fn take_entries(&mut self) -> Result<Vec<Vec<Retired>>, AllocError> {
        let mut entries = Vec::new(self.alloc);
        for node in self.nodes.iter_mut() {
            entries.push(replace(&mut node.state.entries, Vec::new(self.alloc)))?;
        }
        Ok(entries)
    }

    /// What the harts put out leaves the machine.
    fn take_outputs(&mut self) -> Result<Vec<Vec<u32>>, AllocError> {
        let mut outputs = Vec::new(self.alloc);
        for node in self.nodes.iter_mut() {
            outputs.push(replace(&mut node.state.output, Vec::new(self.alloc)))?;
        }
        Ok(outputs)
    }

    /// The trace, and what each hart put out; none where the lists are larger than a trace's, which no events
    /// lead to.
    pub fn into_parts(mut self) -> Result<Option<(Trace, Vec<Vec<u32>>)>, AllocError> {
        let statuses = self.statuses()?;
        let outputs = self.take_outputs()?;
        let entries = self.take_entries()?;
        Ok(match self.into_trace(entries, statuses) {
            Some(trace) => Some((trace, outputs)),
            None => None,
        })
    }

    /// The trace of these lists, where they are a trace's.
    fn into_trace(self, entries: Vec<Vec<Retired>>, statuses: Vec<Status>) -> Option<Trace> {
        let PlainMachine {
            alloc: _,
            config,
            image,
            nodes: _,
            memory: _,
            notes: _,
            changes: _,
            performed,
            log,
        } = self;
        if entries.len() != statuses.len() || !are_within_limits(&entries) {
            return None;
        }
        Some(Trace::from_parts(image, config.line, entries, statuses, performed, log))
    }
}
