//! What can be asked of a machine, to compare it with another.

use crate::notes::Transaction;
use crate::state::{Node, PlainMachine};
use hart::Hart;
use tl_types::{Channel, LineData, Msg, Perm};

/// What belongs to one hart of a machine.
#[derive(Clone, Copy)]
pub struct NodeView<'a> {
    node: &'a Node,
}

impl<'a> NodeView<'a> {
    /// The hart as it stands.
    pub fn hart(&self) -> Hart {
        self.node.state.hart
    }

    /// The word that the hart has reserved.
    pub fn reserved(&self) -> Option<u32> {
        self.node.state.reserved
    }

    /// Whether no store waits.
    pub fn is_buffer_empty(&self) -> bool {
        self.node.state.buffer.is_empty()
    }

    /// Whether a group of stores is closed.
    pub fn has_sealed(&self) -> bool {
        self.node.state.buffer.has_sealed()
    }

    /// Which bytes of the word wait in the store buffer, and the newest of each.
    pub fn forwarded(&self, word: u32) -> ([bool; 4], [u8; 4]) {
        self.node.state.buffer.forwarded(word)
    }

    /// The cache's permission for a line.
    pub fn perm(&self, line: u32) -> Perm {
        self.node.cache.known(line).perm
    }

    /// The bytes of the cache's copy of a line.
    pub fn bytes(&self, line: u32) -> Option<LineData> {
        let known = self.node.cache.known(line);
        match known.perm {
            Perm::Nothing => None,
            Perm::Branch | Perm::Trunk => Some(known.bytes),
        }
    }

    /// Whether the cache's copy of a line was written.
    pub fn is_dirty(&self, line: u32) -> bool {
        self.node.cache.known(line).is_dirty
    }

    /// Whether an Acquire of the line is outstanding.
    pub fn is_acquiring(&self, line: u32) -> bool {
        self.node.cache.known(line).is_acquiring
    }

    /// Whether a Release of the line is unanswered.
    pub fn is_releasing(&self, line: u32) -> bool {
        self.node.cache.known(line).is_releasing
    }

    /// The messages that wait in the queue of a channel, the first sent in front.
    pub fn queue(&self, channel: Channel) -> &'a [Msg] {
        self.node.queues.queue_of(channel)
    }
}

impl PlainMachine {
    /// How many events changed the machine.
    pub fn changes(&self) -> u32 {
        self.changes
    }

    /// What belongs to a hart; none where there is no such hart.
    pub fn node(&self, hart: u8) -> Option<NodeView<'_>> {
        let node = self.nodes.get(usize::from(hart))?;
        Some(NodeView { node })
    }

    /// Main memory's bytes of a line.
    pub fn memory_line(&self, line: u32) -> LineData {
        self.line_in_memory(line)
    }

    /// What the manager's record of a line says that a hart has.
    pub fn record(&self, line: u32, hart: u8) -> Perm {
        self.notes_of(line).noted_of(hart).perm
    }

    /// Whether a hart's ProbeAck of a line is awaited.
    pub fn is_awaited(&self, line: u32, hart: u8) -> bool {
        self.notes_of(line).noted_of(hart).is_awaited
    }

    /// Where a line's transaction stands.
    pub fn transaction(&self, line: u32) -> Transaction {
        self.notes_of(line).transaction
    }
}
