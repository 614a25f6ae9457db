//! What the message in front of a queue comes to, and what its delivery changes.

use crate::cache::Known;
use crate::deciding::{Act, Plan};
use crate::notes::{Noted, Transaction, conflicts};
use crate::state::{Node, PlainMachine};
use machine_types::Outcome;
use std::alloc::AllocError;
use tl_types::{Body, Cap, Change, Channel, Grow, LineData, Msg, Perm, shrink};

/// How many GrantAcks may wait.
const ROOM_OF_E: usize = 4;

impl PlainMachine {
    /// Only the front of a queue is looked at.
    pub(crate) fn plan_deliver(&self, node: &Node, channel: Channel) -> Plan {
        let Some(message) = node.queues.queue_of(channel).first() else {
            return Plan::Stays(Outcome::Empty);
        };
        let line = message.line;
        let acks = node.queues.queue_of(Channel::E).len();
        match message.body {
            Body::AcquireBlock(_) if self.notes_of(line).transaction != Transaction::Idle => {
                Plan::Stays(Outcome::Busy)
            }
            Body::ProbeBlock(_) if node.cache.known(line).is_releasing => {
                Plan::Stays(Outcome::Releasing)
            }
            Body::Grant(_) | Body::GrantData { .. } if acks >= ROOM_OF_E => {
                Plan::Stays(Outcome::AckFull)
            }
            _ => Plan::Changes(Act::Deliver(*message)),
        }
    }

    /// The Grant is sent, by the record at that moment, which takes what it grants. It is without data
    /// where the requester asks to write what it reads, and its record still is Branch.
    fn granted(&mut self, line: u32, requester: u8, grow: Grow) -> Result<(), AllocError> {
        let mut notes = self.notes_of(line);
        let noted = notes.noted_of(requester);
        let cap = grow.granted();
        let body = if grow == Grow::BtoT && noted.perm == Perm::Branch {
            Body::Grant(cap)
        } else {
            let bytes = self.line_in_memory(line);
            Body::GrantData { cap, bytes }
        };
        notes.note(
            requester,
            Noted {
                perm: cap.perm(),
                ..noted
            },
        );
        notes.transaction = Transaction::Granted(requester);
        self.with_notes(line, notes);
        self.sent(requester, Msg { line, body })
    }

    /// An Acquire: Probes to those who stand in its way, rising, or the Grant where there are none.
    fn on_acquire(&mut self, requester: u8, line: u32, grow: Grow) -> Result<(), AllocError> {
        let mut notes = self.notes_of(line);
        let body = Body::ProbeBlock(match grow {
            Grow::NtoB => Cap::ToB,
            Grow::NtoT | Grow::BtoT => Cap::ToN,
        });
        for hart in 0..8u8 {
            let perm = notes.noted_of(hart).perm;
            if hart != requester && conflicts(grow, perm) {
                let is_awaited = true;
                notes.note(hart, Noted { perm, is_awaited });
                self.sent(hart, Msg { line, body })?;
            }
        }
        if !notes.is_any_awaited() {
            return self.granted(line, requester, grow);
        }
        notes.transaction = Transaction::Probing { requester, grow };
        self.with_notes(line, notes);
        Ok(())
    }

    /// A ProbeAck: its data goes to memory, the record becomes what the change ends in, and the hart is no
    /// longer awaited. The last one of a transaction sends its Grant.
    fn on_probe_ack(
        &mut self,
        hart: u8,
        line: u32,
        change: Change,
        bytes: Option<&LineData>,
    ) -> Result<(), AllocError> {
        if let Some(bytes) = bytes {
            self.with_memory(line, bytes);
        }
        let mut notes = self.notes_of(line);
        let (perm, is_awaited) = (change.left(), false);
        notes.note(hart, Noted { perm, is_awaited });
        self.with_notes(line, notes);
        match notes.transaction {
            Transaction::Probing { requester, grow } if !notes.is_any_awaited() => {
                self.granted(line, requester, grow)
            }
            _ => Ok(()),
        }
    }

    /// A Release, in every state of the transaction: its data goes to memory, nothing is left, awaited harts
    /// stay awaited, and it is answered at once.
    fn on_release(
        &mut self,
        hart: u8,
        line: u32,
        bytes: Option<&LineData>,
    ) -> Result<(), AllocError> {
        if let Some(bytes) = bytes {
            self.with_memory(line, bytes);
        }
        let mut notes = self.notes_of(line);
        let noted = notes.noted_of(hart);
        let perm = Perm::Nothing;
        notes.note(hart, Noted { perm, ..noted });
        self.with_notes(line, notes);
        let body = Body::ReleaseAck;
        self.sent(hart, Msg { line, body })
    }

    /// A Probe: the copy shrinks, and its answer says to what.
    fn on_probe(&mut self, hart: u8, line: u32, cap: Cap) -> Result<(), AllocError> {
        let Some(node) = self.node_mut(hart) else {
            return Ok(());
        };
        let known = node.cache.known(line);
        let (perm, change) = shrink(known.perm, cap);
        node.cache.put(Known {
            perm,
            is_dirty: false,
            ..known
        })?;
        node.kept_reservation(line);
        let bytes = known.bytes;
        let body = if known.is_dirty {
            Body::ProbeAckData { change, bytes }
        } else {
            Body::ProbeAck(change)
        };
        self.sent(hart, Msg { line, body })
    }

    /// A Grant: the copy is installed clean.
    fn on_grant(
        &mut self,
        hart: u8,
        line: u32,
        cap: Cap,
        bytes: Option<LineData>,
    ) -> Result<(), AllocError> {
        if let Some(node) = self.node_mut(hart) {
            node.cache.after_granted(line, cap, bytes)?;
        }
        let body = Body::GrantAck;
        self.sent(hart, Msg { line, body })
    }

    /// A ReleaseAck: the line's Release is answered.
    fn on_release_ack(&mut self, hart: u8, line: u32) -> Result<(), AllocError> {
        let Some(node) = self.node_mut(hart) else {
            return Ok(());
        };
        let mut known = node.cache.known(line);
        known.is_releasing = false;
        node.cache.put(known)
    }

    pub(crate) fn delivered(&mut self, hart: u8, message: &Msg) -> Result<(), AllocError> {
        self.taken(hart, *message)?;
        let line = message.line;
        match &message.body {
            Body::AcquireBlock(grow) => self.on_acquire(hart, line, *grow),
            Body::ProbeBlock(cap) => self.on_probe(hart, line, *cap),
            Body::ProbeAck(change) => self.on_probe_ack(hart, line, *change, None),
            Body::ProbeAckData { change, bytes } => {
                self.on_probe_ack(hart, line, *change, Some(bytes))
            }
            Body::Release(_) => self.on_release(hart, line, None),
            Body::ReleaseData { bytes, .. } => self.on_release(hart, line, Some(bytes)),
            Body::Grant(cap) => self.on_grant(hart, line, *cap, None),
            Body::GrantData { cap, bytes } => self.on_grant(hart, line, *cap, Some(*bytes)),
            Body::ReleaseAck => self.on_release_ack(hart, line),
            Body::GrantAck => {
                let mut notes = self.notes_of(line);
                notes.transaction = Transaction::Idle;
                self.with_notes(line, notes);
                Ok(())
            }
        }
    }
}
