//! A shadow of permissions and lines: by the messages so far, what each hart has of each line, and the line's bytes.

use coherent_log::{Breach, Held, Probed};
use elf_loader::{BASE, Image};
use machine_types::MAX_HARTS;
use std::alloc::{AllocError, Global};
use tl_types::{Body, Cap, Change, Grow, LineData, Perm};
use trace_recorder::{Direction, Logged};

/// How much a permission allows: Nothing 0, Branch 1, Trunk 2. Two harts' permissions fit where they come to no more
/// than `TRUNK`.
type Level = u8;

const TRUNK: Level = 2;

/// A hart's copy of a line.
#[derive(Clone, Copy)]
struct Shade {
    hart: u8,
    line: u32,
    /// What the hart knows that it has.
    own: Option<Held>,
    /// What the manager knows that it has.
    known: Option<Held>,
    /// The Probe that reached the hart last.
    probe: Option<Probed>,
}

/// A line's bytes at the manager, since the message of this number.
#[derive(Clone, Copy)]
struct Bytes {
    line: u32,
    bytes: LineData,
    index: usize,
}

#[derive(Drop)]
pub struct Shadow {
    shades: Vec<Shade>,
    bytes: Vec<Bytes>,
}

impl Shadow {
    pub fn new(alloc: Global) -> Shadow {
        Shadow {
            shades: Vec::new(alloc),
            bytes: Vec::new(alloc),
        }
    }

    /// What the entry contradicts, if it comes next.
    pub fn broken(&self, image: Option<&Image>, entry: &Logged) -> Option<Breach> {
        if entry.direction == Direction::Taken {
            return None;
        }
        let shade = self.shade(entry.hart, entry.message.line);
        match entry.message.body {
            Body::AcquireBlock(grow) => shade.begins_with(asked_from(grow)),
            Body::Release(change) => shade.begins_with(ends(change).0),
            Body::ReleaseData { change, .. } => {
                or(shade.begins_with(ends(change).0), shade.has_trunk())
            }
            Body::ProbeAck(change) => shade.obeys(change),
            Body::ProbeAckData { change, .. } => or(shade.obeys(change), shade.has_trunk()),
            Body::Grant(cap) => self.goes_beside(entry, level_of(cap)),
            Body::GrantData { cap, bytes } => or(
                self.goes_beside(entry, level_of(cap)),
                self.carries(image, entry.message.line, &bytes),
            ),
            Body::ProbeBlock(_) | Body::ReleaseAck | Body::GrantAck => None,
        }
    }

    fn goes_beside(&self, entry: &Logged, level: Level) -> Option<Breach> {
        for hart in 0..MAX_HARTS as u8 {
            let held = self.shade(hart, entry.message.line).known;
            if hart != entry.hart && level_in(held) > TRUNK.saturating_sub(level) {
                let holder = usize::from(hart);
                return Some(Breach::OneWriter { holder, held });
            }
        }
        None
    }

    fn carries(&self, image: Option<&Image>, line: u32, bytes: &LineData) -> Option<Breach> {
        let last = self.bytes.iter().find(|kept| kept.line == line);
        let fits = match (last, image) {
            (Some(last), _) => last.bytes == *bytes,
            (None, Some(image)) => has_at(image, line, bytes.as_slice()),
            (None, None) => true,
        };
        if fits {
            return None;
        }
        Some(Breach::DataKept {
            brought: last.map(|last| last.index),
        })
    }

    /// The entry comes next, and has this number.
    pub fn note(&mut self, entry: &Logged, index: usize) -> Result<(), AllocError> {
        let line = entry.message.line;
        let mut shade = self.shade(entry.hart, line);
        // The manager sends Grants, and takes what else changes permissions.
        let at_manager = is_grant(&entry.message.body) == (entry.direction == Direction::Sent);
        if let Some(level) = left(&entry.message.body) {
            let held = Some(Held {
                perm: perm_of(level),
                since: index,
            });
            if at_manager {
                shade.known = held;
            } else {
                shade.own = held;
            }
        }
        if let (Direction::Taken, Body::ProbeBlock(cap)) = (entry.direction, entry.message.body) {
            shade.probe = Some(Probed { cap, index });
        }
        self.put_shade(shade)?;
        match carried(&entry.message.body) {
            Some(bytes) if at_manager => self.put_bytes(Bytes { line, bytes, index }),
            _ => Ok(()),
        }
    }

    fn shade(&self, hart: u8, line: u32) -> Shade {
        for shade in &self.shades {
            if shade.hart == hart && shade.line == line {
                return *shade;
            }
        }
        Shade {
            hart,
            line,
            own: None,
            known: None,
            probe: None,
        }
    }

    fn put_shade(&mut self, shade: Shade) -> Result<(), AllocError> {
        for kept in self.shades.iter_mut() {
            if kept.hart == shade.hart && kept.line == shade.line {
                *kept = shade;
                return Ok(());
            }
        }
        self.shades.push(shade)?;
        Ok(())
    }

    fn put_bytes(&mut self, bytes: Bytes) -> Result<(), AllocError> {
        for kept in self.bytes.iter_mut() {
            if kept.line == bytes.line {
                *kept = bytes;
                return Ok(());
            }
        }
        self.bytes.push(bytes)?;
        Ok(())
    }
}

impl Shade {
    fn begins_with(&self, level: Level) -> Option<Breach> {
        if level == level_in(self.own) {
            return None;
        }
        Some(Breach::PermissionHeld { held: self.own })
    }

    // The hart's answer goes down from what it has to what its Probe leaves at most.
    fn obeys(&self, change: Change) -> Option<Breach> {
        let probe = self.probe?;
        let has = level_in(self.own);
        if ends(change) == (has, has.min(level_of(probe.cap))) {
            return None;
        }
        Some(Breach::ProbeObeyed {
            held: self.own,
            probe: Some(probe),
        })
    }

    fn has_trunk(&self) -> Option<Breach> {
        if level_in(self.own) == TRUNK {
            return None;
        }
        Some(Breach::DataAsked { held: self.own })
    }
}

fn or(first: Option<Breach>, second: Option<Breach>) -> Option<Breach> {
    match first {
        Some(breach) => Some(breach),
        None => second,
    }
}

fn has_at(image: &Image, line: u32, bytes: &[u8]) -> bool {
    match image.bytes().get(line.wrapping_sub(BASE) as usize..) {
        Some(rest) => rest.starts_with(bytes),
        None => false,
    }
}

fn level_in(held: Option<Held>) -> Level {
    match held {
        None => 0,
        Some(held) => match held.perm {
            Perm::Nothing => 0,
            Perm::Branch => 1,
            Perm::Trunk => TRUNK,
        },
    }
}

fn perm_of(level: Level) -> Perm {
    match level {
        0 => Perm::Nothing,
        1 => Perm::Branch,
        _ => Perm::Trunk,
    }
}

fn level_of(cap: Cap) -> Level {
    match cap {
        Cap::ToN => 0,
        Cap::ToB => 1,
        Cap::ToT => TRUNK,
    }
}

fn asked_from(grow: Grow) -> Level {
    match grow {
        Grow::NtoB | Grow::NtoT => 0,
        Grow::BtoT => 1,
    }
}

// From where a change goes down, and to where.
fn ends(change: Change) -> (Level, Level) {
    match change {
        Change::TtoT => (TRUNK, TRUNK),
        Change::TtoB => (TRUNK, 1),
        Change::TtoN => (TRUNK, 0),
        Change::BtoB => (1, 1),
        Change::BtoN => (1, 0),
        Change::NtoN => (0, 0),
    }
}

fn is_grant(body: &Body) -> bool {
    matches!(body, Body::Grant(_) | Body::GrantData { .. })
}

// The permission that its client has once a message is at its end.
fn left(body: &Body) -> Option<Level> {
    match body {
        Body::Grant(cap) | Body::GrantData { cap, .. } => Some(level_of(*cap)),
        Body::ProbeAck(change)
        | Body::ProbeAckData { change, .. }
        | Body::Release(change)
        | Body::ReleaseData { change, .. } => Some(ends(*change).1),
        _ => None,
    }
}

fn carried(body: &Body) -> Option<LineData> {
    match body {
        Body::GrantData { bytes, .. }
        | Body::ProbeAckData { bytes, .. }
        | Body::ReleaseData { bytes, .. } => Some(*bytes),
        _ => None,
    }
}
