//! A private cache: what it has to do with each line.

use crate::deciding::{Act, Plan};
use crate::words::{Marks, line_of, lines_below, write_word};
use machine_types::{Config, Outcome};
use std::alloc::AllocError;
use tl_types::{Cap, Grow, LineData, Perm};

/// Acquires that may be outstanding, and Releases that may be unanswered.
const TRACKERS: usize = 4;

/// What a cache has to do with a line.
#[derive(Clone, Copy)]
pub(crate) struct Known {
    pub line: u32,
    /// What it may do with its copy; it has none where that is nothing.
    pub perm: Perm,
    /// Whether memory lacks the copy's bytes.
    pub is_dirty: bool,
    pub bytes: LineData,
    /// Whether its Acquire is outstanding.
    pub is_acquiring: bool,
    /// Whether its Release is unanswered.
    pub is_releasing: bool,
}

#[derive(Drop)]
pub(crate) struct Cache {
    pub config: Config,
    /// The lines that it has had to do with.
    pub lines: Vec<Known>,
}

impl Cache {
    pub fn known(&self, line: u32) -> Known {
        for known in self.lines.iter() {
            if known.line == line {
                return *known;
            }
        }
        Known {
            line,
            perm: Perm::Nothing,
            is_dirty: false,
            bytes: LineData::Bytes16([0; 16]),
            is_acquiring: false,
            is_releasing: false,
        }
    }

    /// What is known of a line becomes this.
    pub fn put(&mut self, known: Known) -> Result<(), AllocError> {
        let mut is_there = false;
        for other in self.lines.iter_mut() {
            if other.line == known.line {
                *other = known;
                is_there = true;
            }
        }
        if !is_there {
            self.lines.push(known)?;
        }
        Ok(())
    }

    /// How many lines of this line's set are held or have an Acquire outstanding, each counted once.
    fn taken(&self, line: u32) -> u32 {
        let size = self.config.line;
        let set = lines_below(size, line).checked_rem(self.config.sets);
        let mut taken = 0u32;
        for known in self.lines.iter() {
            let other_set = lines_below(size, known.line).checked_rem(self.config.sets);
            if other_set == set && (known.perm != Perm::Nothing || known.is_acquiring) {
                taken = taken.saturating_add(1);
            }
        }
        taken
    }

    /// What a miss on a line waits for; nothing where its Acquire goes out.
    fn wanted(&self, known: &Known) -> Option<Outcome> {
        let mut acquires = 0usize;
        for other in self.lines.iter() {
            acquires = acquires.saturating_add(usize::from(other.is_acquiring));
        }
        if known.is_releasing {
            Some(Outcome::WaitRelease)
        } else if known.is_acquiring {
            Some(Outcome::WaitGrant)
        } else if acquires >= TRACKERS {
            Some(Outcome::NoTracker)
        } else if known.perm == Perm::Nothing && self.taken(known.line) >= self.config.ways {
            Some(Outcome::SetFull)
        } else {
            None
        }
    }

    /// The miss on the line of an address that is to be read or written; none where its copy serves.
    pub fn plan_miss(&self, address: u32, writes: bool) -> Option<Plan> {
        let known = self.known(line_of(self.config.line, address));
        let grow = match (known.perm, writes) {
            (Perm::Nothing, false) => Grow::NtoB,
            (Perm::Nothing, true) => Grow::NtoT,
            (Perm::Branch, true) => Grow::BtoT,
            (Perm::Branch, false) | (Perm::Trunk, _) => return None,
        };
        Some(match self.wanted(&known) {
            Some(outcome) => Plan::Stays(outcome),
            None => Plan::Changes(Act::Miss {
                line: known.line,
                grow,
            }),
        })
    }

    /// The line's Acquire goes out.
    pub fn after_asked(&mut self, line: u32) -> Result<(), AllocError> {
        let mut known = self.known(line);
        known.is_acquiring = true;
        self.put(known)
    }

    /// A Grant answers the line's Acquire: the copy is clean, of its bytes or, without any, of its own.
    pub fn after_granted(
        &mut self,
        line: u32,
        cap: Cap,
        bytes: Option<LineData>,
    ) -> Result<(), AllocError> {
        let mut known = self.known(line);
        known.perm = cap.perm();
        known.is_dirty = false;
        known.is_acquiring = false;
        if let Some(bytes) = bytes {
            known.bytes = bytes;
        }
        self.put(known)
    }

    /// What giving a line up comes to.
    pub fn plan_evict(&self, line: u32) -> Plan {
        let mut releases = 0usize;
        for other in self.lines.iter() {
            releases = releases.saturating_add(usize::from(other.is_releasing));
        }
        let known = self.known(line);
        if known.perm == Perm::Nothing {
            Plan::Stays(Outcome::NotHeld)
        } else if known.is_acquiring {
            Plan::Stays(Outcome::AcquirePending)
        } else if releases >= TRACKERS {
            Plan::Stays(Outcome::ReleaseFull)
        } else {
            Plan::Changes(Act::Evict(line))
        }
    }

    /// The marked bytes of a word of a held line are written; the copy is dirty, also where they stay the
    /// same.
    pub fn word_written(
        &mut self,
        word: u32,
        marks: Marks,
        bytes: [u8; 4],
    ) -> Result<(), AllocError> {
        let line = line_of(self.config.line, word);
        let place = word.saturating_sub(line) as usize;
        let mut known = self.known(line);
        known.is_dirty = true;
        match &mut known.bytes {
            LineData::Bytes16(line) => write_word(line, place, marks, bytes),
            LineData::Bytes64(line) => write_word(line, place, marks, bytes),
        }
        self.put(known)
    }
}
