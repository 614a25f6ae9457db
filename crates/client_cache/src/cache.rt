//! The cache, over its array and its trackers.
ghost use Rattle.std.specs.Prelude.{◌≡◌, ◌<◌, ◌≤◌, ◌+◌, ◌*◌, ◌%◌, false, IfOk, IfSome, IfNone, IsTrue, None};
ghost use Rattle.std.specs.FinSet as set;
ghost use Rattle.machine_types.specs.declared.limits.TheConstants.{MAX_SETS, MAX_WAYS, TRACKERS};
ghost use Rattle.tl_types.specs.declared.permission.Perm.TheVariants as perms;
ghost use Rattle.tl_types.specs.declared.permission.Grow.{Grow};
ghost use Rattle.client_cache.specs.Held.{perm_of};
ghost use Rattle.client_cache.specs.Cache.{copy_at, wanted, written, word_written, bytes_of_copy, evicted, probed, granted, answered, opening};

use crate::answers::{Evict, Probed, Want};
use crate::array::Array;
use crate::held::Held;
use crate::shape::Shape;
use crate::slot::Place;
use crate::trackers::Trackers;
use crate::word::with_word;
use std::alloc::{AllocError, Global};
use std::marker::Model;
use std::sync::ledger::Ledger;
use tl_types::{Cap, Change, Grow, LineData, LineSize, Perm, Ticks};

/// What a Probe comes to where there is no copy.
const NO_COPY: Probed = Probed::Answered {
    change: Change::NtoN,
    bytes: None,
};

/// A hart's private cache. A line is named by its first address. After making no call takes memory.
#[derive(Drop)]
pub struct ClientCache {
    array: Array,
    acquiring: Trackers,
    releasing: Trackers,
}

impl Model for ClientCache {
    ghost use Rattle.client_cache.specs.contracts.held.Held as held;
    ghost use Rattle.client_cache.specs.contracts.shape.Shape as shape;
    ghost use Rattle.client_cache.specs.Cache.{Cache, cache_code};
    ghost use Rattle.client_cache.specs.Array.{IsLaidOut, copies_of};

    ghost Value = { Cache };

    ghost coded = { cache_code shape.the_row.coded held.the_row.coded };

    ghost view = { λ c. record {
      shape = c.array.shape;
      copies = copies_of c.array.shape c.array.slots.items;
      acquiring = c.acquiring;
      releasing = c.releasing;
    } };

    ghost invariant = { λ c. IsLaidOut c.array.shape c.array.slots.items c.acquiring };
}

impl ClientCache {
    /// An empty cache of some sets (a machine has a power of two of them) by some ways, for lines
    /// of one size. The slots are the only memory that it ever takes.
    pub fn new(alloc: Global, sets: u32, ways: u32, size: LineSize) -> Result<Self, AllocError>
        requires some_sets { 0 < sets }
        requires few_sets { sets ≤ MAX_SETS }
        requires some_ways { 0 < ways }
        requires few_ways { ways ≤ MAX_WAYS }
        ensures { IfOk result (λ c. c ≡ opening sets ways size) }
    {
        Ok(ClientCache {
            array: Array::new(alloc, Shape { sets, ways, size })?,
            acquiring: Trackers::new(),
            releasing: Trackers::new(),
        })
    }

    /// The permission that the cache has for a line.
    pub fn perm_counted<L: Ledger>(&self, line: u32, ticks: &mut Ticks<L>) -> Perm
        ensures meaning { result ≡ perm_of (copy_at self.now line) }
        ensures looks { ticks.new ≤ ticks.old + self.now.shape.ways }
    {
        match self.copy_counted(line, ticks) {
            Some(held) => held.perm(),
            None => Perm::Nothing,
        }
    }

    /// A line's bytes, where the cache has them.
    pub fn read_counted<L: Ledger>(&self, line: u32, ticks: &mut Ticks<L>) -> Option<LineData>
        ensures meaning { result ≡ bytes_of_copy (copy_at self.now line) }
        ensures looks { ticks.new ≤ ticks.old + self.now.shape.ways }
    {
        match self.copy_counted(line, ticks) {
            Some(held) => Some(held.bytes()),
            None => None,
        }
    }

    /// A line's copy, with its dirty mark.
    pub fn copy_counted<L: Ledger>(&self, line: u32, ticks: &mut Ticks<L>) -> Option<Held>
        ensures meaning { result ≡ copy_at self.now line }
        ensures looks { ticks.new ≤ ticks.old + self.now.shape.ways }
    {
        self.array.copy(line, ticks)
    }

    /// Whether an Acquire of the line is outstanding.
    pub fn is_acquiring(&self, line: u32) -> bool
        ensures { result ≡ set.contains self.now.acquiring line }
    {
        self.acquiring.contains(line)
    }

    /// Whether a Release of the line is unanswered.
    pub fn is_releasing(&self, line: u32) -> bool
        ensures { result ≡ set.contains self.now.releasing line }
    {
        self.releasing.contains(line)
    }

    /// Replaces the bytes of a Trunk copy, which is dirty from then on.
    pub fn write_counted<L: Ledger>(&mut self, line: u32, bytes: LineData, ticks: &mut Ticks<L>)
        requires { perm_of (copy_at self.old line) ≡ perms.Trunk }
        ensures meaning { self.new ≡ written self.old line bytes }
        ensures looks { ticks.new ≤ ticks.old + self.old.shape.ways }
    {
        let Some((way, place)) = self.array.find(line, ticks) else {
            unreachable!()
        };
        self.array.put(
            way,
            Place {
                line,
                copy: Some(Held::Trunk { dirty: true, bytes }),
                acquiring: place.acquiring,
            },
        );
    }

    /// Writes the marked bytes of an aligned word of a Trunk copy, which is dirty from then on, also
    /// where none is marked. The word's place in the line is its remainder by the line's size.
    pub fn write_word_counted<L: Ledger>(
        &mut self,
        line: u32,
        word: u32,
        marks: [bool; 4],
        bytes: [u8; 4],
        ticks: &mut Ticks<L>,
    )
        requires trunk { perm_of (copy_at self.old line) ≡ perms.Trunk }
        requires aligned { word % 4 ≡ 0 }
        ensures meaning { self.new ≡ word_written self.old line word marks bytes }
        ensures looks { ticks.new ≤ ticks.old + 2 * self.old.shape.ways }
    {
        let Some(old) = self.read_counted(line, ticks) else {
            unreachable!()
        };
        self.write_counted(line, with_word(old, word, marks, bytes), ticks);
    }

    /// What a miss on a line waits for, before its set is looked at.
    fn waits(&self, line: u32) -> Option<Want>
        ensures stalls { IfSome result (λ stall. (grow : Grow) → wanted self.now line grow ≡ (stall, self.now)) }
        ensures released { IfNone result (set.contains self.now.releasing line ≡ false) }
        ensures granted { IfNone result (set.contains self.now.acquiring line ≡ false) }
        ensures tracker { IfNone result (set.len self.now.acquiring < TRACKERS) }
    {
        if self.releasing.contains(line) {
            return Some(Want::WaitRelease);
        }
        if self.acquiring.contains(line) {
            return Some(Want::WaitGrant);
        }
        if self.acquiring.is_full() {
            return Some(Want::NoTracker);
        }
        None
    }

    /// What `want` would answer; nothing changes.
    pub fn peek_want_counted<L: Ledger>(&self, line: u32, grow: Grow, ticks: &mut Ticks<L>) -> Want
        ensures meaning { result ≡ (wanted self.now line grow).0 }
        ensures looks { ticks.new ≤ ticks.old + 2 * self.now.shape.ways }
    {
        if let Some(stall) = self.waits(line) {
            return stall;
        }
        match self.array.room_for(line, ticks) {
            Some(_) => Want::Missed(grow),
            None => Want::SetFull,
        }
    }

    /// A miss on a line, for which an Acquire would ask `grow`. `Missed` takes a tracker, and a slot
    /// that stays the line's until the Grant, also where a Probe takes the copy meanwhile.
    pub fn want_counted<L: Ledger>(&mut self, line: u32, grow: Grow, ticks: &mut Ticks<L>) -> Want
        ensures meaning { (result, self.new) ≡ wanted self.old line grow }
        ensures looks { ticks.new ≤ ticks.old + 2 * self.old.shape.ways }
    {
        if let Some(stall) = self.waits(line) {
            return stall;
        }
        let Some((way, copy)) = self.array.room_for(line, ticks) else {
            return Want::SetFull;
        };
        self.array.put(
            way,
            Place {
                line,
                copy,
                acquiring: true,
            },
        );
        self.acquiring.insert(line);
        Want::Missed(grow)
    }

    /// A Probe of a line.
    pub fn on_probe_counted<L: Ledger>(
        &mut self,
        line: u32,
        cap: Cap,
        ticks: &mut Ticks<L>,
    ) -> Probed
        ensures meaning { (result, self.new) ≡ probed self.old line cap }
        ensures looks { ticks.new ≤ ticks.old + self.old.shape.ways }
    {
        if self.releasing.contains(line) {
            return Probed::Releasing;
        }
        let Some((way, before)) = self.array.find(line, ticks) else {
            return NO_COPY;
        };
        let Some(held) = before.copy else {
            return NO_COPY;
        };
        self.array.put(
            way,
            Place {
                line,
                copy: held.shrunk(cap),
                acquiring: before.acquiring,
            },
        );
        held.probed(cap)
    }

    /// The Grant that answers the line's Acquire, which frees its tracker. Without bytes the copy keeps
    /// its own.
    pub fn on_grant_counted<L: Ledger>(
        &mut self,
        line: u32,
        cap: Cap,
        bytes: Option<LineData>,
        ticks: &mut Ticks<L>,
    )
        requires { IsTrue (set.contains self.old.acquiring line) }
        ensures meaning { self.new ≡ granted self.old line cap bytes }
        ensures looks { ticks.new ≤ ticks.old + self.old.shape.ways }
    {
        let Some((way, place)) = self.array.find(line, ticks) else {
            unreachable!()
        };
        self.array.put(
            way,
            Place {
                line,
                copy: Held::granted(cap, bytes, place.copy),
                acquiring: false,
            },
        );
        self.acquiring.remove(line);
    }

    /// The answer to the line's Release.
    pub fn on_release_ack(&mut self, line: u32)
        ensures { self.new ≡ answered self.old line }
    {
        self.releasing.remove(line);
    }

    /// What `evict` would answer; nothing changes.
    pub fn peek_evict_counted<L: Ledger>(&self, line: u32, ticks: &mut Ticks<L>) -> Evict
        ensures meaning { result ≡ (evicted self.now line).0 }
        ensures looks { ticks.new ≤ ticks.old + self.now.shape.ways }
    {
        let Some(held) = self.copy_counted(line, ticks) else {
            return Evict::NotHeld;
        };
        if self.is_acquiring(line) {
            return Evict::AcquirePending;
        }
        if self.releasing.is_full() {
            return Evict::ReleaseFull;
        }
        held.evicted()
    }

    /// Gives a copy up.
    pub fn evict_counted<L: Ledger>(&mut self, line: u32, ticks: &mut Ticks<L>) -> Evict
        ensures meaning { (result, self.new) ≡ evicted self.old line }
        ensures looks { ticks.new ≤ ticks.old + self.old.shape.ways }
    {
        let Some((way, place)) = self.array.find(line, ticks) else {
            return Evict::NotHeld;
        };
        let Some(held) = place.copy else {
            return Evict::NotHeld;
        };
        if place.acquiring {
            return Evict::AcquirePending;
        }
        if self.releasing.is_full() {
            return Evict::ReleaseFull;
        }
        self.array.put(
            way,
            Place {
                line,
                copy: None,
                acquiring: false,
            },
        );
        self.releasing.insert(line);
        held.evicted()
    }
}
