//! The bytes that a walk along a hart's list has touched: for each the greatest weight of its accesses, and
//! of its loads since the last store to it, by where they return it from.
ghost use Rattle.std.specs.Prelude.{◌≡◌, ◌≤◌, ◌-◌, ◌+◌, ◌*◌, ◌/◌, ◌%◌, ◌<◌, ◌&&◌, ℕ, [], OnOk, Some, if◌then◌else◌, nat_eq, nat_le, nat_lt, slice_get, slice_index_or, true, unwrap_or};
ghost use Rattle.std.specs.HashMap as hash;
ghost use Rattle.memory_model.specs.Operations as operations;
ghost use Rattle.rvwmo_order.specs.Ranks.{AreDistinctOperations, GivesRanks};
ghost use Rattle.rvwmo_order.specs.Touched as spec;
ghost use Rattle.rvwmo_order.specs.Touched.{touch_in};

use crate::by_word::word_of;
use crate::ranking::{Ranking, rank_at};
use memory_model::Operation;
use std::alloc::AllocError;
use std::collections::HashMap;
use trace_operations::accesses::{behind_in_word, end_of, reads, writes};

/// The greatest weights of the operations that touched a byte.
#[derive(Clone, Copy)]
pub(crate) struct Touch {
    all: usize,
    /// Of the loads since the last store to it.
    loads: usize,
    /// The rank of the store that the load of that weight returns it from.
    source: usize,
    /// Of those loads that return it from elsewhere.
    others: usize,
}

impl Touch {
    fn none() -> Touch
        ensures { result ≡ spec.untouched }
    {
        Touch {
            all: 0,
            loads: 0,
            source: 0,
            others: 0,
        }
    }

    pub(crate) fn all(&self) -> usize
        ensures { result ≡ self.now.all }
    {
        self.all
    }

    /// Of the loads since the last store that return it from elsewhere than the store of this rank.
    pub(crate) fn but(&self, source: usize) -> usize
        ensures { result ≡ spec.but source self.now }
    {
        if self.source == source {
            self.others
        } else {
            self.loads
        }
    }

    // Goes past an operation that touches the byte, and as a load returns it from the store of this rank.
    fn pass(&mut self, a: &Operation, source: usize, own: usize)
        ensures { self.new ≡ spec.touched_from source own a.now self.old }
    {
        if writes(a.kind) {
            self.loads = 0;
            self.source = 0;
            self.others = 0;
        }
        if reads(a.kind) {
            self.load(source, own);
        }
        self.all = self.all.max(own);
    }

    fn load(&mut self, source: usize, own: usize)
        ensures { self.new ≡ spec.loaded source own self.old }
    {
        if self.source == source {
            self.loads = self.loads.max(own);
        } else if self.loads < own {
            self.others = self.loads;
            self.loads = own;
            self.source = source;
        } else {
            self.others = self.others.max(own);
        }
    }
}

/// What was kept of a byte, where this was kept of the word of this number.
pub(crate) fn touch_near(
    touches: &HashMap<u64, [Touch; 4]>,
    number: u64,
    word: &[Touch],
    x: u64,
) -> Touch
    requires { word.now ≡ unwrap_or (hash.get nat_eq touches.now number) [] }
    ensures { result ≡ touch_in touches.now x }
{
    if x / 4 == number {
        touch_at(word, x)
    } else {
        touch_at(word_of(touches, x / 4), x)
    }
}

// What was kept of a byte of a word.
fn touch_at(word: &[Touch], x: u64) -> Touch
    ensures { result ≡ slice_index_or word.now (x % 4) spec.untouched }
{
    match word.get((x % 4) as usize) {
        Some(touch) => *touch,
        None => Touch::none(),
    }
}

/// Goes past an operation that stands at this place of the order.
pub(crate) fn pass_bytes(
    touches: &mut HashMap<u64, [Touch; 4]>,
    ranking: &Ranking,
    position: usize,
    a: &Operation,
    own: usize,
) -> Result<(), AllocError>
    requires there { slice_get ranking.now position ≡ Some a.now }
    requires distinct { AreDistinctOperations ranking.now }
    ensures { OnOk result ((x : ℕ) → touch_in touches.new x
        ≡ (if operations.touches x a.now then spec.touched ranking.now x own a.now (touch_in touches.old x) else touch_in touches.old x)) }
{
    let ranks = ranks_read(ranking, position, a);
    let end = end_of(a);
    let mut x = u64::from(a.address);
    while x < end {
        let behind = behind_in_word(x, end);
        match touches.get_mut(&(x / 4)) {
            Some(word) => pass_word(word, &ranks, x, behind, a, own),
            None => {
                let mut word = [Touch::none(); 4];
                pass_word(&mut word, &ranks, x, behind, a, own);
                touches.insert(x / 4, word)?;
            }
        }
        x = behind;
    }
    Ok(())
}

// The ranks of the stores that the bytes of an operation come from, where it is a load.
fn ranks_read(ranking: &Ranking, position: usize, a: &Operation) -> [usize; 4]
    requires { slice_get ranking.now position ≡ Some a.now }
    ensures { operations.reads a.now.kind ≡ true → GivesRanks ranking.now a.now result }
{
    if reads(a.kind) {
        ranking.ranks_at(position)
    } else {
        [0; 4]
    }
}

// Goes past it at the bytes of a word from one on, up to another.
fn pass_word(
    word: &mut [Touch; 4],
    ranks: &[usize; 4],
    first: u64,
    end: u64,
    a: &Operation,
    own: usize,
)
    requires ordered { first ≤ end }
    requires within { end ≤ first / 4 * 4 + 4 }
    ensures { (x : ℕ) → x / 4 ≡ first / 4 → slice_index_or word.new (x % 4) spec.untouched
        ≡ (if nat_le first x && nat_lt x end then spec.touched_from (slice_index_or ranks.now (x - a.now.address) 0) own a.now (slice_index_or word.old (x % 4) spec.untouched) else slice_index_or word.old (x % 4) spec.untouched) }
{
    for x in first..end {
        word[(x % 4) as usize].pass(a, rank_at(ranks, a, x), own);
    }
}
