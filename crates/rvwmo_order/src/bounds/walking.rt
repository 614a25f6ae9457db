//! A walk along a hart's list: what it carries, what it has passed and the bytes that it has touched bound,
//! for each rule, the weights of the operations that must come before the one at hand.
ghost use Rattle.std.specs.Prelude.{◌≡◌, ◌≤◌, ◌-◌, ◌||◌, ℕ, max, true, List, OnOk, Some, slice_get, slice_index_or};
ghost use Rattle.memory_model.specs.declared.operation.Operation.{Operation as OperationValue};
ghost use Rattle.memory_model.specs.Items.{Item as ItemValue};
ghost use Rattle.memory_model.specs.Dependencies.{uses_in};
ghost use Rattle.memory_model.specs.Operations as operations;
ghost use Rattle.memory_model.specs.Order as orders;
ghost use Rattle.rvwmo_order.specs.Carried.{carried_after, greatest};
ghost use Rattle.rvwmo_order.specs.Passed.{passed_after};
ghost use Rattle.rvwmo_order.specs.Bounds as spec;
ghost use Rattle.rvwmo_order.specs.Bounds.{HasCome, IsBoundsRow, IsSource};
ghost use Rattle.rvwmo_order.specs.Ranks.{AreDistinctOperations, rank_of, ranked};
ghost use Rattle.rvwmo_order.specs.Touched.{but, touch_after, touch_in};

use crate::bounds::carried::Carried;
use crate::bounds::passed::Passed;
use crate::bounds::rows::{Row, row_at};
use crate::bounds::touched::{Touch, pass_bytes, touch_near};
use crate::by_word::word_of;
use crate::ranking::{Ranking, rank_at};
use machine_types::MemoryModel;
use memory_model::Operation;
use rv32_decode::Instr;
use std::alloc::{AllocError, Global};
use std::collections::HashMap;
use trace_operations::Item;
use trace_operations::accesses::{end_of, has_rcsc, has_release, is_amo, is_sc, reads, writes};

#[derive(Drop)]
pub(crate) struct Walk {
    model: MemoryModel,
    carried: Carried,
    passed: Passed,
    /// By four bytes in a row, the first of which is a multiple of four.
    touches: HashMap<u64, [Touch; 4]>,
}

impl Walk {
    pub(crate) fn new(alloc: Global, model: MemoryModel) -> Walk
        ensures model { result.model ≡ model }
        ensures come { (own : ItemValue → ℕ) (order : List OperationValue) (items : List ItemValue) → HasCome model own order items 0 result }
    {
        Walk {
            model,
            carried: Carried::new(),
            passed: Passed::new(),
            touches: HashMap::new(alloc),
        }
    }

    /// Goes past an instruction whose operation, where it has one, stands at this place of the order and has
    /// this weight.
    pub(crate) fn pass(
        &mut self,
        ranking: &Ranking,
        item: &Item,
        position: usize,
        own: usize,
    ) -> Result<(), AllocError>
        requires placed { (a : OperationValue) → item.now.operation ≡ Some a → slice_get ranking.now position ≡ Some a }
        requires distinct { AreDistinctOperations ranking.now }
        ensures model { OnOk result (self.new.model ≡ self.old.model) }
        ensures carried { OnOk result (self.new.carried ≡ carried_after own item.now.instr self.old.carried) }
        ensures passed { OnOk result (self.new.passed ≡ passed_after self.old.model own item.now self.old.passed) }
        ensures touched { OnOk result ((x : ℕ) → touch_in self.new.touches x ≡ touch_after ranking.now x own item.now (touch_in self.old.touches x)) }
    {
        self.carried.pass(item.instr(), own);
        self.passed.pass(self.model, item, own);
        if let Some(a) = item.operation() {
            pass_bytes(&mut self.touches, ranking, position, &a, own)?;
        }
        Ok(())
    }

    /// The bounds of an operation and its instruction, with the rows of the operations before.
    pub(crate) fn row(
        &self,
        ranking: &Ranking,
        weights: &[usize],
        rows: &[Row],
        position: usize,
        b: &Operation,
        instr: Option<Instr>,
    ) -> Row
        requires there { slice_get ranking.now position ≡ Some b.now }
        requires distinct { AreDistinctOperations ranking.now }
        ensures { IsBoundsRow ranking.now weights.now rows.now b.now (uses_in instr) self.now result }
    {
        let (address, data_stored) = self.in_sources(instr);
        let is_store = writes(b.kind);
        let sourced = self.sourced(ranking, weights, rows, position, b);
        Row {
            overlapping_store: self.accesses(b),
            same_byte_loads: sourced.loads,
            atomic_source: sourced.atomics,
            fence: self.passed.fenced_before(b.kind),
            acquire: self.passed.acquires(),
            release: only_if(has_release(self.model, b), self.passed.all()),
            annotations: only_if(has_rcsc(self.model, b), self.passed.annotated()),
            pair: only_if(is_sc(b.kind), self.passed.reserved()),
            address,
            data_stored,
            control: only_if(is_store, self.carried.steered()),
            dependent_store: sourced.passed_on,
            dependent_address: only_if(is_store, self.carried.addressed()),
        }
    }

    // What came into an access's address, and what into the number that it stores.
    fn in_sources(&self, instr: Option<Instr>) -> (usize, usize)
        ensures address { result.0 ≡ greatest self.now.carried.registers (uses_in instr).address }
        ensures data_stored { result.1 ≡ greatest self.now.carried.registers (uses_in instr).stored }
    {
        match instr {
            Some(instr) => (
                self.carried.in_address(&instr),
                self.carried.in_stored(&instr),
            ),
            None => (0, 0),
        }
    }

    // All accesses to a byte of a store.
    fn accesses(&self, b: &Operation) -> usize
        ensures { operations.writes b.now.kind ≡ true → (x : ℕ) → operations.touches x b.now ≡ true → (touch_in self.now.touches x).all ≤ result }
    {
        if !writes(b.kind) {
            return 0;
        }
        let number = u64::from(b.address) / 4;
        let word = word_of(&self.touches, number);
        let mut most = 0;
        for x in u64::from(b.address)..end_of(b) {
            most = most.max(touch_near(&self.touches, number, word, x).all());
        }
        most
    }

    // By the stores that the bytes of a load come from.
    fn sourced(
        &self,
        ranking: &Ranking,
        weights: &[usize],
        rows: &[Row],
        position: usize,
        b: &Operation,
    ) -> Sourced
        requires there { slice_get ranking.now position ≡ Some b.now }
        requires distinct { AreDistinctOperations ranking.now }
        ensures loads { operations.reads b.now.kind ≡ true → (x : ℕ) → operations.touches x b.now ≡ true → but (rank_of ranking.now (orders.source ranking.now b.now x)) (touch_in self.now.touches x) ≤ result.loads }
        ensures atomics { operations.reads b.now.kind ≡ true → (x : ℕ) (s : OperationValue) → IsSource ranking.now b.now x s → (operations.is_amo s.kind || operations.is_sc s.kind) ≡ true → spec.weight_of weights.now ranking.now s ≤ result.atomics }
        ensures passed_on { operations.reads b.now.kind ≡ true → (x : ℕ) (s : OperationValue) → IsSource ranking.now b.now x s → max (slice_index_or rows.now (orders.position_in ranking.now s) spec.unbounded).address (slice_index_or rows.now (orders.position_in ranking.now s) spec.unbounded).data_stored ≤ result.passed_on }
    {
        let mut most = Sourced {
            loads: 0,
            atomics: 0,
            passed_on: 0,
        };
        if !reads(b.kind) {
            return most;
        }
        let ranks = ranking.ranks_at(position);
        let number = u64::from(b.address) / 4;
        let word = word_of(&self.touches, number);
        for x in u64::from(b.address)..end_of(b) {
            let source = rank_at(&ranks, b, x);
            let touch = touch_near(&self.touches, number, word, x);
            most = Sourced {
                loads: most.loads.max(touch.but(source)),
                atomics: most.atomics.max(atomic_source(ranking, weights, b, source)),
                passed_on: most
                    .passed_on
                    .max(dependent_store(ranking, rows, b, source)),
            };
        }
        most
    }
}

/// The greatest weights of the operations that a load waits for, by the stores that its bytes come from.
#[derive(Clone, Copy)]
struct Sourced {
    /// Of the loads of a byte that return it from elsewhere.
    loads: usize,
    /// Of the AMOs and SCs of its hart that a byte comes from.
    atomics: usize,
    /// Of what came into the stores of its hart that a byte comes from.
    passed_on: usize,
}

// The weight, where the test holds.
fn only_if(test: bool, weight: usize) -> usize
    ensures { test ≡ true → result ≡ weight }
{
    if test { weight } else { 0 }
}

// The weight of the store of a rank, where that is an AMO or an SC of the hart.
fn atomic_source(ranking: &Ranking, weights: &[usize], b: &Operation, rank: usize) -> usize
    ensures { (s : OperationValue) → ranked ranking.now rank ≡ Some s → s.hart ≡ b.now.hart → (operations.is_amo s.kind || operations.is_sc s.kind) ≡ true → slice_index_or weights.now (rank - 1) 0 ≤ result }
{
    let Some(s) = ranking.ranked(rank) else {
        return 0;
    };
    if s.hart == b.hart && (is_amo(s.kind) || is_sc(s.kind)) {
        weight_at(weights, rank.saturating_sub(1))
    } else {
        0
    }
}

// What came into the store of a rank, where that is of the hart.
fn dependent_store(ranking: &Ranking, rows: &[Row], b: &Operation, rank: usize) -> usize
    ensures { (s : OperationValue) → ranked ranking.now rank ≡ Some s → s.hart ≡ b.now.hart → max (slice_index_or rows.now (rank - 1) spec.unbounded).address (slice_index_or rows.now (rank - 1) spec.unbounded).data_stored ≤ result }
{
    let Some(s) = ranking.ranked(rank) else {
        return 0;
    };
    if s.hart != b.hart {
        return 0;
    }
    let row = row_at(rows, rank.saturating_sub(1));
    row.address.max(row.data_stored)
}

/// The weight at a place of the order.
pub(crate) fn weight_at(weights: &[usize], position: usize) -> usize
    ensures { result ≡ slice_index_or weights.now position 0 }
{
    match weights.get(position) {
        Some(weight) => *weight,
        None => 0,
    }
}
