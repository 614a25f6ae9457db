//! Finding the stores that the bytes of each load of an order come from: by one walk along each hart's list, and one
//! along the order.
ghost use Rattle.std.specs.Prelude.{◌≡◌, ◌≤◌, ◌<◌, ◌+◌, ℕ, IfOk, OnOk, if◌then◌else◌, length, max, replicate, slice_index_or, sum_by, true};
ghost use Rattle.memory_model.specs.declared.operation.Operation.{Operation as OperationValue};
ghost use Rattle.memory_model.specs.Operations as operations;
ghost use Rattle.rvwmo_order.specs.Looks.{looks_at, most_looks};
ghost use Rattle.rvwmo_order.specs.Ranks.{AreDistinctOperations, AreSmall, GivesSources};
ghost use Rattle.trace_operations.specs.Indexed.{known, number_in, place_from};
ghost use Rattle.rvwmo_order.specs.Sourcing.{AreNumbers, GivesOwn, IsNoted, all_come, is_come, latest_at, raised};

use crate::candidate::{Candidate, last_of};
use crate::latest::Latest;
use memory_model::Operation;
use std::alloc::{AllocError, Global};
use std::sync::ledger::Ledger;
use tl_types::Ticks;
use trace_operations::Places;
use trace_operations::accesses::{reads, writes};

/// The ranks of the stores that the bytes of each load come from: the last of those before it in the order, or of
/// those that precede it in program order, whichever stands further behind. Each of the two is looked at once.
pub(crate) fn sources_in<L: Ledger>(
    alloc: Global,
    order: &[Operation],
    places: &Places,
    ticks: &mut Ticks<L>,
) -> Result<Vec<[usize; 4]>, AllocError>
    requires distinct { AreDistinctOperations order.now }
    requires small { AreSmall order.now }
    requires placed { (a : OperationValue) → known (number_in a.hart a.place places.now) ≡ place_from 0 a order.now }
    ensures sources { IfOk result (λ sources. GivesSources order.now sources.items) }
    ensures looks { ticks.new ≤ ticks.old + most_looks order.now }
{
    let own = own_stores(alloc, order, places)?;
    last_stores(alloc, order, &own, ticks)
}

// For each operation the ranks of the last stores to its first bytes that precede it in program order.
fn own_stores(
    alloc: Global,
    order: &[Operation],
    places: &Places,
) -> Result<Vec<[usize; 4]>, AllocError>
    requires distinct { AreDistinctOperations order.now }
    requires placed { (a : OperationValue) → known (number_in a.hart a.place places.now) ≡ place_from 0 a order.now }
    ensures { IfOk result (λ own. GivesOwn order.now own.items all_come) }
{
    let mut own = none_noted(alloc, order.len())?;
    let lists = places.lists();
    for hart in 0..lists.len() {
        note_hart(alloc, &mut own, order, hart, lists[hart].as_slice())?;
    }
    Ok(own)
}

// So many of which none is noted yet.
fn none_noted(alloc: Global, count: usize) -> Result<Vec<[usize; 4]>, AllocError>
    ensures { IfOk result (λ own. own.items ≡ replicate count (replicate 4 0)) }
{
    let mut own = Vec::with_capacity(alloc, count)?;
    for place in 0..count {
        own.push([0; 4])?;
    }
    Ok(own)
}

// Notes those of a hart's operations.
fn note_hart(
    alloc: Global,
    own: &mut [[usize; 4]],
    order: &[Operation],
    hart: usize,
    list: &[u32],
) -> Result<(), AllocError>
    requires distinct { AreDistinctOperations order.now }
    requires numbers { AreNumbers order.now hart list.now }
    requires before { GivesOwn order.now own.old (is_come hart 0) }
    ensures { OnOk result (GivesOwn order.now own.new (is_come (hart + 1) 0)) }
{
    let mut latest = Latest::none(alloc);
    for place in 0..list.len() {
        let rank = list[place] as usize;
        if rank > 0 {
            note_one(&mut latest, own, order, rank)?;
        }
    }
    Ok(())
}

// Notes those of the operation of a rank, and goes past it.
fn note_one(
    latest: &mut Latest,
    own: &mut [[usize; 4]],
    order: &[Operation],
    rank: usize,
) -> Result<(), AllocError>
    requires some { 0 < rank }
    requires within { rank ≤ length order.now }
    requires each { length own.old ≡ length order.now }
    ensures { OnOk result (IsNoted order.now latest.old.words latest.new.words own.old own.new rank) }
{
    let a = &order[rank - 1];
    own[rank - 1] = latest.ranks(a);
    pass(latest, a, rank)
}

// Goes past an operation of this rank.
fn pass(latest: &mut Latest, a: &Operation, rank: usize) -> Result<(), AllocError>
    ensures { OnOk result ((x : ℕ) → latest_at latest.new.words x
        ≡ raised rank x a.now (latest_at latest.old.words x)) }
{
    if writes(a.kind) {
        latest.raise(a, rank)?;
    }
    Ok(())
}

// For each load the ranks of the last stores to its bytes of those before it in the order and of its hart's own.
fn last_stores<L: Ledger>(
    alloc: Global,
    order: &[Operation],
    own: &[[usize; 4]],
    ticks: &mut Ticks<L>,
) -> Result<Vec<[usize; 4]>, AllocError>
    requires distinct { AreDistinctOperations order.now }
    requires small { AreSmall order.now }
    requires own { GivesOwn order.now own.now all_come }
    ensures sources { IfOk result (λ sources. GivesSources order.now sources.items) }
    ensures looks { ticks.new ≤ ticks.old + most_looks order.now }
{
    let mut latest = Latest::none(alloc);
    let mut sources = Vec::with_capacity(alloc, order.len())?;
    for (position, a) in order.iter().enumerate() {
        sources.push(ranks_found(&latest, a, &own[position], ticks))?;
        pass(&mut latest, a, position + 1)?;
    }
    Ok(sources)
}

// Those of an operation, where it is a load.
fn ranks_found<L: Ledger>(
    latest: &Latest,
    a: &Operation,
    own: &[usize; 4],
    ticks: &mut Ticks<L>,
) -> [usize; 4]
    requires { a.now.size ≤ 4 }
    ensures ranks { operations.reads a.now.kind ≡ true → (i : ℕ) → i < a.now.size → slice_index_or result i 0 ≡ max (latest_at latest.now.words (a.now.address + i)) (slice_index_or own.now i 0) }
    ensures looks { (most : ℕ → ℕ) → ((i : ℕ) → i < a.now.size → looks_at (latest_at latest.now.words (a.now.address + i)) (slice_index_or own.now i 0) ≤ most (a.now.address + i))
        → ticks.new ≤ ticks.old + (if operations.reads a.now.kind then sum_by most (operations.addresses_of a.now) else 0) }
{
    let mut ranks = [0; 4];
    if !reads(a.kind) {
        return ranks;
    }
    let before = latest.ranks(a);
    for offset in 0..a.size as usize {
        let last = Candidate::new(before[offset]);
        ranks[offset] = last_of(last, Candidate::new(own[offset]), ticks);
    }
    ranks
}
