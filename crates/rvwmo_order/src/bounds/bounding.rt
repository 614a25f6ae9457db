//! The rows of an order's operations, one at each place, filled in by a walk along each hart's list.
ghost use Rattle.std.specs.Prelude.{◌≡◌, ◌+◌, ◌<◌, ℕ, IfOk, OnOk, Some, replicate, slice_get, slice_index_or, slice_set};
ghost use Rattle.memory_model.specs.declared.operation.Operation.{Operation as OperationValue};
ghost use Rattle.memory_model.specs.Rules as rules;
ghost use Rattle.rvwmo_order.specs.Bounds as spec;
ghost use Rattle.rvwmo_order.specs.Bounds.{BoundsEach, GivesEach, HasCome, HasEach, RanksEach};
ghost use Rattle.rvwmo_order.specs.Ranks.{AreDistinctOperations};
ghost use Rattle.trace_operations.specs.Placed.{GivesOwn, IsPlaced};

use crate::bounds::rows::{Row, UNBOUNDED};
use crate::bounds::walking::{Walk, weight_at};
use crate::ranking::Ranking;
use machine_types::MemoryModel;
use std::alloc::{AllocError, Global};
use trace_operations::{Harts, Item};

/// For each operation of an order the bounds on the places of those that must come before it.
pub(crate) fn ranked_rows(
    alloc: Global,
    model: MemoryModel,
    harts: &Harts,
    ranking: &Ranking,
) -> Result<Vec<Row>, AllocError>
    requires gives { GivesEach harts.now ranking.now }
    requires whole { HasEach harts.now ranking.now }
    requires distinct { AreDistinctOperations ranking.now }
    ensures { IfOk result (λ rows. RanksEach model harts.now ranking.now rows.items) }
{
    let ranks = ranks(alloc, ranking.order().len())?;
    rows_of(alloc, model, harts, ranking, &ranks)
}

// 1 for the first, 2 for the second and so on.
fn ranks(alloc: Global, count: usize) -> Result<Vec<usize>, AllocError>
    ensures { IfOk result (λ ranks. (k : ℕ) → k < count → slice_index_or ranks.items k 0 ≡ k + 1) }
{
    let mut ranks = Vec::with_capacity(alloc, count)?;
    for place in 0..count {
        ranks.push(place + 1)?;
    }
    Ok(ranks)
}

/// For each operation of an order the bounds on the weights of those that must come before it.
pub(crate) fn rows_of(
    alloc: Global,
    model: MemoryModel,
    harts: &Harts,
    ranking: &Ranking,
    weights: &[usize],
) -> Result<Vec<Row>, AllocError>
    requires gives { GivesEach harts.now ranking.now }
    requires whole { HasEach harts.now ranking.now }
    requires distinct { AreDistinctOperations ranking.now }
    ensures { IfOk result (λ rows. BoundsEach model harts.now ranking.now weights.now rows.items) }
{
    let mut rows = no_rows(alloc, ranking.order().len())?;
    for hart in 0..u8::MAX {
        if harts.get(hart).is_none() {
            break;
        }
        bound_hart(alloc, &mut rows, model, harts, hart, ranking, weights)?;
    }
    Ok(rows)
}

// So many rows of which nothing is known.
fn no_rows(alloc: Global, count: usize) -> Result<Vec<Row>, AllocError>
    ensures { IfOk result (λ rows. rows.items ≡ replicate count spec.unbounded) }
{
    let mut rows = Vec::with_capacity(alloc, count)?;
    for place in 0..count {
        rows.push(UNBOUNDED)?;
    }
    Ok(rows)
}

// Fills in the rows of a hart's operations.
fn bound_hart(
    alloc: Global,
    rows: &mut [Row],
    model: MemoryModel,
    harts: &Harts,
    hart: u8,
    ranking: &Ranking,
    weights: &[usize],
) -> Result<(), AllocError>
    requires gives { GivesEach harts.now ranking.now }
    requires whole { HasEach harts.now ranking.now }
    requires distinct { AreDistinctOperations ranking.now }
    requires bound { BoundsEach model harts.now ranking.now weights.now rows.old }
    ensures { OnOk result (BoundsEach model harts.now ranking.now weights.now rows.new) }
{
    let items = harts.items_of(hart);
    let mut walk = Walk::new(alloc, model);
    let count = items.count();
    for place in 0..count {
        let item = items.item(place);
        let own = bound_item(rows, &walk, harts, hart, ranking, weights, &item);
        walk.pass(ranking, &item, own.position, own.weight)?;
    }
    Ok(())
}

// The place of an instruction's operation in the order, and its weight; both 0 where it has none.
#[derive(Clone, Copy)]
struct Standing {
    position: usize,
    weight: usize,
}

// Fills in the row of an instruction's operation, where it has one, to which the walk has come; where that
// stands.
fn bound_item(
    rows: &mut [Row],
    walk: &Walk,
    harts: &Harts,
    hart: u8,
    ranking: &Ranking,
    weights: &[usize],
    item: &Item,
) -> Standing
    requires gives { GivesEach harts.now ranking.now }
    requires whole { HasEach harts.now ranking.now }
    requires distinct { AreDistinctOperations ranking.now }
    requires bound { BoundsEach walk.now.model harts.now ranking.now weights.now rows.old }
    requires placed { IsPlaced 0 (rules.items_of harts.now hart) }
    requires own { GivesOwn hart (rules.items_of harts.now hart) }
    requires there { slice_get (rules.items_of harts.now hart) item.now.place ≡ Some item.now }
    requires come { HasCome walk.now.model (spec.own_weight weights.now ranking.now) ranking.now (rules.items_of harts.now hart) item.now.place walk.now }
    ensures position { (a : OperationValue) → item.now.operation ≡ Some a → slice_get ranking.now result.position ≡ Some a }
    ensures weight { result.weight ≡ spec.own_weight weights.now ranking.now item.now }
    ensures bound { BoundsEach walk.now.model harts.now ranking.now weights.now rows.new }
{
    let Some(b) = item.operation() else {
        return Standing {
            position: 0,
            weight: 0,
        };
    };
    let position = ranking.position_of(&b);
    let row = walk.row(ranking, weights, rows, position, &b, item.instr());
    put_row(rows, position, row);
    Standing {
        position,
        weight: weight_at(weights, position),
    }
}

// Puts a row at a place, where there is such a place.
#[tactic(auto, using(std::proofs::lemmas::List::set_past))]
fn put_row(rows: &mut [Row], position: usize, row: Row)
    ensures { rows.new ≡ slice_set rows.old position row }
{
    if position < rows.len() {
        rows[position] = row;
    }
}
