//! Looking for two operations of which the one behind must come first by a rule: only where a bound leaves
//! room for one, and then where the bounds of a second walk do.
ghost use Rattle.std.specs.Prelude.{◌≡◌, ◌<◌, ◌-◌, ◌+◌, ◌≤◌, ℕ, false, true, IfOk, Some, drop, find, slice_get, slice_index_or};
ghost use Rattle.memory_model.specs.declared.operation.Operation.{Operation as OperationValue};
ghost use Rattle.memory_model.specs.Operations as operations;
ghost use Rattle.memory_model.specs.Rules as rules;
ghost use Rattle.rvwmo_order.specs.Bounds.{GivesEach, HasEach, RanksEach};
ghost use Rattle.rvwmo_order.specs.Ranks.{AreDistinctOperations, AreIn, IsIn};
ghost use Rattle.rvwmo_order.specs.Rules.{rule_of};
ghost use Rattle.rvwmo_order.specs.Marks.{Tells, TellsEach};
ghost use Rattle.rvwmo_order.specs.Scans as scans;

use crate::bounds::{Row, bound_at, rows_of};
use crate::ranking::Ranking;
use crate::rule::Rule;
use crate::rules::asks;
use crate::sweeping::Sweep;
use machine_types::MemoryModel;
use memory_model::Operation;
use std::alloc::{AllocError, Global};
use trace_operations::accesses::precedes;
use trace_operations::{Harts, behind};

/// Where no more places than these may hold an operation that must come before another, looking at each is to be
/// less work than a second walk along the harts' lists. It only chooses between two ways to the same pair.
const FEW_PLACES: usize = 8;

/// Two operations of which the one behind must come first by this rule, where `rows` bound the ranks of
/// those that must come before each.
pub(crate) fn first_broken_by(
    alloc: Global,
    rule: Rule,
    model: MemoryModel,
    harts: &Harts,
    ranking: &Ranking,
    rows: &[Row],
) -> Result<Option<(Operation, Operation)>, AllocError>
    requires gives { GivesEach harts.now ranking.now }
    requires whole { HasEach harts.now ranking.now }
    requires distinct { AreDistinctOperations ranking.now }
    requires ranked { RanksEach model harts.now ranking.now rows.now }
    ensures { IfOk result (λ found. found
        ≡ scans.first_out_of_order (rules.asked_by model harts.now ranking.now (rule_of rule)) ranking.now) }
{
    let order = ranking.order();
    for place in 0..order.len() {
        let b = &order[place];
        let bound = bound_at(rows, place, rule);
        if bound <= place + 1 {
            continue;
        }
        if let Some(a) = first_behind(alloc, rule, model, harts, ranking, place, bound, b)? {
            return Ok(Some((a, *b)));
        }
    }
    Ok(None)
}

// The first of the operations behind `b` that must come before it, each of which stands before a place.
fn first_behind(
    alloc: Global,
    rule: Rule,
    model: MemoryModel,
    harts: &Harts,
    ranking: &Ranking,
    place: usize,
    bound: usize,
    b: &Operation,
) -> Result<Option<Operation>, AllocError>
    requires gives { GivesEach harts.now ranking.now }
    requires whole { HasEach harts.now ranking.now }
    requires distinct { AreDistinctOperations ranking.now }
    requires there { slice_get ranking.now place ≡ Some b.now }
    requires further { place < bound }
    requires bounded { (k : ℕ) (a : OperationValue) → bound ≤ k → slice_get ranking.now k ≡ Some a → rules.asked_by model harts.now ranking.now (rule_of rule) a b.now ≡ false }
    ensures { IfOk result (λ found. found
        ≡ find (λ a. rules.asked_by model harts.now ranking.now (rule_of rule) a b.now) (drop (place + 1) ranking.now)) }
{
    let order = ranking.order();
    let end = bound.min(order.len());
    if end - place > FEW_PLACES {
        return first_by_weights(alloc, rule, model, harts, ranking, place, b);
    }
    first_among(
        alloc,
        rule,
        model,
        harts,
        ranking,
        &order[place + 1..end],
        b,
    )
}

// The same of all behind. Of these the first has the most weight, so that the bound on weights tells how far behind
// `b` it stands at least.
fn first_by_weights(
    alloc: Global,
    rule: Rule,
    model: MemoryModel,
    harts: &Harts,
    ranking: &Ranking,
    place: usize,
    b: &Operation,
) -> Result<Option<Operation>, AllocError>
    requires gives { GivesEach harts.now ranking.now }
    requires whole { HasEach harts.now ranking.now }
    requires distinct { AreDistinctOperations ranking.now }
    requires there { slice_get ranking.now place ≡ Some b.now }
    ensures { IfOk result (λ found. found
        ≡ find (λ a. rules.asked_by model harts.now ranking.now (rule_of rule) a b.now) (drop (place + 1) ranking.now)) }
{
    let count = ranking.order().len();
    let weights = weights_behind(alloc, count, place)?;
    let rows = rows_of(alloc, model, harts, ranking, &weights)?;
    let first = count.saturating_sub(bound_at(&rows, place, rule));
    let among = behind(ranking.order(), first.max(place + 1));
    first_among(alloc, rule, model, harts, ranking, among, b)
}

// The first of these operations that must come before `b`.
fn first_among(
    alloc: Global,
    rule: Rule,
    model: MemoryModel,
    harts: &Harts,
    ranking: &Ranking,
    among: &[Operation],
    b: &Operation,
) -> Result<Option<Operation>, AllocError>
    requires each { AreIn ranking.now among.now }
    requires there { IsIn ranking.now b.now }
    ensures { IfOk result (λ found. found
        ≡ find (λ a. rules.asked_by model harts.now ranking.now (rule_of rule) a b.now) among.now) }
{
    let mut sweep = Sweep::new(alloc, rule);
    sweep.mark(harts.items_of(b.hart), ranking, among, b)?;
    Ok(first_asked(&sweep, model, harts, ranking, among, b))
}

// For each of so many operations that stands behind a place, how many stand from it on; 0 for the others.
fn weights_behind(alloc: Global, count: usize, place: usize) -> Result<Vec<usize>, AllocError>
    ensures { IfOk result (λ weights. (k : ℕ) → place < k → k < count → slice_index_or weights.items k 0 ≡ count - k) }
{
    let mut weights = Vec::with_capacity(alloc, count)?;
    for other in 0..count {
        weights.push(if other > place { count - other } else { 0 })?;
    }
    Ok(weights)
}

/// The first of these operations that must come before `b`, by the marks where the rule is one on
/// dependencies.
pub(crate) fn first_asked(
    sweep: &Sweep,
    model: MemoryModel,
    harts: &Harts,
    ranking: &Ranking,
    among: &[Operation],
    b: &Operation,
) -> Option<Operation>
    requires each { AreIn ranking.now among.now }
    requires there { IsIn ranking.now b.now }
    requires tells { TellsEach sweep.now.rule (rules.items_of harts.now b.now.hart) ranking.now b.now sweep.now.low sweep.now.marks.items among.now }
    ensures { result
        ≡ find (λ a. rules.asked_by model harts.now ranking.now (rule_of sweep.now.rule) a b.now) among.now }
{
    for a in among {
        if is_asked(sweep, model, harts, ranking, a, b) {
            return Some(*a);
        }
    }
    None
}

// Whether the rule says that `a` must come before `b`.
fn is_asked(
    sweep: &Sweep,
    model: MemoryModel,
    harts: &Harts,
    ranking: &Ranking,
    a: &Operation,
    b: &Operation,
) -> bool
    requires first { IsIn ranking.now a.now }
    requires second { IsIn ranking.now b.now }
    requires tells { operations.precedes a.now b.now ≡ true → Tells sweep.now.rule (rules.items_of harts.now b.now.hart) ranking.now b.now sweep.now.low sweep.now.marks.items a.now }
    ensures { result
        ≡ rules.asked_by model harts.now ranking.now (rule_of sweep.now.rule) a.now b.now }
{
    precedes(a, b) && asks(sweep, model, harts.items_of(a.hart), ranking, a, b)
}
