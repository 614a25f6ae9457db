//! The thirteen rules of preserved program order (chapter 14.1, "Preserved Program Order"), each a test of
//! two operations of one hart, `a` before `b` in program order. `items` is the list of their hart.
ghost use Rattle.std.specs.Prelude.{◌≡◌, ◌-◌, ◌&&◌, ◌||◌, slice_index_or, true};
ghost use Rattle.memory_model.specs.declared.operation.Operation.{Operation as OperationValue};
ghost use Rattle.std.specs.List.{list_any};
ghost use Rattle.memory_model.specs.Rules as spec;
ghost use Rattle.memory_model.specs.Dependencies.{between};
ghost use Rattle.memory_model.specs.Operations as operations;
ghost use Rattle.memory_model.specs.Operations.{addresses_of};
ghost use Rattle.rvwmo_order.specs.Bounds.{IsGiven};
ghost use Rattle.rvwmo_order.specs.Ranks.{IsIn, ranked};
ghost use Rattle.rvwmo_order.specs.Scans as scans;
ghost use Rattle.rvwmo_order.specs.Rules.{rule_of};
ghost use Rattle.rvwmo_order.specs.Marks.{Tells};

use crate::fencing::{fences, is_lr_or_sc};
use crate::ranking::Ranking;
use crate::rule::Rule;
use crate::sources::{is_same_source, returns_from};
use crate::sweeping::Sweep;
use machine_types::MemoryModel;
use memory_model::Operation;
use trace_operations::Items;
use trace_operations::accesses::{
    end_of, has_acquire, has_rcsc, has_release, is_amo, is_lr, is_sc, overlap, precedes, reads,
    stores_to, touches, writes,
};

/// Whether the sweep's rule holds of two operations, of which the first precedes the second in program
/// order; a rule on dependencies where the sweep back from the second marked the first.
pub(crate) fn asks(
    sweep: &Sweep,
    model: MemoryModel,
    items: &Items,
    ranking: &Ranking,
    a: &Operation,
    b: &Operation,
) -> bool
    requires tells { Tells sweep.now.rule items.now ranking.now b.now sweep.now.low sweep.now.marks.items a.now }
    requires first { IsIn ranking.now a.now }
    requires second { IsIn ranking.now b.now }
    ensures { result ≡ (rule_of sweep.now.rule).asks model items.now ranking.now a.now b.now }
{
    match sweep.rule() {
        Rule::OverlappingStore => writes(b.kind) && overlap(a, b),
        Rule::SameByteLoads => are_same_byte_loads(items, ranking, a, b),
        Rule::AtomicSource => {
            (is_amo(a.kind) || is_sc(a.kind)) && reads(b.kind) && returns_from(ranking, b, a)
        }
        Rule::Fence => is_fenced(items, a, b),
        Rule::Acquire => has_acquire(model, a),
        Rule::Release => has_release(model, b),
        Rule::Annotations => has_rcsc(model, a) && has_rcsc(model, b),
        Rule::Pair => are_paired(items, a, b),
        Rule::Address
        | Rule::Data
        | Rule::Control
        | Rule::DependentStore
        | Rule::DependentAddress => sweep.is_marked(a),
    }
}

// Rule 2: both are loads and return a byte of both from different writes, with no store to it between.
fn are_same_byte_loads(items: &Items, ranking: &Ranking, a: &Operation, b: &Operation) -> bool
    requires first { IsIn ranking.now a.now }
    requires second { IsIn ranking.now b.now }
    ensures { result ≡ spec.rule_2 items.now ranking.now a.now b.now }
{
    reads(a.kind) && reads(b.kind) && return_differently(items, ranking, a, b)
}

fn return_differently(items: &Items, ranking: &Ranking, a: &Operation, b: &Operation) -> bool
    requires first { IsIn ranking.now a.now }
    requires first_reads { operations.reads a.now.kind ≡ true }
    requires second { IsIn ranking.now b.now }
    requires second_reads { operations.reads b.now.kind ≡ true }
    ensures { result ≡ list_any (λ x. scans.returns_differently x items.now ranking.now a.now b.now) (addresses_of a.now) }
{
    let first = ranking.ranks_of(a);
    let second = ranking.ranks_of(b);
    differ_by(items, ranking, &first, &second, a, b)
}

// The same by the ranks of the stores that the bytes of both come from.
fn differ_by(
    items: &Items,
    ranking: &Ranking,
    first: &[usize; 4],
    second: &[usize; 4],
    a: &Operation,
    b: &Operation,
) -> bool
    ensures { result ≡ list_any (λ x. scans.differs x items.now (ranked ranking.now (slice_index_or first.now (x - a.now.address) 0)) (ranked ranking.now (slice_index_or second.now (x - b.now.address) 0)) a.now b.now) (addresses_of a.now) }
{
    (u64::from(a.address)..end_of(a)).any(|x| {
        let (one, other) = (
            ranking.source_at(first, a, x),
            ranking.source_at(second, b, x),
        );
        differs(x, items, one, other, a, b)
    })
}

// Whether byte `x` of both comes from these stores, which differ, and none stands between.
fn differs(
    x: u64,
    items: &Items,
    one: Option<Operation>,
    other: Option<Operation>,
    a: &Operation,
    b: &Operation,
) -> bool
    ensures { result ≡ scans.differs x items.now one other a.now b.now }
{
    touches(x, b) && !has_store_between(items, a, b, x) && !is_same_source(one, other)
}

/// Whether a store to `x` stands between them in program order.
pub(crate) fn has_store_between(items: &Items, a: &Operation, b: &Operation, x: u64) -> bool
    ensures { result ≡ list_any (λ m. spec.has_store_to x m.operation) (between items.now a.now b.now) }
{
    let mut rest = items.between(a, b);
    while let Some((item, tail)) = rest.split_first() {
        if has_store_to(x, item.operation()) {
            return true;
        }
        rest = tail;
    }
    false
}

fn has_store_to(x: u64, operation: Option<Operation>) -> bool
    ensures { result ≡ spec.has_store_to x operation }
{
    match operation {
        Some(store) => stores_to(x, &store),
        None => false,
    }
}

/// Rule 4: a FENCE between them orders them.
pub(crate) fn is_fenced(items: &Items, a: &Operation, b: &Operation) -> bool
    ensures { result ≡ list_any (λ m. spec.fences m.instr a.now.kind b.now.kind) (between items.now a.now b.now) }
{
    let mut rest = items.between(a, b);
    while let Some((item, tail)) = rest.split_first() {
        if fences(item.instr(), a.kind, b.kind) {
            return true;
        }
        rest = tail;
    }
    false
}

/// Rule 8: `a` is an LR and `b` the SC that it is paired with.
pub(crate) fn are_paired(items: &Items, a: &Operation, b: &Operation) -> bool
    ensures { result ≡ spec.paired items.now a.now b.now }
{
    precedes(a, b) && is_lr(a.kind) && is_sc(b.kind) && !has_lr_or_sc_between(items, a, b)
}

fn has_lr_or_sc_between(items: &Items, a: &Operation, b: &Operation) -> bool
    ensures { result ≡ list_any (λ m. spec.is_lr_or_sc m.instr) (between items.now a.now b.now) }
{
    let mut rest = items.between(a, b);
    while let Some((item, tail)) = rest.split_first() {
        if is_lr_or_sc(item.instr()) {
            return true;
        }
        rest = tail;
    }
    false
}

/// The place of the LR that an SC is paired with, where there is one: that of the last LR or SC before it.
pub(crate) fn pair_place(items: &Items, sc: &Operation) -> u32
    ensures { (r : OperationValue) → IsGiven items.now r → spec.paired items.now r sc.now ≡ true → r.place ≡ result }
{
    let count = items.count();
    let mut place = sc.place.min(count);
    while place > 0 {
        place -= 1;
        let item = items.item(place);
        if is_lr_or_sc(item.instr()) {
            return place;
        }
    }
    0
}
