//! Judging an order of operations by its ranking: the load value axiom and the atomicity axiom as they are
//! defined, but the rules by bounds and dependencies by the marks of sweeps.
ghost use Rattle.std.specs.Prelude.{◌≡◌, ◌-◌, ◌==◌, IfOk, None, Some, find, if◌then◌else◌, slice_index_or, true};
ghost use Rattle.std.specs.List.{list_all};
ghost use Rattle.memory_model.specs.Operations as operations;
ghost use Rattle.memory_model.specs.Order as orders;
ghost use Rattle.elf_loader.specs.Image.{byte_at};
ghost use Rattle.memory_model.specs.Legal as legal;
ghost use Rattle.rvwmo_order.specs.Bounds.{GivesEach, HasEach, RanksEach};
ghost use Rattle.rvwmo_order.specs.Ranks.{AreDistinctOperations, IsIn, ranked};
ghost use Rattle.rvwmo_order.specs.Scans as scans;
ghost use Rattle.rvwmo_order.specs.Scans.{all_rules, first_broken_pair, first_broken_rule, judged};

use crate::bounds::{Row, are_clear, ranked_rows};
use crate::lows::{is_near, lows_in};
use crate::near::are_kept;
use crate::ranking::Ranking;
use crate::rule::Rule;
use crate::rules::{are_paired, pair_place};
use crate::searching::first_broken_by;
use crate::sources::byte_from;
use crate::verdict::{Code, RULES, Verdict};
use elf_loader::Image;
use machine_types::MemoryModel;
use memory_model::Operation;
use memory_model::trace_recorder::OpId;
use std::alloc::{AllocError, Global};
use trace_operations::Harts;
use trace_operations::accesses::{end_of, is_same, is_sc, name_of, read_at, reads, stores_to};

/// The verdict on an order of the operations of these lists, one a hart.
pub(crate) fn judge(
    alloc: Global,
    model: MemoryModel,
    image: &Image,
    harts: &Harts,
    ranking: &Ranking,
) -> Result<Verdict, AllocError>
    requires gives { GivesEach harts.now ranking.now }
    requires whole { HasEach harts.now ranking.now }
    requires distinct { AreDistinctOperations ranking.now }
    ensures { IfOk result (λ verdict. verdict ≡ judged model (byte_at image.now) harts.now ranking.now) }
{
    if let Some((rule, a, b)) = broken_rule(alloc, model, harts, ranking)? {
        return Ok(Verdict::Fault(Code::Order(rule), name_of(&a), name_of(&b)));
    }
    if let Some(load) = wrong_load(image, ranking) {
        return Ok(Verdict::Fault(Code::LoadValue, name_of(&load), name_of(&load)));
    }
    if let Some((r, w)) = broken_pair(harts, ranking) {
        return Ok(Verdict::Fault(Code::Atomicity, name_of(&r), name_of(&w)));
    }
    Ok(Verdict::Legal)
}

// The first rule by which an operation must come before one that stands before it, with the two.
fn broken_rule(
    alloc: Global,
    model: MemoryModel,
    harts: &Harts,
    ranking: &Ranking,
) -> Result<Option<(Rule, Operation, Operation)>, AllocError>
    requires gives { GivesEach harts.now ranking.now }
    requires whole { HasEach harts.now ranking.now }
    requires distinct { AreDistinctOperations ranking.now }
    ensures { IfOk result (λ broken. broken ≡ first_broken_rule model harts.now ranking.now all_rules) }
{
    let lows = lows_in(alloc, ranking.order())?;
    if is_near(ranking.order(), &lows) && are_kept(alloc, model, harts, ranking, &lows)? {
        return Ok(None);
    }
    let rows = ranked_rows(alloc, model, harts, ranking)?;
    broken_by_rows(alloc, model, harts, ranking, &rows)
}

// The same, where `rows` bound the ranks of those that must come before each.
fn broken_by_rows(
    alloc: Global,
    model: MemoryModel,
    harts: &Harts,
    ranking: &Ranking,
    rows: &[Row],
) -> Result<Option<(Rule, Operation, Operation)>, AllocError>
    requires gives { GivesEach harts.now ranking.now }
    requires whole { HasEach harts.now ranking.now }
    requires distinct { AreDistinctOperations ranking.now }
    requires ranked { RanksEach model harts.now ranking.now rows.now }
    ensures { IfOk result (λ broken. broken ≡ first_broken_rule model harts.now ranking.now all_rules) }
{
    if are_clear(rows, ranking.order().len()) {
        return Ok(None);
    }
    let mut left = RULES.as_slice();
    while let [rule, rest @ ..] = left {
        if let Some((a, b)) = first_broken_by(alloc, *rule, model, harts, ranking, rows)? {
            return Ok(Some((*rule, a, b)));
        }
        left = rest;
    }
    Ok(None)
}

// The first load that returns another byte than its source's.
fn wrong_load(image: &Image, ranking: &Ranking) -> Option<Operation>
    ensures { result ≡ scans.wrong_load (byte_at image.now) ranking.now }
{
    for a in ranking.order() {
        if !returns_sources(image, ranking, a) {
            return Some(*a);
        }
    }
    None
}

fn returns_sources(image: &Image, ranking: &Ranking, a: &Operation) -> bool
    requires { IsIn ranking.now a.now }
    ensures { result ≡ legal.returns_sources (byte_at image.now) ranking.now a.now }
{
    !reads(a.kind) || has_source_bytes(image, ranking, a)
}

fn has_source_bytes(image: &Image, ranking: &Ranking, a: &Operation) -> bool
    requires there { IsIn ranking.now a.now }
    requires reads { operations.reads a.now.kind ≡ true }
    ensures { result
        ≡ list_all (λ x. operations.read_at a.now x == orders.byte_from (byte_at image.now) x (orders.source ranking.now a.now x)) (operations.addresses_of a.now) }
{
    has_bytes(image, ranking, &ranking.ranks_of(a), a)
}

// Whether each byte is that of the store of its rank.
fn has_bytes(image: &Image, ranking: &Ranking, ranks: &[usize; 4], a: &Operation) -> bool
    ensures { result
        ≡ list_all (λ x. operations.read_at a.now x == orders.byte_from (byte_at image.now) x (ranked ranking.now (slice_index_or ranks.now (x - a.now.address) 0))) (operations.addresses_of a.now) }
{
    (u64::from(a.address)..end_of(a)).all(|x| read_at(a, x)
        == byte_from(image, x, ranking.source_at(ranks, a, x)))
}

// The first LR and SC that are paired and not atomic.
fn broken_pair(harts: &Harts, ranking: &Ranking) -> Option<(Operation, Operation)>
    requires gives { GivesEach harts.now ranking.now }
    requires distinct { AreDistinctOperations ranking.now }
    ensures { result ≡ first_broken_pair harts.now ranking.now ranking.now }
{
    let mut rest = ranking.order();
    while let [w, tail @ ..] = rest {
        if let Some(r) = first_broken_with(harts, ranking, w) {
            return Some((r, *w));
        }
        rest = tail;
    }
    None
}

// The LR that is paired with this SC and not atomic with it. No other LR is paired with it than the one at the
// place of the last LR or SC before it.
fn first_broken_with(harts: &Harts, ranking: &Ranking, w: &Operation) -> Option<Operation>
    requires gives { GivesEach harts.now ranking.now }
    requires distinct { AreDistinctOperations ranking.now }
    ensures { result
        ≡ find (λ r. scans.is_broken_pair harts.now ranking.now r w.now) ranking.now }
{
    if !is_sc(w.kind) {
        return None;
    }
    let place = pair_place(harts.items_of(w.hart), w);
    let name = OpId {
        hart: w.hart,
        place,
    };
    match ranking.named(name) {
        Some(r) => broken_with(harts, ranking, r, w),
        None => None,
    }
}

// The LR, where it is paired with the SC and not atomic with it.
fn broken_with(harts: &Harts, ranking: &Ranking, r: &Operation, w: &Operation) -> Option<Operation>
    requires { IsIn ranking.now r.now }
    ensures { result
        ≡ (if scans.is_broken_pair harts.now ranking.now r.now w.now then Some r.now else None) }
{
    if is_broken_pair(harts, ranking, r, w) {
        Some(*r)
    } else {
        None
    }
}

// Whether the LR and the SC are paired and not atomic.
fn is_broken_pair(harts: &Harts, ranking: &Ranking, r: &Operation, w: &Operation) -> bool
    requires { IsIn ranking.now r.now }
    ensures { result ≡ scans.is_broken_pair harts.now ranking.now r.now w.now }
{
    reads(r.kind) && are_paired(harts.items_of(r.hart), r, w) && !is_atomic(ranking, r, w)
}

fn is_atomic(ranking: &Ranking, r: &Operation, w: &Operation) -> bool
    requires there { IsIn ranking.now r.now }
    requires reads { operations.reads r.now.kind ≡ true }
    ensures { result ≡ legal.is_atomic ranking.now r.now w.now }
{
    is_atomic_by(ranking, &ranking.ranks_of(r), r, w)
}

// The same by the ranks of the stores that the bytes of the LR come from.
fn is_atomic_by(ranking: &Ranking, ranks: &[usize; 4], r: &Operation, w: &Operation) -> bool
    ensures { result
        ≡ list_all (λ x. scans.is_atomic_behind ranking.now (ranked ranking.now (slice_index_or ranks.now (x - r.now.address) 0)) w.now x) (operations.addresses_of r.now) }
{
    (u64::from(r.address)..end_of(r)).all(|x| is_atomic_behind(
        ranking,
        ranking.source_at(ranks, r, x),
        w,
        x,
    ))
}

// Whether the SC `w` stands behind the source of byte `x`, with no other hart's store to it between.
fn is_atomic_behind(ranking: &Ranking, source: Option<Operation>, w: &Operation, x: u64) -> bool
    ensures { result ≡ scans.is_atomic_behind ranking.now source w.now x }
{
    let mut rest = behind(source, ranking);
    while let [t, tail @ ..] = rest {
        if is_same(t, w) {
            return true;
        }
        if t.hart != w.hart && stores_to(x, t) {
            return false;
        }
        rest = tail;
    }
    false
}

// What stands behind a source; the image stands before everything.
fn behind(source: Option<Operation>, ranking: &Ranking) -> &[Operation]
    ensures { result.now ≡ legal.behind source ranking.now }
{
    match source {
        Some(store) => ranking.behind(name_of(&store)),
        None => ranking.order(),
    }
}
