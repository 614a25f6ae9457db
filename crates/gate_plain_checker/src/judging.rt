//! Judging an order of operations by comparing all pairs: each definition as it stands.
ghost use Rattle.std.specs.Prelude.{◌≡◌, ◌==◌, Some, find};
ghost use Rattle.std.specs.List.{list_all};
ghost use Rattle.memory_model.specs.Operations as operations;
ghost use Rattle.memory_model.specs.Order as orders;
ghost use Rattle.elf_loader.specs.Image.{byte_at};
ghost use Rattle.memory_model.specs.Legal as legal;
ghost use Rattle.memory_model.specs.Rules as rules;
ghost use Rattle.rvwmo_order.specs.Rules.{rule_of};
ghost use Rattle.rvwmo_order.specs.Scans as scans;
ghost use Rattle.rvwmo_order.specs.Scans.{all_rules, first_broken_pair, first_broken_rule, judged};

use crate::between::are_paired;
use crate::rules::asks;
use crate::sources::{byte_from, source};
use elf_loader::Image;
use machine_types::MemoryModel;
use memory_model::Operation;
use rvwmo_order::{Code, Rule, Verdict};
use trace_operations::Harts;
use trace_operations::accesses::{end_of, is_same, name_of, precedes, read_at, reads, stores_to};

// All rules, in the order of their numbers.
const RULES: [Rule; 13] = [
    Rule::OverlappingStore,
    Rule::SameByteLoads,
    Rule::AtomicSource,
    Rule::Fence,
    Rule::Acquire,
    Rule::Release,
    Rule::Annotations,
    Rule::Pair,
    Rule::Address,
    Rule::Data,
    Rule::Control,
    Rule::DependentStore,
    Rule::DependentAddress,
];

/// The verdict on an order of the operations of these lists, one a hart.
pub(crate) fn judge(
    model: MemoryModel,
    image: &Image,
    harts: &Harts,
    order: &[Operation],
) -> Verdict
    ensures { result ≡ judged model (byte_at image.now) harts.now order.now }
{
    if let Some((rule, a, b)) = broken_rule(model, harts, order) {
        return Verdict::Fault(Code::Order(rule), name_of(&a), name_of(&b));
    }
    if let Some(load) = wrong_load(image, order) {
        return Verdict::Fault(Code::LoadValue, name_of(&load), name_of(&load));
    }
    if let Some((r, w)) = broken_pair(harts, order) {
        return Verdict::Fault(Code::Atomicity, name_of(&r), name_of(&w));
    }
    Verdict::Legal
}

// Whether the rule says that `a` must come before `b`.
fn is_asked(
    rule: Rule,
    model: MemoryModel,
    harts: &Harts,
    order: &[Operation],
    a: &Operation,
    b: &Operation,
) -> bool
    ensures { result
        ≡ rules.asked_by model harts.now order.now (rule_of rule) a.now b.now }
{
    precedes(a, b) && asks(rule, model, harts.items_of(a.hart), order, a, b)
}

// The first rule by which an operation must come before one that stands before it, with the two.
fn broken_rule(
    model: MemoryModel,
    harts: &Harts,
    order: &[Operation],
) -> Option<(Rule, Operation, Operation)>
    ensures { result ≡ first_broken_rule model harts.now order.now all_rules }
{
    let mut left = RULES.as_slice();
    while let [rule, rest @ ..] = left {
        if let Some((a, b)) = first_out_of_order(*rule, model, harts, order) {
            return Some((*rule, a, b));
        }
        left = rest;
    }
    None
}

// Two operations of which the one behind must come first by this rule.
fn first_out_of_order(
    rule: Rule,
    model: MemoryModel,
    harts: &Harts,
    order: &[Operation],
) -> Option<(Operation, Operation)>
    ensures { result
        ≡ scans.first_out_of_order (rules.asked_by model harts.now order.now (rule_of rule)) order.now }
{
    let mut rest = order;
    while let [b, behind @ ..] = rest {
        if let Some(a) = first_asked(rule, model, harts, order, behind, b) {
            return Some((a, *b));
        }
        rest = behind;
    }
    None
}

// The first of the operations behind `b` that must come before it.
fn first_asked(
    rule: Rule,
    model: MemoryModel,
    harts: &Harts,
    order: &[Operation],
    behind: &[Operation],
    b: &Operation,
) -> Option<Operation>
    ensures { result
        ≡ find (λ a. rules.asked_by model harts.now order.now (rule_of rule) a b.now) behind.now }
{
    let mut rest = behind;
    while let [a, tail @ ..] = rest {
        if is_asked(rule, model, harts, order, a, b) {
            return Some(*a);
        }
        rest = tail;
    }
    None
}

// The first load that returns another byte than its source's.
fn wrong_load(image: &Image, order: &[Operation]) -> Option<Operation>
    ensures { result ≡ scans.wrong_load (byte_at image.now) order.now }
{
    let mut rest = order;
    while let [a, tail @ ..] = rest {
        if !returns_sources(image, order, a) {
            return Some(*a);
        }
        rest = tail;
    }
    None
}

fn returns_sources(image: &Image, order: &[Operation], a: &Operation) -> bool
    ensures { result ≡ legal.returns_sources (byte_at image.now) order.now a.now }
{
    !reads(a.kind) || has_source_bytes(image, order, a)
}

fn has_source_bytes(image: &Image, order: &[Operation], a: &Operation) -> bool
    ensures { result
        ≡ list_all (λ x. operations.read_at a.now x == orders.byte_from (byte_at image.now) x (orders.source order.now a.now x)) (operations.addresses_of a.now) }
{
    (u64::from(a.address)..end_of(a)).all(|x| read_at(a, x)
        == byte_from(image, x, source(order, a, x)))
}

// The first LR and SC that are paired and not atomic.
fn broken_pair(harts: &Harts, order: &[Operation]) -> Option<(Operation, Operation)>
    ensures { result ≡ first_broken_pair harts.now order.now order.now }
{
    let mut rest = order;
    while let [w, tail @ ..] = rest {
        if let Some(r) = first_broken_with(harts, order, w) {
            return Some((r, *w));
        }
        rest = tail;
    }
    None
}

// The first LR that is paired with this SC and not atomic with it.
fn first_broken_with(harts: &Harts, order: &[Operation], w: &Operation) -> Option<Operation>
    ensures { result
        ≡ find (λ r. scans.is_broken_pair harts.now order.now r w.now) order.now }
{
    let mut rest = order;
    while let [r, tail @ ..] = rest {
        if is_broken_pair(harts, order, r, w) {
            return Some(*r);
        }
        rest = tail;
    }
    None
}

// Whether the LR and the SC are paired and not atomic.
fn is_broken_pair(harts: &Harts, order: &[Operation], r: &Operation, w: &Operation) -> bool
    ensures { result ≡ scans.is_broken_pair harts.now order.now r.now w.now }
{
    are_paired(harts.items_of(r.hart), r, w) && !is_atomic(order, r, w)
}

fn is_atomic(order: &[Operation], r: &Operation, w: &Operation) -> bool
    ensures { result ≡ legal.is_atomic order.now r.now w.now }
{
    (u64::from(r.address)..end_of(r)).all(|x| is_atomic_at(order, r, w, x))
}

// Whether the SC `w` stands behind the source of byte `x` of the LR `r`, with no other hart's store to it
// between.
fn is_atomic_at(order: &[Operation], r: &Operation, w: &Operation, x: u64) -> bool
    ensures { result ≡ legal.is_atomic_at order.now r.now w.now x }
{
    let mut rest = behind(source(order, r, x), order);
    while let [t, tail @ ..] = rest {
        if is_same(t, w) {
            return true;
        }
        if t.hart != w.hart && stores_to(x, t) {
            return false;
        }
        rest = tail;
    }
    false
}

// What stands behind a source; the image stands before everything.
fn behind(source: Option<Operation>, order: &[Operation]) -> &[Operation]
    ensures { result.now ≡ legal.behind source order.now }
{
    match source {
        Some(store) => behind_store(&store, order),
        None => order,
    }
}

fn behind_store<'a>(store: &Operation, order: &'a [Operation]) -> &'a [Operation]
    ensures { result.now ≡ legal.behind (Some store.now) order.now }
{
    let mut rest = order;
    while let [t, tail @ ..] = rest {
        if is_same(store, t) {
            return tail;
        }
        rest = tail;
    }
    rest
}
