//! The rules of preserved program order by which one operation of a hart must be performed before a later one (chapter 14.1,
//! "Preserved Program Order"). `items` is the list of their hart.
ghost use Rattle.std.specs.Prelude.{◌≡◌, ◌||◌, IfOk};
ghost use Rattle.std.specs.List.{list_any};
ghost use Rattle.memory_model.specs.Dependencies as dependencies;
ghost use Rattle.memory_model.specs.Dependencies.{between};
ghost use Rattle.memory_model.specs.Operations.{addresses_of};
ghost use Rattle.memory_model.specs.Order as orders;
ghost use Rattle.memory_model.specs.Rules as spec;
ghost use Rattle.order_text.specs.Between.{IsBetween};
ghost use Rattle.order_text.specs.Neighbours as neighbours;

use crate::between::{Between, instr_at};
use crate::relations::Relations;
use machine_types::MemoryModel;
use memory_model::Operation;
use rvwmo_order::Rule;
use rvwmo_order::trace_operations::Items;
use rvwmo_order::trace_operations::accesses::{
    end_of, has_acquire, has_rcsc, has_release, is_amo, is_lr, is_same, is_sc, overlap, precedes,
    reads, stores_to, touches, writes,
};
use std::alloc::{AllocError, Global};

/// All rules, in the order of their numbers.
const RULES: [Rule; 13] = [
    Rule::OverlappingStore,
    Rule::SameByteLoads,
    Rule::AtomicSource,
    Rule::Fence,
    Rule::Acquire,
    Rule::Release,
    Rule::Annotations,
    Rule::Pair,
    Rule::Address,
    Rule::Data,
    Rule::Control,
    Rule::DependentStore,
    Rule::DependentAddress,
];

/// The rules by which `a` must be performed before `b`, which it precedes in program order.
pub(crate) fn rules_between(
    alloc: Global,
    model: MemoryModel,
    items: &Items,
    relations: &Relations,
    a: &Operation,
    b: &Operation,
) -> Result<Vec<Rule>, AllocError>
    ensures { IfOk result (λ rules. rules.items ≡ neighbours.rules_between model items.now relations.now a.now b.now) }
{
    let between = Between::of(items, a, b);
    let mut rules = Vec::new(alloc);
    let mut left = RULES.as_slice();
    while let [rule, rest @ ..] = left {
        if is_asked(*rule, model, items, relations, &between, a, b) {
            rules.push(*rule)?;
        }
        left = rest;
    }
    Ok(rules)
}

// Whether a rule holds of two operations, between which stands this.
#[tactic(auto, unfolding(crate::specs::Neighbours::is_asked))]
fn is_asked(
    rule: Rule,
    model: MemoryModel,
    items: &Items,
    relations: &Relations,
    between: &Between,
    a: &Operation,
    b: &Operation,
) -> bool
    requires { IsBetween items.now a.now b.now between.now }
    ensures { result ≡ neighbours.is_asked model items.now relations.now a.now b.now rule }
{
    match rule {
        Rule::OverlappingStore => writes(b.kind) && overlap(a, b),
        Rule::SameByteLoads => {
            reads(a.kind) && reads(b.kind) && are_from_different_writes(items, relations, a, b)
        }
        Rule::AtomicSource => {
            (is_amo(a.kind) || is_sc(a.kind)) && reads(b.kind) && returns_from(relations, b, a)
        }
        Rule::Fence => between.is_fenced,
        Rule::Acquire => has_acquire(model, a),
        Rule::Release => has_release(model, b),
        Rule::Annotations => has_rcsc(model, a) && has_rcsc(model, b),
        Rule::Pair => precedes(a, b) && is_lr(a.kind) && is_sc(b.kind) && !between.is_reserved,
        Rule::Address => precedes(a, b) && between.is_address(&instr_at(items, b)),
        Rule::Data => precedes(a, b) && between.is_stored(&instr_at(items, b)),
        Rule::Control => writes(b.kind) && precedes(a, b) && between.is_steered,
        Rule::DependentStore => reads(b.kind) && is_passed_on(items, relations, a, b),
        Rule::DependentAddress => writes(b.kind) && precedes(a, b) && between.is_addressed,
    }
}

// Rule 2: whether they return a byte from different writes, with no store to it between.
fn are_from_different_writes(
    items: &Items,
    relations: &Relations,
    a: &Operation,
    b: &Operation,
) -> bool
    ensures { result ≡ list_any (spec.are_from_different_writes items.now relations.now a.now b.now) (addresses_of a.now) }
{
    (u64::from(a.address)..end_of(a)).any(|x| is_from_different_writes(items, relations, a, b, x))
}

fn is_from_different_writes(
    items: &Items,
    relations: &Relations,
    a: &Operation,
    b: &Operation,
    x: u64,
) -> bool
    ensures { result ≡ spec.are_from_different_writes items.now relations.now a.now b.now x }
{
    touches(x, b)
        && !has_store_between(items, a, b, x)
        && !is_same_source(relations.source(a, x), relations.source(b, x))
}

fn has_store_between(items: &Items, a: &Operation, b: &Operation, x: u64) -> bool
    ensures { result ≡ list_any (λ m. spec.has_store_to x m.operation) (between items.now a.now b.now) }
{
    let mut rest = items.between(a, b);
    while let Some((item, tail)) = rest.split_first() {
        if has_store_to(x, item.operation()) {
            return true;
        }
        rest = tail;
    }
    false
}

fn has_store_to(x: u64, operation: Option<Operation>) -> bool
    ensures { result ≡ spec.has_store_to x operation }
{
    match operation {
        Some(store) => stores_to(x, &store),
        None => false,
    }
}

fn is_same_source(a: Option<Operation>, b: Option<Operation>) -> bool
    ensures { result ≡ orders.same_source a b }
{
    match (a, b) {
        (None, None) => true,
        (Some(a), Some(b)) => is_same(&a, &b),
        _ => false,
    }
}

// Whether a byte of `b` comes from `a`.
fn returns_from(relations: &Relations, b: &Operation, a: &Operation) -> bool
    ensures { result ≡ spec.returns_from relations.now b.now a.now }
{
    (u64::from(b.address)..end_of(b)).any(|x| is_same_source(relations.source(b, x), Some(*a)))
}

// Rule 12: whether `b` returns what a store between them wrote, which depends on `a`.
fn is_passed_on(items: &Items, relations: &Relations, a: &Operation, b: &Operation) -> bool
    ensures { result ≡ list_any (λ m. spec.passes_on items.now relations.now a.now b.now m.operation) (between items.now a.now b.now) }
{
    let mut rest = items.between(a, b);
    while let Some((item, tail)) = rest.split_first() {
        if passes_on(items, relations, a, b, item.operation()) {
            return true;
        }
        rest = tail;
    }
    false
}

fn passes_on(
    items: &Items,
    relations: &Relations,
    a: &Operation,
    b: &Operation,
    operation: Option<Operation>,
) -> bool
    ensures { result ≡ spec.passes_on items.now relations.now a.now b.now operation }
{
    match operation {
        Some(store) => {
            writes(store.kind) && depends(items, a, &store) && returns_from(relations, b, &store)
        }
        None => false,
    }
}

// Whether a store has an address or a data dependency on `a`.
fn depends(items: &Items, a: &Operation, store: &Operation) -> bool
    ensures { result ≡ (dependencies.has_address_dependency items.now a.now store.now || dependencies.has_data_dependency items.now a.now store.now) }
{
    let between = Between::of(items, a, store);
    let instr = instr_at(items, store);
    precedes(a, store) && (between.is_address(&instr) || between.is_stored(&instr))
}
