//! The rules of preserved program order (chapter 14.1, "Preserved Program Order"): those that ask which store
//! a load returns by walks over the order, those that ask for a dependency by a walk over the instructions
//! between the two.
ghost use Rattle.std.specs.Prelude.{◌≡◌, ◌&&◌, ◌||◌};
ghost use Rattle.std.specs.List.{list_any};
ghost use Rattle.memory_model.specs.Rules as spec;
ghost use Rattle.memory_model.specs.Dependencies as dependencies;
ghost use Rattle.memory_model.specs.Dependencies.{between};
ghost use Rattle.memory_model.specs.Operations as operations;
ghost use Rattle.memory_model.specs.Operations.{addresses_of};
ghost use Rattle.rvwmo_order.specs.Scans as scans;
ghost use Rattle.rvwmo_order.specs.Rules.{rule_of};

use crate::between::{are_paired, has_store_between, is_fenced};
use crate::dependencies::{
    has_address_dependency, has_control_dependency, has_data_dependency,
    has_dependent_address_between,
};
use crate::sources::{is_same_source, returns_from, source};
use machine_types::MemoryModel;
use memory_model::Operation;
use rvwmo_order::Rule;
use trace_operations::Items;
use trace_operations::accesses::{
    end_of, has_acquire, has_rcsc, has_release, is_amo, is_sc, overlap, reads, touches, writes,
};

/// Whether the rule holds of two operations, of which the first precedes the second in program order.
pub(crate) fn asks(
    rule: Rule,
    model: MemoryModel,
    items: &Items,
    order: &[Operation],
    a: &Operation,
    b: &Operation,
) -> bool
    ensures { result ≡ (rule_of rule).asks model items.now order.now a.now b.now }
{
    match rule {
        Rule::OverlappingStore => writes(b.kind) && overlap(a, b),
        Rule::SameByteLoads => are_same_byte_loads(items, order, a, b),
        Rule::AtomicSource => {
            (is_amo(a.kind) || is_sc(a.kind)) && reads(b.kind) && returns_from(order, b, a)
        }
        Rule::Fence => is_fenced(items, a, b),
        Rule::Acquire => has_acquire(model, a),
        Rule::Release => has_release(model, b),
        Rule::Annotations => has_rcsc(model, a) && has_rcsc(model, b),
        Rule::Pair => are_paired(items, a, b),
        Rule::Address => has_address_dependency(items, a, b),
        Rule::Data => has_data_dependency(items, a, b),
        Rule::Control => writes(b.kind) && has_control_dependency(items, a, b),
        Rule::DependentStore => returns_from_dependent(items, order, a, b),
        Rule::DependentAddress => writes(b.kind) && has_dependent_address_between(items, a, b),
    }
}

// Rule 2: both are loads and return a byte of both from different writes, with no store to it between.
fn are_same_byte_loads(items: &Items, order: &[Operation], a: &Operation, b: &Operation) -> bool
    ensures { result ≡ spec.rule_2 items.now order.now a.now b.now }
{
    reads(a.kind) && reads(b.kind) && return_differently(items, order, a, b)
}

fn return_differently(items: &Items, order: &[Operation], a: &Operation, b: &Operation) -> bool
    ensures { result ≡ list_any (λ x. scans.returns_differently x items.now order.now a.now b.now) (addresses_of a.now) }
{
    (u64::from(a.address)..end_of(a)).any(|x| returns_differently(x, items, order, a, b))
}

fn returns_differently(
    x: u64,
    items: &Items,
    order: &[Operation],
    a: &Operation,
    b: &Operation,
) -> bool
    ensures { result ≡ scans.returns_differently x items.now order.now a.now b.now }
{
    touches(x, b)
        && !has_store_between(items, a, b, x)
        && !is_same_source(source(order, a, x), source(order, b, x))
}

// Rule 12: a store between them depends on `a`, and the load `b` returns a value that it wrote.
fn returns_from_dependent(items: &Items, order: &[Operation], a: &Operation, b: &Operation) -> bool
    ensures { result ≡ spec.rule_12 items.now order.now a.now b.now }
{
    reads(b.kind) && returns_from_between(items, order, a, b)
}

fn returns_from_between(items: &Items, order: &[Operation], a: &Operation, b: &Operation) -> bool
    ensures { result
        ≡ list_any (λ m. spec.passes_on items.now order.now a.now b.now m.operation) (between items.now a.now b.now) }
{
    let mut rest = items.between(a, b);
    while let Some((item, tail)) = rest.split_first() {
        if is_returned(items, order, a, b, item.operation()) {
            return true;
        }
        rest = tail;
    }
    false
}

// Whether it is a store whose address or number depends on `a`, and `b` returns a value that it wrote.
fn is_returned(
    items: &Items,
    order: &[Operation],
    a: &Operation,
    b: &Operation,
    operation: Option<Operation>,
) -> bool
    ensures { result
        ≡ spec.passes_on items.now order.now a.now b.now operation }
{
    match operation {
        Some(store) => is_dependent_store(items, a, &store) && returns_from(order, b, &store),
        None => false,
    }
}

// Whether it is a store whose address or number depends on `a`.
fn is_dependent_store(items: &Items, a: &Operation, store: &Operation) -> bool
    ensures { result ≡ (operations.writes store.now.kind && (dependencies.has_address_dependency items.now a.now store.now || dependencies.has_data_dependency items.now a.now store.now)) }
{
    writes(store.kind)
        && (has_address_dependency(items, a, store) || has_data_dependency(items, a, store))
}
