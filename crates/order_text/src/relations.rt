//! An order of a trace's operations, with the place of each found without a walk over the order.
ghost use Rattle.std.specs.Prelude.{◌≡◌, ◌&&◌, ◌||◌, IfOk, Some, filter, find, nat_lt, take};
ghost use Rattle.std.specs.Option.{option_copied};
ghost use Rattle.memory_model.specs.declared.operation.Operation.{Operation as OperationValue};
ghost use Rattle.memory_model.specs.Legal as legal;
ghost use Rattle.memory_model.specs.Operations as operations;
ghost use Rattle.memory_model.specs.Order as spec;
ghost use Rattle.memory_model.specs.Verdict as verdict;
ghost use Rattle.rvwmo_order.specs.Ranks.{HasRank, ranked};
ghost use Rattle.order_text.specs.Links as links;

use memory_model::Operation;
use rvwmo_order::trace_operations::accesses::{is_same, name_of, precedes, stores_to};
use rvwmo_order::trace_operations::{Places, places_in};
use std::alloc::{AllocError, Global};
use std::marker::Model;
use trace_recorder::{OpId, Trace};

/// An order of a trace's operations, with the place of each.
#[derive(Drop)]
pub(crate) struct Relations {
    order: Vec<Operation>,
    /// One more than the place of each operation.
    places: Places,
}

impl Model for Relations {
    ghost use Rattle.std.specs.Prelude.{◌≡◌, List};
    ghost use Rattle.memory_model.specs.declared.operation.Operation.{Operation as OperationValue};
    ghost use Rattle.rvwmo_order.specs.Indexed.{known, number_in, place_from};

    ghost Value = { List OperationValue };

    ghost view = { λ i. i.order.items };

    ghost invariant = { λ i. (a : OperationValue) → known (number_in a.hart a.place i.places) ≡ place_from 0 a i.order.items };
}

impl Relations {
    /// Those of an order.
    pub(crate) fn of(
        alloc: Global,
        trace: &Trace,
        order: Vec<Operation>,
    ) -> Result<Relations, AllocError>
        ensures { IfOk result (λ relations. relations ≡ order.items) }
    {
        let places = places_in(alloc, trace, &order)?;
        Ok(Relations { order, places })
    }

    /// The operations, in their order.
    pub(crate) fn order(&self) -> &[Operation]
        ensures { result.now ≡ self.now }
    {
        self.order.as_slice()
    }

    /// How many operations stand before one.
    pub(crate) fn position_of(&self, a: &Operation) -> usize
        ensures { result ≡ spec.position_in self.now a.now }
    {
        self.position(name_of(a))
    }

    // How many operations stand before the one of this name.
    fn position(&self, name: OpId) -> usize
        ensures { (a : OperationValue) → verdict.name_of a ≡ name → result ≡ spec.position_in self.now a }
    {
        self.places.position(&self.order, name)
    }

    /// The store that byte `x` of a load comes from.
    pub(crate) fn source(&self, load: &Operation, x: u64) -> Option<Operation>
        ensures { result ≡ spec.source self.now load.now x }
    {
        self.ranked(self.source_rank(load, x)).copied()
    }

    // The operation of a rank, one more than its place; none of 0.
    fn ranked(&self, rank: usize) -> Option<&Operation>
        ensures { option_copied result ≡ ranked self.now rank }
    {
        if rank == 0 {
            None
        } else {
            self.order.get(rank - 1)
        }
    }

    // The rank of that store, found by a walk over the order.
    fn source_rank(&self, load: &Operation, x: u64) -> usize
        ensures { HasRank self.now (spec.source self.now load.now x) result }
    {
        let position = self.position_of(load);
        let mut rank = 0;
        for (place, store) in self.order.iter().enumerate() {
            if may_see(position, load, x, place, store) {
                rank = place + 1;
            }
        }
        rank
    }

    /// The last store to a byte that stands before an operation.
    pub(crate) fn overwritten(&self, a: &Operation, x: u64) -> Option<Operation>
        ensures { result ≡ links.overwritten self.now a.now x }
    {
        last_store(self.before(a), x)
    }

    // What stands before an operation.
    fn before(&self, a: &Operation) -> &[Operation]
        ensures { result.now ≡ take (spec.position_in self.now a.now) self.now }
    {
        first_of(self.order(), self.position_of(a))
    }

    /// The first store to a byte, but for the operation itself, behind the one that it has the byte from.
    pub(crate) fn overwriter(&self, a: &Operation, x: u64) -> Option<Operation>
        ensures { result ≡ links.overwriter self.now a.now x }
    {
        first_store(self.behind(self.source(a, x)), a, x)
    }

    // What stands behind a store, or behind the image.
    fn behind(&self, store: Option<Operation>) -> &[Operation]
        ensures { result.now ≡ legal.behind store self.now }
    {
        match store {
            Some(store) => self.behind_of(&store),
            None => self.order(),
        }
    }

    fn behind_of(&self, store: &Operation) -> &[Operation]
        ensures { result.now ≡ legal.behind (Some store.now) self.now }
    {
        let position = self.position_of(store);
        if position < self.order().len() {
            &self.order()[position + 1..]
        } else {
            &[]
        }
    }
}

// Whether a store at this place of the order is one to `x` that stands before the load's place there, or
// precedes it in program order.
fn may_see(position: usize, load: &Operation, x: u64, place: usize, store: &Operation) -> bool
    ensures { result ≡ (operations.stores_to x store.now && (nat_lt place position || operations.precedes store.now load.now)) }
{
    stores_to(x, store) && (place < position || precedes(store, load))
}

// The first so many of these operations.
fn first_of(order: &[Operation], count: usize) -> &[Operation]
    ensures { result.now ≡ take count order.now }
{
    if count <= order.len() {
        &order[..count]
    } else {
        order
    }
}

// The last of these operations that stores to a byte.
fn last_store(order: &[Operation], x: u64) -> Option<Operation>
    ensures { result ≡ spec.last_of (filter (operations.stores_to x) order.now) }
{
    let mut found = None;
    let mut rest = order;
    while let [store, tail @ ..] = rest {
        if stores_to(x, store) {
            found = Some(*store);
        }
        rest = tail;
    }
    found
}

// The first of these operations, but for `a`, that stores to a byte.
fn first_store(order: &[Operation], a: &Operation, x: u64) -> Option<Operation>
    ensures { result ≡ find (links.is_other_store x a.now) order.now }
{
    let mut rest = order;
    while let [store, tail @ ..] = rest {
        if stores_to(x, store) && !is_same(store, a) {
            return Some(*store);
        }
        rest = tail;
    }
    None
}
