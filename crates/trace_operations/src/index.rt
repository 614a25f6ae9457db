//! An order of a trace's operations, with the stores to each byte and the place of each operation found
//! without a walk over the order.
ghost use Rattle.std.specs.Prelude.{◌≡◌, ◌≤◌, ◌+◌, ◌++◌, ℕ, None, [], ◌∷◌, IfOk, OnOk, Some, filter, if◌then◌else◌, length, nat_eq};
ghost use Rattle.std.specs.List.{last_or};
ghost use Rattle.std.specs.Option.{option_map, option_map_or};
ghost use Rattle.std.specs.HashMap as hash;
ghost use Rattle.memory_model.specs.declared.operation.Operation.{Operation as OperationValue};
ghost use Rattle.memory_model.specs.Operations as operations;
ghost use Rattle.memory_model.specs.Order as spec;
ghost use Rattle.memory_model.specs.Traces as traces;
ghost use Rattle.memory_model.specs.Verdict as verdict;
ghost use Rattle.trace_operations.specs.Indexed as indexed;
ghost use Rattle.trace_operations.specs.Indexed.{stored_from};

use crate::accesses::{end_of, name_of, writes};
use crate::items::Harts;
use crate::orders::operations_at;
use crate::places::{Places, places_in};
use crate::stored::Stored;
use memory_model::Operation;
use std::alloc::{AllocError, Global};
use std::collections::HashMap;
use std::marker::Model;
use std::sync::ledger::Ledger;
use tl_types::Ticks;
use trace_recorder::{OpId, Trace};

/// An order of a trace's operations, made for finding the store that a byte comes from.
#[derive(Drop)]
pub struct Index {
    order: Vec<Operation>,
    /// One more than the place of each operation.
    places: Places,
    /// The stores to each byte, in the order's order.
    stores: HashMap<u64, Vec<Stored>>,
}

impl Model for Index {
    ghost use Rattle.std.specs.Prelude.{◌≡◌, ℕ, List, [], nat_eq};
    ghost use Rattle.std.specs.Option.{option_map_or};
    ghost use Rattle.std.specs.HashMap as hash;
    ghost use Rattle.memory_model.specs.declared.operation.Operation.{Operation as OperationValue};
    ghost use Rattle.trace_operations.specs.Indexed.{known, number_in, place_from, stored_from};

    ghost Value = { List OperationValue };

    ghost view = { λ i. i.order.items };

    ghost invariant = { λ i. ((a : OperationValue) → known (number_in a.hart a.place i.places) ≡ place_from 0 a i.order.items)
        × ((x : ℕ) → option_map_or (λ v. v.items) (hash.get nat_eq i.stores x) [] ≡ stored_from 0 x i.order.items) };
}

impl Index {
    /// The operations of these names, in their order; a name that there isn't is passed over. For 4,294,967,296
    /// operations or more there is no memory.
    pub fn new(alloc: Global, trace: &Trace, order: &[OpId]) -> Result<Index, AllocError>
        ensures { IfOk result (λ index. index ≡ traces.operations_at (traces.instructions trace.now.history) order.now) }
    {
        let harts = Harts::of(alloc, trace)?;
        let order = operations_at(alloc, &harts, order)?;
        let places = places_in(alloc, trace, &order)?;
        let stores = stores_in(alloc, &order)?;
        Ok(Index {
            order,
            places,
            stores,
        })
    }

    /// The operations, in their order.
    pub fn order(&self) -> &[Operation]
        ensures { result.now ≡ self.now }
    {
        self.order.as_slice()
    }

    /// The store that a byte of a load comes from; none where it is the image's byte. A load that the
    /// order has not is taken to stand behind all of it. Of the stores to the byte each is looked at once
    /// at most, and no other.
    pub fn source<L: Ledger>(&self, load: OpId, byte: u32, ticks: &mut Ticks<L>) -> Option<OpId>
        ensures source { (a : OperationValue) → verdict.name_of a ≡ load → result ≡ option_map verdict.name_of (spec.source self.now a byte) }
        ensures looks { ticks.new ≤ ticks.old + length (filter (operations.stores_to byte) self.now) }
    {
        let store = self.find(load, u64::from(byte), ticks)?;
        Some(name_of(&store))
    }

    fn find<L: Ledger>(&self, load: OpId, x: u64, ticks: &mut Ticks<L>) -> Option<Operation>
        ensures source { (a : OperationValue) → verdict.name_of a ≡ load → result ≡ spec.source self.now a x }
        ensures looks { ticks.new ≤ ticks.old + length (filter (operations.stores_to x) self.now) }
    {
        let position = self.places.position(&self.order, load);
        match self.stores.get(&x) {
            Some(stores) => store_of(last_seen(stores, position, load, ticks)),
            None => None,
        }
    }
}

// The stores of an order to each byte.
fn stores_in(alloc: Global, order: &[Operation]) -> Result<HashMap<u64, Vec<Stored>>, AllocError>
    ensures { IfOk result (λ stores. (x : ℕ) → option_map_or (λ v. v.items) (hash.get nat_eq stores x) [] ≡ stored_from 0 x order.now) }
{
    let mut stores = HashMap::new(alloc);
    for (position, a) in order.iter().enumerate() {
        if writes(a.kind) {
            push_bytes(&mut stores, position, a)?;
        }
    }
    Ok(stores)
}

// Puts a store behind the others to each of its bytes.
fn push_bytes(
    stores: &mut HashMap<u64, Vec<Stored>>,
    position: usize,
    a: &Operation,
) -> Result<(), AllocError>
    ensures { OnOk result ((x : ℕ) → option_map_or (λ v. v.items) (hash.get nat_eq stores.new x) []
        ≡ option_map_or (λ v. v.items) (hash.get nat_eq stores.old x) [] ++ (if operations.touches x a.now then record { position = position; store = a.now } ∷ [] else [])) }
{
    for x in u64::from(a.address)..end_of(a) {
        stores
            .entry(x)?
            .or_default()
            .push(Stored::new(position, *a))?;
    }
    Ok(())
}

// The last of these stores that stands before the load's place in the order, or precedes it in program
// order.
fn last_seen<L: Ledger>(
    stores: &[Stored],
    position: usize,
    load: OpId,
    ticks: &mut Ticks<L>,
) -> Option<(usize, Operation)>
    ensures seen { result ≡ option_map (λ s. (s.position, s.store)) (last_or None (filter (indexed.is_seen position load) stores.now)) }
    ensures looks { ticks.new ≤ ticks.old + length stores.now }
{
    let mut left = stores.len();
    while left > 0 {
        left -= 1;
        let (place, store) = stores[left].look(ticks);
        if is_seen(position, load, place, &store) {
            return Some((place, store));
        }
    }
    None
}

fn store_of(seen: Option<(usize, Operation)>) -> Option<Operation>
    ensures { result ≡ option_map (λ s. s.1) seen }
{
    match seen {
        Some((_, store)) => Some(store),
        None => None,
    }
}

// Whether a store at this place of the order stands before the load's place there, or precedes it in
// program order.
fn is_seen(position: usize, load: OpId, place: usize, store: &Operation) -> bool
    ensures { result ≡ indexed.is_seen position load (record { position = place; store = store.now }) }
{
    place < position || (store.hart == load.hart && store.place < load.place)
}
