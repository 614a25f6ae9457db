//! A number for each of some names, by hart and by place, found without a walk.
ghost use Rattle.std.specs.Prelude.{◌≡◌, ◌≤◌, ◌<◌, ◌+◌, ◌^◌, ◌==◌, ℕ, None, Some, IfOk, OnOk, if◌then◌else◌, length, slice_index_or};
ghost use Rattle.std.specs.Option.{option_or};
ghost use Rattle.memory_model.specs.Operations as operations;
ghost use Rattle.memory_model.specs.Order as orders;
ghost use Rattle.memory_model.specs.Traces.{is_named};
ghost use Rattle.memory_model.specs.Verdict as verdict;
ghost use Rattle.memory_model.specs.declared.operation.Operation.{Operation as OperationValue};
ghost use Rattle.trace_recorder.specs.declared.operation.OpId.{OpId as Name};
ghost use Rattle.trace_operations.specs.Indexed.{known, number_in, place_from};

use crate::accesses::name_of;
use memory_model::Operation;
use std::alloc::{AllocError, Global};
use trace_recorder::{OpId, Trace};

/// The numbers of names of one hart, by place; 0 where there is none.
#[derive(Drop)]
pub struct Numbers {
    /// Four bytes each, since a hart may have millions of places.
    pub numbers: Vec<u32>,
}

impl Numbers {
    // None yet, and no room for any, since most harts may have none.
    fn none(alloc: Global) -> Numbers
        ensures { (k : ℕ) → slice_index_or result.numbers.items k 0 ≡ 0 }
    {
        Numbers {
            numbers: Vec::new(alloc),
        }
    }

    /// By place, as far as there are any.
    pub fn as_slice(&self) -> &[u32]
        ensures { result.now ≡ self.now.numbers.items }
    {
        &self.numbers
    }

    fn at(&self, place: u32) -> u32
        ensures { result ≡ slice_index_or self.now.numbers.items place 0 }
    {
        match self.numbers.get(place as usize) {
            Some(number) => *number,
            None => 0,
        }
    }

    // Gives a place a number, and the first time makes room for those of a hart's instructions.
    fn put(&mut self, trace: &Trace, hart: usize, place: u32, number: u32) -> Result<(), AllocError>
        ensures { OnOk result ((k : ℕ) → slice_index_or self.new.numbers.items k 0 ≡ (if k == place then number else slice_index_or self.old.numbers.items k 0)) }
    {
        let index = place as usize;
        if index >= self.numbers.len() {
            self.reach(count_in(trace, hart).max(index + 1))?;
        }
        self.numbers[index] = number;
        Ok(())
    }

    // Makes room for so many.
    fn reach(&mut self, count: usize) -> Result<(), AllocError>
        requires { length self.old.numbers.items ≤ count }
        ensures same { OnOk result ((k : ℕ) → slice_index_or self.new.numbers.items k 0 ≡ slice_index_or self.old.numbers.items k 0) }
        ensures long { OnOk result (length self.new.numbers.items ≡ count) }
    {
        self.numbers.resize(count, 0)
    }
}

/// The numbers of names, by hart.
#[derive(Drop)]
pub struct Places {
    /// Those of each hart, as far as any has one.
    pub lists: Vec<Numbers>,
}

impl Places {
    /// None yet.
    pub(crate) fn none(alloc: Global) -> Places
        ensures { (hart place : ℕ) → number_in hart place result ≡ 0 }
    {
        Places {
            lists: Vec::new(alloc),
        }
    }

    /// The lists of the harts that have one.
    pub fn lists(&self) -> &[Numbers]
        ensures { result.now ≡ self.now.lists.items }
    {
        &self.lists
    }

    // The place that was noted of a name, where its number is one more.
    fn place(&self, name: OpId) -> Option<usize>
        ensures { result ≡ known (number_in name.hart name.place self.now) }
    {
        match self.number(name) {
            0 => None,
            number => Some(number as usize - 1),
        }
    }

    /// How many operations of an order stand before the one of a name, where these are the numbers of its places.
    pub fn position(&self, order: &[Operation], name: OpId) -> usize
        requires { (a : OperationValue) → known (number_in a.hart a.place self.now) ≡ place_from 0 a order.now }
        ensures { (a : OperationValue) → verdict.name_of a ≡ name → result ≡ orders.position_in order.now a }
    {
        match self.place(name) {
            Some(position) => position,
            None => order.len(),
        }
    }

    /// The number of a name; 0 where it has none.
    pub(crate) fn number(&self, name: OpId) -> u32
        ensures { result ≡ number_in name.hart name.place self.now }
    {
        match self.lists.get(usize::from(name.hart)) {
            Some(list) => list.at(name.place),
            None => 0,
        }
    }

    /// Gives a name a number. The first one of a hart makes room for those of the trace's instructions.
    pub(crate) fn put(
        &mut self,
        alloc: Global,
        trace: &Trace,
        name: OpId,
        number: u32,
    ) -> Result<(), AllocError>
        ensures { OnOk result ((n : Name) → number_in n.hart n.place self.new ≡ (if is_named n name then number else number_in n.hart n.place self.old)) }
    {
        let hart = usize::from(name.hart);
        self.reach(alloc, hart)?;
        self.lists[hart].put(trace, hart, name.place, number)
    }

    // Gives a hart a list, where it has none.
    fn reach(&mut self, alloc: Global, hart: usize) -> Result<(), AllocError>
        requires { hart < 256 }
        ensures same { OnOk result ((h place : ℕ) → number_in h place self.new ≡ number_in h place self.old) }
        ensures there { OnOk result (hart < length self.new.lists.items) }
    {
        while self.lists.len() <= hart {
            self.lists.push(Numbers::none(alloc))?;
        }
        Ok(())
    }
}

// How many instructions a hart has; none where there is no such hart.
fn count_in(trace: &Trace, hart: usize) -> usize {
    if hart < trace.harts() {
        trace.entries(hart).len()
    } else {
        0
    }
}

/// One more than the place of each operation in an order, the first where there are two of one name.
pub fn places_in(alloc: Global, trace: &Trace, order: &[Operation]) -> Result<Places, AllocError>
    ensures { IfOk result (λ places. (a : OperationValue) → known (number_in a.hart a.place places) ≡ place_from 0 a order.now) }
{
    let mut places = Places::none(alloc);
    for (position, a) in order.iter().enumerate() {
        put_first(alloc, trace, &mut places, position, a)?;
    }
    Ok(places)
}

// Notes the place of an operation where none is noted of its name yet.
fn put_first(
    alloc: Global,
    trace: &Trace,
    places: &mut Places,
    position: usize,
    a: &Operation,
) -> Result<(), AllocError>
    requires { position + 1 < 2 ^ 64 }
    ensures { OnOk result ((b : OperationValue) → known (number_in b.hart b.place places.new)
        ≡ option_or (known (number_in b.hart b.place places.old)) (if operations.same b a.now then Some position else None)) }
{
    if places.number(name_of(a)) > 0 {
        return Ok(());
    }
    let rank = rank_at(position)?;
    places.put(alloc, trace, name_of(a), rank)?;
    Ok(())
}

// One more than a place; where four bytes have no room for it, it is refused as memory is.
fn rank_at(position: usize) -> Result<u32, AllocError>
    ensures { IfOk result (λ rank. rank ≡ position + 1) }
{
    if position >= u32::MAX as usize {
        return Err(AllocError);
    }
    Ok(position as u32 + 1)
}
