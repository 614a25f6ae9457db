//! An order of a trace's operations, with the place of each and the stores that its loads' bytes come from found
//! without a walk over the order.
ghost use Rattle.std.specs.Prelude.{◌≡◌, ◌≤◌, ◌-◌, ◌+◌, ◌<◌, IfOk, Some, length, slice_get, slice_index_or, true};
ghost use Rattle.std.specs.Option.{option_copied};
ghost use Rattle.memory_model.specs.declared.operation.Operation.{Operation as OperationValue};
ghost use Rattle.memory_model.specs.Legal as legal;
ghost use Rattle.memory_model.specs.Operations as operations;
ghost use Rattle.memory_model.specs.Order as spec;
ghost use Rattle.memory_model.specs.Verdict as verdict;
ghost use Rattle.rvwmo_order.specs.Looks.{most_looks};
ghost use Rattle.rvwmo_order.specs.Ranks.{AreDistinctOperations, AreIn, AreSmall, GivesRanks, IsIn, ranked};

use crate::sourcing::sources_in;
use memory_model::Operation;
use memory_model::trace_recorder::{OpId, Trace};
use std::alloc::{AllocError, Global};
use std::marker::Model;
use std::sync::ledger::Ledger;
use tl_types::Ticks;
use trace_operations::accesses::name_of;
use trace_operations::{Places, places_in};

/// An order of a trace's operations, made for judging it.
#[derive(Drop)]
pub(crate) struct Ranking {
    order: Vec<Operation>,
    /// One more than the place of each operation.
    places: Places,
    /// The ranks of the stores that the bytes of each load come from, at the load's place; 0 stands for no
    /// store. They are found once, since a judge asks for them many times.
    sources: Vec<[usize; 4]>,
}

impl Model for Ranking {
    ghost use Rattle.std.specs.Prelude.{◌≡◌, List};
    ghost use Rattle.memory_model.specs.declared.operation.Operation.{Operation as OperationValue};
    ghost use Rattle.trace_operations.specs.Indexed.{known, number_in, place_from};
    ghost use Rattle.rvwmo_order.specs.Ranks.{AreDistinctOperations, GivesSources};

    ghost Value = { List OperationValue };

    ghost view = { λ i. i.order.items };

    ghost invariant = { λ i. ((a : OperationValue) → known (number_in a.hart a.place i.places) ≡ place_from 0 a i.order.items)
        × AreDistinctOperations i.order.items × GivesSources i.order.items i.sources.items };
}

impl Ranking {
    /// The ranking of an order. For each byte of each load no more stores are looked at than the order has
    /// stores to that byte.
    pub(crate) fn of<L: Ledger>(
        alloc: Global,
        trace: &Trace,
        order: Vec<Operation>,
        ticks: &mut Ticks<L>,
    ) -> Result<Ranking, AllocError>
        requires distinct { AreDistinctOperations order.items }
        requires small { AreSmall order.items }
        ensures order { IfOk result (λ ranking. ranking ≡ order.items) }
        ensures looks { ticks.new ≤ ticks.old + most_looks order.items }
    {
        let places = places_in(alloc, trace, &order)?;
        let sources = sources_in(alloc, &order, &places, ticks)?;
        Ok(Ranking {
            order,
            places,
            sources,
        })
    }

    /// The operations, in their order.
    pub(crate) fn order(&self) -> &[Operation]
        ensures order { result.now ≡ self.now }
        ensures each { AreIn self.now self.now }
    {
        self.order.as_slice()
    }

    /// The operation of this name, where there is one.
    pub(crate) fn named(&self, name: OpId) -> Option<&Operation>
        ensures { (a : OperationValue) → verdict.name_of a ≡ name → option_copied result ≡ slice_get self.now (spec.position_in self.now a) }
    {
        self.order.get(self.position(name))
    }

    /// What stands behind an operation of this name; nothing where there is none.
    pub(crate) fn behind(&self, name: OpId) -> &[Operation]
        ensures { (a : OperationValue) → verdict.name_of a ≡ name → result.now ≡ legal.behind (Some a) self.now }
    {
        let position = self.position(name);
        if position < self.order().len() {
            &self.order()[position + 1..]
        } else {
            &[]
        }
    }

    /// The ranks of the stores that the bytes of a load come from.
    pub(crate) fn ranks_of(&self, load: &Operation) -> [usize; 4]
        requires there { IsIn self.now load.now }
        requires reads { operations.reads load.now.kind ≡ true }
        ensures { GivesRanks self.now load.now result }
    {
        self.ranks_at(self.position_of(load))
    }

    /// Those of the load that stands at this place.
    pub(crate) fn ranks_at(&self, position: usize) -> [usize; 4]
        requires { position < length self.now }
        ensures { (load : OperationValue) → slice_get self.now position ≡ Some load → operations.reads load.kind ≡ true → GivesRanks self.now load result }
    {
        self.sources[position]
    }

    /// The store that byte `x` of a load comes from, by the ranks of its bytes' stores.
    pub(crate) fn source_at(
        &self,
        ranks: &[usize; 4],
        load: &Operation,
        x: u64,
    ) -> Option<Operation>
        ensures { result ≡ ranked self.now (slice_index_or ranks.now (x - load.now.address) 0) }
    {
        self.ranked(rank_at(ranks, load, x)).copied()
    }

    /// The operation of a rank; none of 0.
    pub(crate) fn ranked(&self, rank: usize) -> Option<&Operation>
        ensures { option_copied result ≡ ranked self.now rank }
    {
        if rank == 0 {
            None
        } else {
            self.order.get(rank - 1)
        }
    }

    /// How many operations stand before one.
    pub(crate) fn position_of(&self, a: &Operation) -> usize
        ensures { result ≡ spec.position_in self.now a.now }
    {
        self.position(name_of(a))
    }

    // How many operations stand before the one of this name.
    fn position(&self, name: OpId) -> usize
        ensures { (a : OperationValue) → verdict.name_of a ≡ name → result ≡ spec.position_in self.now a }
    {
        self.places.position(&self.order, name)
    }
}

/// The rank of the store that byte `x` of a load comes from, of those of its bytes.
pub(crate) fn rank_at(ranks: &[usize; 4], load: &Operation, x: u64) -> usize
    ensures { result ≡ slice_index_or ranks.now (x - load.now.address) 0 }
{
    let offset = x.saturating_sub(u64::from(load.address));
    match ranks.get(offset as usize) {
        Some(rank) => *rank,
        None => 0,
    }
}
