//! A store that a byte of a load may come from, which is read by one call that counts.
ghost use Rattle.std.specs.Prelude.{◌≡◌, ◌+◌, ◌==◌, max};
ghost use Rattle.rvwmo_order.specs.Looks.{looked, looks_at};

use std::sync::ledger::Ledger;
use tl_types::Ticks;

/// A store by its rank in an order, read by `look` alone; none of rank 0.
#[derive(Clone, Copy)]
pub(crate) struct Candidate {
    rank: usize,
}

impl Candidate {
    pub(crate) fn new(rank: usize) -> Candidate
        ensures { result ≡ record { rank = rank } }
    {
        Candidate { rank }
    }

    // Whether both are one store, or none.
    fn is(self, other: Candidate) -> bool
        ensures { result ≡ (self.rank == other.rank) }
    {
        self.rank == other.rank
    }

    // Reads the rank, which counts where there is a store.
    fn look<L: Ledger>(self, ticks: &mut Ticks<L>) -> usize
        ensures rank { result ≡ self.rank }
        ensures tick { ticks.new ≡ ticks.old + looked self.rank }
    {
        if self.rank > 0 {
            ticks.tick();
        }
        self.rank
    }
}

/// The rank of the one that stands further behind. Each store is looked at once.
pub(crate) fn last_of<L: Ledger>(before: Candidate, own: Candidate, ticks: &mut Ticks<L>) -> usize
    ensures rank { result ≡ max before.rank own.rank }
    ensures looks { ticks.new ≡ ticks.old + looks_at before.rank own.rank }
{
    let rank = before.look(ticks);
    if own.is(before) {
        return rank;
    }
    rank.max(own.look(ticks))
}
