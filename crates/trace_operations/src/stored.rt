//! A store of an order with its place there, which is read by one call that counts.
ghost use Rattle.std.specs.Prelude.{◌≡◌, ◌+◌};

use memory_model::Operation;
use std::sync::ledger::Ledger;
use tl_types::Ticks;

/// A store of an order and its place there, read by `look` alone.
#[derive(Clone, Copy)]
pub(crate) struct Stored {
    position: usize,
    store: Operation,
}

impl Stored {
    pub(crate) fn new(position: usize, store: Operation) -> Stored
        ensures { result ≡ record { position = position; store = store } }
    {
        Stored { position, store }
    }

    /// Reads the place and the store, which counts.
    pub(crate) fn look<L: Ledger>(&self, ticks: &mut Ticks<L>) -> (usize, Operation)
        ensures stored { result ≡ (self.now.position, self.now.store) }
        ensures tick { ticks.new ≡ ticks.old + 1 }
    {
        ticks.tick();
        (self.position, self.store)
    }
}
