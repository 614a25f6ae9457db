//! What one worker has added to the journal of a fabric.

ghost use Rattle.std.specs.Prelude.{◌≡◌, ◌+◌, ◌^◌, ◌<◌};

use std::marker::Model;
use std::sync::ledger;
use std::sync::ledger::{Book, Ledger};

/// How many events of a journal count for one worker. It belongs to the fabric that it was made with, by
/// its ledger, and what all shares of a fabric count adds up to the journal's length.
#[derive(Drop)]
pub struct Share<L: Ledger> {
    pub(crate) part: ledger::Share<L>,
    pub(crate) count: u64,
}

impl<L: Ledger> Model for Share<L> {
    ghost use Rattle.std.specs.Prelude.{◌≡◌, ℕ};

    ghost Value = { ℕ };

    ghost view = { λ s. s.count };

    ghost invariant = { λ s. (s.part.parts ≡ 1) × (s.part.amount ≡ s.count) };
}

impl<L: Ledger> Share<L> {
    /// A share that counts nothing yet, of one part of the ledger.
    pub(crate) fn new(part: ledger::Share<L>) -> Share<L>
        requires { (part.parts ≡ 1) × (part.amount ≡ 0) }
        ensures { result ≡ 0 }
    {
        Share { part, count: 0 }
    }

    /// How many events count in it.
    pub fn count(&self) -> u64
        ensures { result ≡ self.now }
    {
        self.count
    }

    // Gives its part of the ledger back, and tells how many events count in it.
    pub(crate) fn merge_into(self, rest: &mut ledger::Share<L>) -> u64
        ensures count { result ≡ self }
        ensures parts { rest.new.parts ≡ rest.old.parts + 1 }
        ensures amount { rest.new.amount ≡ rest.old.amount + self }
    {
        let Share { part, count } = self;
        rest.merge(part);
        count
    }

    // One event more, which counts in the book too.
    pub(crate) fn add(&mut self, book: &mut Book<L>)
        requires { book.old.total + 1 < 2 ^ 64 }
        ensures share { self.new ≡ self.old + 1 }
        ensures book { book.new.total ≡ book.old.total + 1 }
    {
        let Share { part, count } = self;
        book.audit(part);
        book.add(part, 1);
        *count += 1;
    }
}
