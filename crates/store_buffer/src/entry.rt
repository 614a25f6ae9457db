//! Stores, and what those of a hart to one word leave.
ghost use Rattle.std.specs.Prelude.{◌≡◌, [], IfOk, OnOk, OnErr};
ghost use Rattle.store_buffer.specs.Entry.{blank_entry, joined};

use crate::{ByteMask, Ops};
use std::alloc::{AllocError, Global};
use std::default::MadeWith;

/// A retired store to bytes of one aligned word.
#[derive(Clone, Copy, Debug, PartialEq, Eq, Hash)]
pub struct Store {
    /// The word's address, a multiple of 4.
    pub word: u32,
    /// The bytes that it writes.
    pub mask: ByteMask,
    /// The bytes by their places in the word; only those that are marked count.
    pub value: [u8; 4],
    /// The store's place in its hart's list of retired instructions.
    pub op: u32,
}

/// The stores to one aligned word that wait together.
#[derive(Clone, Debug, Drop)]
pub struct Entry {
    /// The word's address, a multiple of 4.
    pub word: u32,
    /// The bytes that the stores wrote.
    pub mask: ByteMask,
    /// For each marked byte what the last store to it wrote; 0 for any other.
    pub bytes: [u8; 4],
    /// The stores' places in their hart's list, in program order.
    pub ops: Ops,
}

impl Entry {
    /// The entry of a word before any store; it takes no memory.
    pub(crate) fn blank(alloc: Global, word: u32) -> Self
        ensures { result ≡ blank_entry word }
    {
        Entry {
            word,
            mask: ByteMask::none(),
            bytes: [0; 4],
            ops: Ops::new(alloc),
        }
    }

    /// The entry that a first store makes, with an empty list for the places.
    pub(crate) fn of_store(ops: Ops, store: Store) -> Result<Self, AllocError>
        requires { ops ≡ [] }
        ensures { IfOk result (λ e. e ≡ joined store (blank_entry store.word)) }
    {
        let mut entry = Entry {
            word: store.word,
            mask: ByteMask::none(),
            bytes: [0; 4],
            ops,
        };
        entry.join(store)?;
        Ok(entry)
    }

    /// Takes in a store to the entry's word.
    pub(crate) fn join(&mut self, store: Store) -> Result<(), AllocError>
        ensures ok { OnOk result (self.new ≡ joined store self.old) }
        ensures err { OnErr result (self.new ≡ self.old) }
    {
        self.ops.push(store.op)?;
        self.mask = store.mask.union(self.mask);
        self.bytes = store.mask.lay_over(store.value, self.bytes);
        Ok(())
    }
}

impl MadeWith<Global> for Entry {
    ghost is_made_with = { λ e. e ≡ blank_entry 0 };

    fn made_with(alloc: Global) -> Self {
        Entry::blank(alloc, 0)
    }
}
