//! The stores of an entry.
ghost use Rattle.std.specs.Prelude.{◌≡◌, [], ◌∷◌, ◌++◌, length, OnOk, OnErr};

use std::alloc::{AllocError, Global};
use std::default::MadeWith;
use std::marker::Model;

/// Places in a hart's list of retired instructions, in program order.
#[derive(Clone, Debug, Drop)]
pub struct Ops {
    places: Vec<u32>,
}

impl Model for Ops {
    ghost use Rattle.std.specs.Prelude.{List, ℕ};

    ghost Value = { List ℕ };

    ghost view = { λ o. o.places.items };
}

impl Ops {
    /// No places; it takes no memory.
    pub fn new(alloc: Global) -> Self
        ensures { result ≡ [] }
    {
        Ops {
            places: Vec::new(alloc),
        }
    }

    /// Takes no memory, nor does `into_vec`.
    pub fn from_vec(places: Vec<u32>) -> Self
        ensures { result ≡ places.items }
    {
        Ops { places }
    }

    pub fn into_vec(self) -> Vec<u32>
        ensures { result.items ≡ self }
    {
        self.places
    }

    pub fn as_slice(&self) -> &[u32]
        ensures { result.now ≡ self.now }
    {
        &self.places
    }

    pub fn len(&self) -> usize
        ensures { result ≡ length self.now }
    {
        self.places.len()
    }

    /// Drops all places, and keeps their memory.
    pub(crate) fn clear(&mut self)
        ensures { self.new ≡ [] }
    {
        self.places.clear();
    }

    /// Appends a place. The only error is want of memory, and leaves the list as it was.
    pub fn push(&mut self, place: u32) -> Result<(), AllocError>
        ensures ok { OnOk result (self.new ≡ self.old ++ place ∷ []) }
        ensures err { OnErr result (self.new ≡ self.old) }
    {
        self.places.push(place)?;
        Ok(())
    }
}

impl MadeWith<Global> for Ops {
    fn made_with(alloc: Global) -> Self {
        Ops::new(alloc)
    }
}
