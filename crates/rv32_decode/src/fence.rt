//! The sets of a FENCE (chapter 2.7, "Memory Ordering Instructions").
ghost use Rattle.std.specs.Prelude.{⊤, ◌≡◌, ◌<◌, ℕ, [], ◌∷◌, codes};

use bitflags::{Flag, Flags, bitflag_items};
use std::marker::Model;

/// Which accesses a FENCE speaks of: device input (I) and output (O), memory reads (R) and writes (W).
#[derive(Clone, Copy, PartialEq, Eq)]
pub struct FenceSet(u8);

bitflag_items! {
    impl FenceSet: u8 {
        const I = 8;
        const O = 4;
        const R = 2;
        const W = 1;
    }
}

impl Flags for FenceSet {
    type Bits = u8;

    ghost exact = { ⊤ };

    ghost table = { (codes "I", 8) ∷ (codes "O", 4) ∷ (codes "R", 2) ∷ (codes "W", 1) ∷ [] };

    ghost set_of = { λ s. s.0 };

    fn flags<'a>() -> &'a [Flag<FenceSet>] {
        FenceSet::FLAGS
    }

    fn bits(&self) -> u8 {
        self.0
    }

    fn from_bits_retain(bits: u8) -> FenceSet {
        FenceSet(bits)
    }
}

impl FenceSet {
    ghost use Rattle.std.specs.Prelude.{◌==◌};
    ghost use Rattle.rv32_decode.specs.Fields.{bits_of};

    /// Whether memory reads are in it.
    pub fn has_reads(self) -> bool
        ensures { result ≡ (bits_of self.0 1 1 == 1) }
    {
        self.contains(FenceSet::R)
    }

    /// Whether memory writes are in it.
    pub fn has_writes(self) -> bool
        ensures { result ≡ (bits_of self.0 0 1 == 1) }
    {
        self.contains(FenceSet::W)
    }
}

/// The sets before and after a FENCE, of the bits I, O, R and W alone.
#[derive(Clone, Copy, PartialEq, Eq)]
pub struct FenceSets {
    before: FenceSet,
    after: FenceSet,
}

impl Model for FenceSets {
    ghost use Rattle.rv32_decode.specs.Fence.{Sets};
    ghost use Rattle.std.specs.Prelude.{◌<◌};

    ghost Value = { Sets };

    ghost view = { λ f. record { before = f.before.0; after = f.after.0 } };

    ghost invariant = { λ f. (f.before.0 < 16) × (f.after.0 < 16) };

    ghost inverse = { λ s. record { before = record { 0 = s.before }; after = record { 0 = s.after } } };
}

impl FenceSets {
    /// The sets before and after; neither has a bit but I, O, R and W.
    pub fn new(before: FenceSet, after: FenceSet) -> FenceSets
        requires before { before.0 < 16 }
        requires after { after.0 < 16 }
        ensures before { result.before ≡ before.0 }
        ensures after { result.after ≡ after.0 }
    {
        FenceSets { before, after }
    }

    /// What has to be done before the FENCE.
    pub fn before(self) -> FenceSet
        ensures value { result.0 ≡ self.before }
        ensures known { result.0 < 16 }
    {
        self.before
    }

    /// What has to wait for the FENCE.
    pub fn after(self) -> FenceSet
        ensures value { result.0 ≡ self.after }
        ensures known { result.0 < 16 }
    {
        self.after
    }
}
