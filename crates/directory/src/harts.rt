//! Small sets of harts.
ghost use Rattle.std.specs.Prelude.{◌≡◌, ◌<◌, ◌||◌, ◌&&◌, not, nat_eq, [], ◌∷◌, ◌↔◌, IfSome, MatchOption, IsTrue};
ghost use Rattle.std.specs.Iterator.{YieldsFirst, item_count};
ghost use Rattle.directory.specs.Harts.{harts_below, has};

use std::marker::Model;

/// A set of harts, which are numbered 0 to 7.
#[derive(Clone, Copy, Debug, PartialEq, Eq)]
pub struct HartSet {
    bits: u8,
}

impl Model for HartSet {
    ghost use Rattle.std.specs.Prelude.{◌≡◌, ℕ, List};
    ghost use Rattle.std.proofs.Common.{ap};
    ghost use Rattle.directory.specs.Harts.{members, bits_of};

    ghost Value = { List ℕ };

    ghost view = { λ s. members s.bits };

    ghost invariant = { λ s. bits_of (members s.bits) ≡ s.bits };

    ghost inverse = { λ harts. record { bits = bits_of harts } };

    ghost inverse_ok = { λ s same. ap (λ (bits : ℕ). record { bits = bits }) same };
}

impl HartSet {
    /// The empty set.
    pub fn new() -> HartSet
        ensures { result ≡ [] }
    {
        HartSet { bits: 0 }
    }

    /// Whether no hart is in it.
    pub fn is_empty(self) -> bool
        ensures { IsTrue result ↔ (self ≡ []) }
    {
        self.bits == 0
    }

    /// Whether the hart, 0 to 7, is in it.
    pub fn contains(self, hart: u8) -> bool
        requires { hart < 8 }
        ensures { result ≡ has self hart }
    {
        self.bits >> hart & 1 == 1
    }

    /// The set with this hart in it.
    pub fn with(self, hart: u8) -> HartSet
        requires { hart < 8 }
        ensures { result ≡ harts_below 8 (λ h. nat_eq h hart || has self h) }
    {
        HartSet {
            bits: self.bits | 1 << hart,
        }
    }

    /// The set without this hart.
    pub fn without(self, hart: u8) -> HartSet
        requires { hart < 8 }
        ensures { result ≡ harts_below 8 (λ h. not (nat_eq h hart) && has self h) }
    {
        HartSet {
            bits: self.bits & !(1 << hart),
        }
    }

    /// The least hart of the set.
    pub fn first(self) -> Option<u8>
        ensures least { MatchOption result (self ≡ []) (λ hart. self ≡ hart ∷ harts_below 8 (λ h. not (nat_eq h hart) && has self h)) }
        ensures numbered { IfSome result (λ hart. hart < 8) }
    {
        if self.bits == 0 {
            return None;
        }
        Some(self.bits.trailing_zeros() as u8)
    }

    /// The harts, rising.
    pub fn iter(self) -> Harts
        ensures { result ≡ self }
    {
        Harts { rest: self }
    }
}

/// The harts of a set, rising.
#[derive(Drop)]
pub struct Harts {
    rest: HartSet,
}

impl Model for Harts {
    ghost use Rattle.std.specs.Prelude.{ℕ, List};

    ghost Value = { List ℕ };

    ghost view = { λ s. s.rest };
}

impl Iterator for Harts {
    type Item = u8;

    ghost next_gives = { YieldsFirst (λ rest. rest) };

    ghost remaining = { item_count (λ rest. rest) };

    fn next(&mut self) -> Option<u8> {
        let first = self.rest.first()?;
        self.rest = self.rest.without(first);
        Some(first)
    }
}
