//! The integer registers x0 to x31 (chapter 2.1, "Programmers' Model for Base Integer ISA").
ghost use Rattle.std.specs.Prelude.{◌≡◌, ◌<◌, ℕ};

use std::marker::Model;

/// One of the registers x0 to x31, by its number.
#[derive(Clone, Copy, PartialEq, Eq)]
pub struct Register {
    number: u8,
}

impl Model for Register {
    ghost Value = { ℕ };

    ghost view = { λ r. r.number };

    ghost invariant = { λ r. r.number < 32 };

    ghost inverse = { λ n. record { number = n } };
}

impl Register {
    /// The register of this number.
    pub fn new(number: u8) -> Register
        requires { number < 32 }
        ensures { result ≡ number }
    {
        Register { number }
    }

    /// From 0 to 31.
    pub fn number(self) -> u8
        ensures value { result ≡ self }
        ensures in_range { result < 32 }
    {
        self.number
    }
}
