//! The numbers that instructions hold (chapter 2.3, "Immediate Encoding Variants"): each is sign-extended
//! to 32 bits, and stands here as a number modulo 2^32.
ghost use Rattle.std.specs.Prelude.{◌≡◌, ◌<◌, ◌+◌, ◌%◌, ◌^◌, ℕ};
ghost use Rattle.rv32_decode.specs.Ranges.{IsSigned, IsMultiple};

use std::marker::Model;

/// The immediate of the formats I and S: 12 bits, from -2048 to 2047.
#[derive(Clone, Copy, PartialEq, Eq)]
pub struct Immediate12 {
    value: u32,
}

/// How far a branch jumps: 13 bits, an even number from -4096 to 4094.
#[derive(Clone, Copy, PartialEq, Eq)]
pub struct BranchOffset {
    value: u32,
}

/// How far a JAL jumps: 21 bits, an even number from -1048576 to 1048574.
#[derive(Clone, Copy, PartialEq, Eq)]
pub struct JumpOffset {
    value: u32,
}

/// The immediate of LUI and AUIPC: 20 bits above twelve zeros.
#[derive(Clone, Copy, PartialEq, Eq)]
pub struct UpperImmediate {
    value: u32,
}

/// How far SLLI, SRLI and SRAI shift: from 0 to 31.
#[derive(Clone, Copy, PartialEq, Eq)]
pub struct ShiftAmount {
    value: u32,
}

impl Model for Immediate12 {
    ghost Value = { ℕ };

    ghost view = { λ i. i.value };

    ghost invariant = { λ i. IsSigned 12 i.value };

    ghost inverse = { λ n. record { value = n } };
}

impl Immediate12 {
    /// The immediate of this value, modulo 2^32.
    pub fn new(value: u32) -> Immediate12
        requires { IsSigned 12 value }
        ensures { result ≡ value }
    {
        Immediate12 { value }
    }

    /// The sign-extended value, modulo 2^32.
    pub fn value(self) -> u32
        ensures value { result ≡ self }
        ensures in_range { IsSigned 12 result }
    {
        self.value
    }
}

impl Model for BranchOffset {
    ghost Value = { ℕ };

    ghost view = { λ i. i.value };

    ghost invariant = { λ i. IsSigned 13 i.value × IsMultiple 2 i.value };

    ghost inverse = { λ n. record { value = n } };
}

impl BranchOffset {
    /// The offset of this value, modulo 2^32.
    pub fn new(value: u32) -> BranchOffset
        requires in_range { IsSigned 13 value }
        requires even { IsMultiple 2 value }
        ensures { result ≡ value }
    {
        BranchOffset { value }
    }

    /// The sign-extended value, modulo 2^32.
    pub fn value(self) -> u32
        ensures value { result ≡ self }
        ensures in_range { IsSigned 13 result }
        ensures even { IsMultiple 2 result }
    {
        self.value
    }
}

impl Model for JumpOffset {
    ghost Value = { ℕ };

    ghost view = { λ i. i.value };

    ghost invariant = { λ i. IsSigned 21 i.value × IsMultiple 2 i.value };

    ghost inverse = { λ n. record { value = n } };
}

impl JumpOffset {
    /// The offset of this value, modulo 2^32.
    pub fn new(value: u32) -> JumpOffset
        requires in_range { IsSigned 21 value }
        requires even { IsMultiple 2 value }
        ensures { result ≡ value }
    {
        JumpOffset { value }
    }

    /// The sign-extended value, modulo 2^32.
    pub fn value(self) -> u32
        ensures value { result ≡ self }
        ensures in_range { IsSigned 21 result }
        ensures even { IsMultiple 2 result }
    {
        self.value
    }
}

impl Model for UpperImmediate {
    ghost Value = { ℕ };

    ghost view = { λ i. i.value };

    ghost invariant = { λ i. IsMultiple 4096 i.value };

    ghost inverse = { λ n. record { value = n } };
}

impl UpperImmediate {
    /// The immediate of this value, whose low twelve bits are 0.
    pub fn new(value: u32) -> UpperImmediate
        requires { IsMultiple 4096 value }
        ensures { result ≡ value }
    {
        UpperImmediate { value }
    }

    /// The value, whose low twelve bits are 0.
    pub fn value(self) -> u32
        ensures value { result ≡ self }
        ensures in_range { IsMultiple 4096 result }
    {
        self.value
    }
}

impl Model for ShiftAmount {
    ghost Value = { ℕ };

    ghost view = { λ i. i.value };

    ghost invariant = { λ i. i.value < 32 };

    ghost inverse = { λ n. record { value = n } };
}

impl ShiftAmount {
    /// The amount of this value.
    pub fn new(value: u32) -> ShiftAmount
        requires { value < 32 }
        ensures { result ≡ value }
    {
        ShiftAmount { value }
    }

    /// From 0 to 31.
    pub fn value(self) -> u32
        ensures value { result ≡ self }
        ensures in_range { result < 32 }
    {
        self.value
    }
}
