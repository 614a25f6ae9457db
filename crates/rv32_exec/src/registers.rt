//! A hart's registers (chapter 2.1).
ghost use Rattle.std.specs.Prelude.{◌≡◌, ◌<◌, List, ℕ, length, slice_index, slice_set};
ghost use Rattle.rv32_exec.specs.Registers.{AreRegisters, with_register, zero_registers, reset_registers};

use rv32_decode::Register;
use std::marker::Model;

/// The registers x0 to x31, of which x0 is always 0.
#[derive(Clone, Copy, Debug, PartialEq, Eq, Hash)]
pub struct Regs {
    values: [u32; 32],
}

impl Model for Regs {
    ghost Value = { List ℕ };

    ghost view = { λ r. r.values };

    ghost invariant = { λ r. slice_index r.values 0 ≡ 0 };

    ghost inverse = { λ v. record { values = v } };
}

impl Regs {
    /// All registers 0.
    pub fn new() -> Regs
        ensures { result ≡ zero_registers }
    {
        Regs { values: [0; 32] }
    }

    /// As a hart begins: x10 is its number, x11 the number of harts, and the others are 0.
    pub fn at_reset(hart: u32, harts: u32) -> Regs
        ensures { result ≡ reset_registers hart harts }
    {
        let mut values = [0; 32];
        values[10] = hart;
        values[11] = harts;
        Regs { values }
    }

    /// What a register holds; 0 for x0.
    pub fn get(&self, register: Register) -> u32
        ensures value { result ≡ slice_index self.now register }
        ensures registers { AreRegisters self.now }
    {
        self.values[register.number() as usize]
    }

    /// Writes a register; a write to x0 is lost.
    pub fn set(&mut self, register: Register, value: u32)
        ensures { self.new ≡ with_register self.old register value }
    {
        let place = register.number() as usize;
        self.values[place] = value;
        self.values[0] = 0;
    }
}
