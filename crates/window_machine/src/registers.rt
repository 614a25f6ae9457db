//! Which registers an instruction reads and writes, by number.
ghost use Rattle.std.specs.Prelude.{◌≡◌, ◌<◌, ◌++◌, [], unwrap_or};
ghost use Rattle.memory_model.specs.Dependencies.{sources};
ghost use Rattle.rv32_exec.specs.Uses.{named, uses_of};

use rv32_decode::{Instr, Register};
use rv32_exec::{address_register, destination, other_registers, stored_register};

/// The registers of an instruction by number; 0 where it has none, since nothing comes from x0.
#[derive(Clone, Copy)]
pub(crate) struct Registers {
    /// Of an access the register of its address.
    pub first: usize,
    /// Of an access the register whose number is stored.
    pub second: usize,
    pub written: usize,
}

fn number(register: Option<Register>) -> usize
    ensures value { result ≡ unwrap_or register 0 }
    ensures below { result < 32 }
{
    match register {
        Some(register) => usize::from(register.number()),
        None => 0,
    }
}

/// Those that dependencies count: an ECALL has none.
pub(crate) fn registers_of(instr: &Instr) -> Registers
    ensures sources { named result.first ++ named result.second ≡ sources (uses_of instr.now) }
    ensures address { (uses_of instr.now).other ≡ [] → named result.first ≡ (uses_of instr.now).address }
    ensures stored { (uses_of instr.now).other ≡ [] → named result.second ≡ (uses_of instr.now).stored }
    ensures written { named result.written ≡ (uses_of instr.now).written }
    ensures below { result.written < 32 }
{
    let (one, another) = other_registers(instr);
    Registers {
        first: number(address_register(instr).or(one)),
        second: number(stored_register(instr).or(another)),
        written: number(destination(instr)),
    }
}
