//! What sets a hart's registers before its code.
ghost use Rattle.std.specs.Prelude.{◌≡◌, ◌++◌, ◌<◌, OnOk};
ghost use Rattle.litmus_image.specs.Beginnings as beginnings;

use crate::instructions::put_plain;
use assembly_reading::load_word;
use rv32_decode::{Instr, Register};
use std::alloc::AllocError;

/// Whether a register isn't 0 where a hart's part begins: x10 holds the hart's number, x11 how many harts there are, and
/// x31 was compared with x10.
fn is_used(register: u8) -> bool
    ensures { result ≡ beginnings.is_used register }
{
    matches!(register, 10 | 11 | 31)
}

/// Sets one register, if it doesn't hold the number already.
fn put_beginning(out: &mut Vec<Instr>, register: u8, number: u32) -> Result<(), AllocError>
    requires { register < 32 }
    ensures { OnOk result (out.new.items ≡ out.old.items ++ beginnings.beginning register number) }
{
    if register == 0 || (number == 0 && !is_used(register)) {
        Ok(())
    } else {
        put_plain(out, &load_word(Register::new(register), number))
    }
}

/// Sets all registers.
pub(crate) fn put_beginnings(out: &mut Vec<Instr>, begins: &[u32; 32]) -> Result<(), AllocError>
    ensures { OnOk result (out.new.items ≡ out.old.items ++ beginnings.beginnings begins.now) }
{
    for register in 0..32u8 {
        put_beginning(out, register, begins[register as usize])?;
    }
    Ok(())
}
