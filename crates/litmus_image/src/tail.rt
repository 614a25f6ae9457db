//! What puts a hart's registers out behind its code.
ghost use Rattle.std.specs.Prelude.{◌≡◌, ◌<◌, ◌++◌, IfSome, OnOk};
ghost use Rattle.litmus_image.specs.Tail as tail;

use crate::instructions::{add, call};
use rv32_decode::Instr;
use rv32_exec::Call;
use std::alloc::AllocError;

/// The first of x1 to x31 that isn't asked for.
pub(crate) fn spare(asked: &[bool; 32]) -> Option<u8>
    ensures value { result ≡ tail.spare asked.now }
    ensures below { IfSome result (λ r. r < 32) }
{
    for register in 1..32u8 {
        if !asked[register as usize] {
            return Some(register);
        }
    }
    None
}

/// Puts x10 and x17 out, where they are asked for: x10 takes each number that is put out, and x17 what the calls ask.
/// `spare` keeps x17 where both are.
fn put_first(
    out: &mut Vec<Instr>,
    has_x10: bool,
    has_x17: bool,
    spare: u8,
) -> Result<(), AllocError>
    requires { spare < 32 }
    ensures { OnOk result (out.new.items ≡ out.old.items ++ tail.first has_x10 has_x17 spare) }
{
    match (has_x10, has_x17) {
        (false, false) => out.extend_from_slice(&[add(17, 0, 1)]),
        (true, false) => out.extend_from_slice(&[add(17, 0, 1), call()]),
        (false, true) => out.extend_from_slice(&[add(10, 17, 0), add(17, 0, 1), call()]),
        (true, true) => out.extend_from_slice(&[
            add(spare, 17, 0),
            add(17, 0, 1),
            call(),
            add(10, spare, 0),
            call(),
        ]),
    }
}

/// Whether a register is put out behind x10 and x17.
fn is_other(register: u8) -> bool
    ensures { result ≡ tail.is_other register }
{
    register != Call::ARGUMENT && register != Call::NUMBER
}

/// Puts one register out, where it is asked for.
fn put_other(out: &mut Vec<Instr>, register: u8, is_asked: bool) -> Result<(), AllocError>
    requires { register < 32 }
    ensures { OnOk result (out.new.items ≡ out.old.items ++ tail.other register is_asked) }
{
    if is_asked && is_other(register) {
        out.extend_from_slice(&[add(10, register, 0), call()])
    } else {
        Ok(())
    }
}

/// Puts out each register that is asked for, x10 and x17 first and then by number, and exits with 0. `spare` isn't asked
/// for where both x10 and x17 are.
pub(crate) fn put_tail(
    out: &mut Vec<Instr>,
    asked: &[bool; 32],
    spare: u8,
) -> Result<(), AllocError>
    requires { spare < 32 }
    ensures { OnOk result (out.new.items ≡ out.old.items ++ tail.tail asked.now spare) }
{
    put_first(out, asked[10], asked[17], spare)?;
    for register in 0..32u8 {
        put_other(out, register, asked[register as usize])?;
    }
    out.extend_from_slice(&[add(10, 0, 0), add(17, 0, 0), call()])
}
