//! What an instruction will do to memory, or why its hart stops.

ghost use Rattle.std.specs.Prelude.{◌≡◌, ◌%◌, ◌*◌, ◌^◌, ℕ, nat_lt, if◌then◌else◌, Some, None};
ghost use Rattle.rv32_exec.specs.Arithmetic.{bytes_loaded, bytes_stored};
ghost use Rattle.rv32_exec.specs.Meaning.{Loads, Stores, access_stop, stop_of_target, meaning};
ghost use Rattle.rv32_exec.specs.Meaning as spec;
ghost use Rattle.elf_loader.specs.Size.{IsMemorySize};
ghost use Rattle.rv32_exec.specs.Actions.{width_of, action_of_access, action_of, stop_or, planned};
ghost use Rattle.rv32_exec.specs.Width.{byte_count};

use crate::actions::{Action, Width};
use crate::arithmetic::is_taken;
use crate::call::Call;
use crate::registers::Regs;
use crate::stop;
use elf_loader::BASE;
use rv32_decode::{Instr, LoadOp, StoreOp, SystemOp};

/// What an instruction at `pc` will do, where memory has `size` bytes from 0x80000000 on.
#[rattlefmt::skip]
pub fn plan(instr: &Instr, pc: u32, regs: &Regs, size: u32) -> Action
    requires { IsMemorySize size }
    ensures value { result ≡ planned instr.now pc regs.now size }
    ensures of_meaning { (read : ℕ) → result ≡ action_of (meaning instr.now pc regs.now size read) }
{
    match *instr {
        Instr::Upper { .. }
        | Instr::Immediate { .. }
        | Instr::Shift { .. }
        | Instr::Register { .. } => Action::Private,
        Instr::Jal { offset, .. } => plan_jump(pc.wrapping_add(offset.value())),
        Instr::Jalr { rs1, offset, .. } => plan_jump(regs.get(rs1).wrapping_add(offset.value()) & !1),
        Instr::Branch { op, rs1, rs2, offset } => {
            if is_taken(op, regs.get(rs1), regs.get(rs2)) {
                plan_jump(pc.wrapping_add(offset.value()))
            } else {
                Action::Private
            }
        }
        Instr::Load { op, rs1, offset, .. } => {
            plan_load(op, regs.get(rs1).wrapping_add(offset.value()), size)
        }
        Instr::Store { op, rs1, rs2, offset } => {
            plan_store(op, regs.get(rs1).wrapping_add(offset.value()), regs.get(rs2), size)
        }
        Instr::Fence(_) | Instr::FenceTso => Action::Fence,
        Instr::System(SystemOp::Ecall) => plan_call(Call::in_registers(regs)),
        Instr::System(SystemOp::Ebreak) => Action::Stop(stop::BREAKPOINT),
        Instr::Lr { rs1, .. } => {
            let addr = regs.get(rs1);
            plan_write(addr, Width::Word, size, Action::Lr { addr })
        }
        Instr::Sc { rs1, rs2, .. } => {
            let (addr, value) = (regs.get(rs1), regs.get(rs2));
            plan_write(addr, Width::Word, size, Action::Sc { addr, value })
        }
        Instr::Amo { op, rs1, rs2, .. } => {
            let (addr, operand) = (regs.get(rs1), regs.get(rs2));
            plan_write(addr, Width::Word, size, Action::Amo { addr, op, operand })
        }
    }
}

fn plan_jump(target: u32) -> Action
    ensures { result ≡ stop_or (stop_of_target (Some target)) Action.Private }
{
    if target % 4 == 0 {
        Action::Private
    } else {
        Action::Stop(stop::JUMP_MISALIGNED)
    }
}

fn plan_call(call: Call) -> Action
    ensures { result ≡ stop_or (if nat_lt call.number 2 then None else Some 8) Action.Call }
{
    match call.number {
        Call::EXIT | Call::OUTPUT => Action::Call,
        _ => Action::Stop(stop::UNKNOWN_CALL),
    }
}

fn plan_load(op: LoadOp, addr: u32, memory_size: u32) -> Action
    requires { IsMemorySize memory_size }
    ensures { result
        ≡ stop_or (access_stop 4 5 memory_size addr (bytes_loaded op)) (action_of_access (Loads addr (bytes_loaded op))) }
{
    let size = load_width(op);
    if addr % size.bytes() != 0 {
        Action::Stop(stop::LOAD_MISALIGNED)
    } else if is_outside(addr, memory_size) {
        Action::Stop(stop::LOAD_OUTSIDE)
    } else {
        Action::Load { addr, size }
    }
}

fn plan_store(op: StoreOp, addr: u32, register: u32, memory_size: u32) -> Action
    requires { IsMemorySize memory_size }
    ensures { result
        ≡ stop_or (access_stop 6 7 memory_size addr (bytes_stored op))
        (action_of_access (Stores addr (bytes_stored op) (register % 2 ^ (8 * bytes_stored op)))) }
{
    match op {
        StoreOp::Sb => store(addr, Width::Byte, register & 0xff, memory_size),
        StoreOp::Sh => store(addr, Width::Half, register & 0xffff, memory_size),
        StoreOp::Sw => store(addr, Width::Word, register, memory_size),
    }
}

fn store(addr: u32, size: Width, value: u32, memory_size: u32) -> Action
    requires { IsMemorySize memory_size }
    ensures { result
        ≡ stop_or (access_stop 6 7 memory_size addr (byte_count size)) (Action.Store addr size value) }
{
    plan_write(addr, size, memory_size, Action::Store { addr, size, value })
}

// A write of this size at this address, or why it can't be done in place of its plan.
fn plan_write(addr: u32, size: Width, memory_size: u32, plan: Action) -> Action
    requires { IsMemorySize memory_size }
    ensures { result ≡ stop_or (access_stop 6 7 memory_size addr (byte_count size)) plan }
{
    if addr % size.bytes() != 0 {
        Action::Stop(stop::STORE_MISALIGNED)
    } else if is_outside(addr, memory_size) {
        Action::Stop(stop::STORE_OUTSIDE)
    } else {
        plan
    }
}

// Whether a part of an aligned access is outside memory. Memory's size is a multiple of each width, so that
// the first byte decides.
fn is_outside(addr: u32, memory_size: u32) -> bool
    requires { IsMemorySize memory_size }
    ensures { (size : Width) → addr % byte_count size ≡ 0 → result ≡ spec.is_outside memory_size addr (byte_count size) }
{
    addr.wrapping_sub(BASE) >= memory_size
}

fn load_width(op: LoadOp) -> Width
    ensures bytes { byte_count result ≡ bytes_loaded op }
    ensures width { result ≡ width_of (bytes_loaded op) }
{
    match op {
        LoadOp::Lb | LoadOp::Lbu => Width::Byte,
        LoadOp::Lh | LoadOp::Lhu => Width::Half,
        LoadOp::Lw => Width::Word,
    }
}
