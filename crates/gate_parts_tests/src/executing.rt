//! Worked rows, with the values that the manual and other implementations give.
use crate::same::{same, same_of};
use rv32_decode::{Instr, Register, RegisterOp, decode};
use rv32_exec::*;
use std::process::Abort;
use std::test::Fail;

const PC: u32 = 0x8000_0000;

// What an instruction on x6 and x7 leaves in x5.
fn computed(op: RegisterOp, a: u32, b: u32) -> u32 {
    let mut regs = Regs::new();
    regs.set(Register::new(6), a);
    regs.set(Register::new(7), b);
    let instr = Instr::Register {
        op,
        rd: Register::new(5),
        rs1: Register::new(6),
        rs2: Register::new(7),
    };
    let _ = finish(&instr, PC, &mut regs, None);
    regs.get(Register::new(5))
}

// The plan of a word at 0x80000000 with all registers 0.
fn planned(word: u32) -> Option<Action> {
    let instr = decode(word)?;
    Some(plan(&instr, PC, &Regs::new(), 4096))
}

/// An operation, its two numbers and its result.
type Computed = (RegisterOp, u32, u32, u32);

fn computes(rt: &impl Abort, rows: &[Computed]) {
    for (op, a, b, want) in rows {
        same_of(rt, computed(*op, *a, *b), *want, op);
    }
}

static ROW_3: [Computed; 4] = [
    (RegisterOp::Div, 0x8000_0000, 0xffff_ffff, 0x8000_0000),
    (RegisterOp::Rem, 0x8000_0000, 0xffff_ffff, 0),
    (RegisterOp::Divu, 7, 0, 0xffff_ffff),
    (RegisterOp::Remu, 7, 0, 7),
];

#[test]
fn row_3(rt: HostRuntime) {
    computes(&rt, &ROW_3);
}

/// Words, and the plan of each.
static ROW_28: [(u32, Option<Action>); 7] = [
    (0x0020_0067, Some(Action::Stop(0))),
    (0x0020_00ef, Some(Action::Stop(0))),
    (0x0000_0163, Some(Action::Stop(0))),
    (0x0000_1163, Some(Action::Private)),
    (0x0010_0073, Some(Action::Stop(3))),
    (0x0000_0067, Some(Action::Private)),
    (0x4000_1013, None),
];

#[test]
fn row_28(rt: HostRuntime) {
    for (word, want) in &ROW_28 {
        same_of(&rt, planned(*word), *want, word);
    }
}

static ROW_29: [Computed; 5] = [
    (RegisterOp::Mulhsu, 0xffff_ffff, 0xffff_ffff, 0xffff_ffff),
    (RegisterOp::Mulhu, 0xffff_ffff, 0xffff_ffff, 0xffff_fffe),
    (RegisterOp::Mulh, 0xffff_ffff, 0xffff_ffff, 0),
    (RegisterOp::Sra, 0x8000_0000, 33, 0xc000_0000),
    (RegisterOp::Srl, 0x8000_0000, 33, 0x4000_0000),
];

#[test]
fn row_29(rt: HostRuntime) {
    computes(&rt, &ROW_29);
}

#[test]
fn a_load_is_planned_and_finished(rt: HostRuntime) -> Result<(), Fail> {
    // lb x14, 1(x12)
    let instr = decode(0x0016_0703).ok_or("lb")?;
    let mut regs = Regs::at_reset(0, 1);
    regs.set(Register::new(12), 0x8000_0100);
    let addr = 0x8000_0101;
    same(
        &rt,
        plan(&instr, PC, &regs, 4096),
        Action::Load {
            addr,
            size: Width::Byte,
        },
    );
    same(&rt, Width::Byte.bytes(), 1);
    same(&rt, finish(&instr, PC, &mut regs, Some(0xf2)), PC + 4);
    same(&rt, regs.get(Register::new(14)), 0xffff_fff2);
    Ok(())
}
