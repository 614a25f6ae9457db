//! The names of the instructions.
ghost use Rattle.std.specs.Prelude.{◌≡◌, ◌≤◌, length};
ghost use Rattle.assembly.specs.Mnemonics as name;

use rv32_decode::{
    AmoOp, BranchOp, ImmediateOp, LoadOp, RegisterOp, ShiftOp, StoreOp, SystemOp, UpperOp,
};

pub(crate) fn upper_name(op: UpperOp) -> &'static [u8]
    ensures value { result.now ≡ name.upper op }
    ensures len { length result.now ≤ 9 }
{
    match op {
        UpperOp::Lui => b"lui",
        UpperOp::Auipc => b"auipc",
    }
}

pub(crate) fn branch_name(op: BranchOp) -> &'static [u8]
    ensures value { result.now ≡ name.branch op }
    ensures len { length result.now ≤ 9 }
{
    match op {
        BranchOp::Beq => b"beq",
        BranchOp::Bne => b"bne",
        BranchOp::Blt => b"blt",
        BranchOp::Bge => b"bge",
        BranchOp::Bltu => b"bltu",
        BranchOp::Bgeu => b"bgeu",
    }
}

pub(crate) fn load_name(op: LoadOp) -> &'static [u8]
    ensures value { result.now ≡ name.load op }
    ensures len { length result.now ≤ 9 }
{
    match op {
        LoadOp::Lb => b"lb",
        LoadOp::Lh => b"lh",
        LoadOp::Lw => b"lw",
        LoadOp::Lbu => b"lbu",
        LoadOp::Lhu => b"lhu",
    }
}

pub(crate) fn store_name(op: StoreOp) -> &'static [u8]
    ensures value { result.now ≡ name.store op }
    ensures len { length result.now ≤ 9 }
{
    match op {
        StoreOp::Sb => b"sb",
        StoreOp::Sh => b"sh",
        StoreOp::Sw => b"sw",
    }
}

pub(crate) fn immediate_name(op: ImmediateOp) -> &'static [u8]
    ensures value { result.now ≡ name.immediate op }
    ensures len { length result.now ≤ 9 }
{
    match op {
        ImmediateOp::Addi => b"addi",
        ImmediateOp::Slti => b"slti",
        ImmediateOp::Sltiu => b"sltiu",
        ImmediateOp::Xori => b"xori",
        ImmediateOp::Ori => b"ori",
        ImmediateOp::Andi => b"andi",
    }
}

pub(crate) fn shift_name(op: ShiftOp) -> &'static [u8]
    ensures value { result.now ≡ name.shift op }
    ensures len { length result.now ≤ 9 }
{
    match op {
        ShiftOp::Slli => b"slli",
        ShiftOp::Srli => b"srli",
        ShiftOp::Srai => b"srai",
    }
}

pub(crate) fn register_name(op: RegisterOp) -> &'static [u8]
    ensures value { result.now ≡ name.register op }
    ensures len { length result.now ≤ 9 }
{
    match op {
        RegisterOp::Add => b"add",
        RegisterOp::Sub => b"sub",
        RegisterOp::Sll => b"sll",
        RegisterOp::Slt => b"slt",
        RegisterOp::Sltu => b"sltu",
        RegisterOp::Xor => b"xor",
        RegisterOp::Srl => b"srl",
        RegisterOp::Sra => b"sra",
        RegisterOp::Or => b"or",
        RegisterOp::And => b"and",
        RegisterOp::Mul => b"mul",
        RegisterOp::Mulh => b"mulh",
        RegisterOp::Mulhsu => b"mulhsu",
        RegisterOp::Mulhu => b"mulhu",
        RegisterOp::Div => b"div",
        RegisterOp::Divu => b"divu",
        RegisterOp::Rem => b"rem",
        RegisterOp::Remu => b"remu",
    }
}

pub(crate) fn system_name(op: SystemOp) -> &'static [u8]
    ensures value { result.now ≡ name.system op }
    ensures len { length result.now ≤ 9 }
{
    match op {
        SystemOp::Ecall => b"ecall",
        SystemOp::Ebreak => b"ebreak",
    }
}

pub(crate) fn amo_name(op: AmoOp) -> &'static [u8]
    ensures value { result.now ≡ name.amo op }
    ensures len { length result.now ≤ 9 }
{
    match op {
        AmoOp::Swap => b"amoswap.w",
        AmoOp::Add => b"amoadd.w",
        AmoOp::Xor => b"amoxor.w",
        AmoOp::And => b"amoand.w",
        AmoOp::Or => b"amoor.w",
        AmoOp::Min => b"amomin.w",
        AmoOp::Max => b"amomax.w",
        AmoOp::Minu => b"amominu.w",
        AmoOp::Maxu => b"amomaxu.w",
    }
}
