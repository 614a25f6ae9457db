//! The lines of the tables. Each answers `None` where the line can't be read.

use amo_unit::combine;
use rv32_decode::{AmoOp, Instr, Register, decode, encode};
use rv32_exec::{Action, Regs, Width, finish, plan};
use std::str::Split;

/// The tables, by what their lines are about.
#[derive(Clone, Copy)]
pub enum Table {
    Words,
    Instructions,
    AmoResults,
}

impl Table {
    /// Whether this code gives what the line says.
    pub fn agrees(self, line: &str) -> Option<bool> {
        match self {
            Table::Words => agrees_on_word(line),
            Table::Instructions => agrees_on_instruction(line),
            Table::AmoResults => agrees_on_amo(line),
        }
    }
}

// A word, and its one spelling, or `-` where it is no instruction.
fn agrees_on_word(line: &str) -> Option<bool> {
    let mut fields = line.split('\t');
    let word = next_number(&mut fields)?;
    let spelled = fields.next()?;
    match decode(word) {
        Some(instr) => Some(Some(encode(&instr)) == number(spelled)),
        None => Some(spelled == "-"),
    }
}

// An operation, the old word, the operand, and the word written.
fn agrees_on_amo(line: &str) -> Option<bool> {
    let mut fields = line.split('\t');
    let op = amo_op(fields.next()?)?;
    let [old, operand, written] = next_numbers::<3>(&mut fields)?;
    Some(combine(op, old, operand) == written)
}

/// A line about an instruction: a number is none where its column has none.
#[derive(Clone, Copy)]
struct Executed {
    word: u32,
    pc: u32,
    rs1: u32,
    rs2: u32,
    x17: u32,
    read: Option<u32>,
    planned: Action,
    next: Option<u32>,
    rd: Option<u32>,
}

// A word, its pc, memory's size, x(rs1), x(rs2), x17, the number read, the plan, the next pc, and x(rd).
fn read_executed(line: &str) -> Option<Executed> {
    let mut fields = line.split('\t');
    // All lines have memory of 4 KiB.
    let [word, pc, 4096, rs1, rs2, x17] = next_numbers::<6>(&mut fields)? else {
        return None;
    };
    let read = number(fields.next()?);
    let planned = read_plan(fields.next()?)?;
    let [next, rd] = [number(fields.next()?), number(fields.next()?)];
    Some(Executed {
        word,
        pc,
        rs1,
        rs2,
        x17,
        read,
        planned,
        next,
        rd,
    })
}

fn agrees_on_instruction(line: &str) -> Option<bool> {
    let executed = read_executed(line)?;
    let instr = decode(executed.word)?;
    Some(is_executed_so(&instr, &executed))
}

fn is_executed_so(instr: &Instr, executed: &Executed) -> bool {
    let mut regs = registers_before(executed);
    if plan(instr, executed.pc, &regs, 4096) != executed.planned {
        return false;
    }
    match executed.next {
        Some(next) => {
            let after = finish(instr, executed.pc, &mut regs, executed.read);
            let rd = regs.get(register(executed.word >> 7));
            after == next && (!writes(instr) || Some(rd) == executed.rd)
        }
        None => matches!(executed.planned, Action::Stop(_)),
    }
}

// A field that names no register of this instruction has 0 in its column.
fn registers_before(executed: &Executed) -> Regs {
    let mut regs = Regs::new();
    regs.set(Register::new(17), executed.x17);
    if executed.rs2 != 0 {
        regs.set(register(executed.word >> 20), executed.rs2);
    }
    if executed.rs1 != 0 {
        regs.set(register(executed.word >> 15), executed.rs1);
    }
    regs
}

fn register(field: u32) -> Register {
    Register::new((field & 0x1f) as u8)
}

fn writes(instr: &Instr) -> bool {
    !matches!(
        instr,
        Instr::Branch { .. }
            | Instr::Store { .. }
            | Instr::Fence(_)
            | Instr::FenceTso
            | Instr::System(_)
    )
}

fn number(text: &str) -> Option<u32> {
    match text.strip_prefix("0x") {
        Some(digits) => u32::from_str_radix(digits, 16).ok(),
        None => text.parse().ok(),
    }
}

fn next_number(fields: &mut Split<'_, char>) -> Option<u32> {
    number(fields.next()?)
}

fn next_numbers<const N: usize>(fields: &mut Split<'_, char>) -> Option<[u32; N]> {
    let mut numbers = [0; N];
    for kept in numbers.iter_mut() {
        *kept = next_number(fields)?;
    }
    Some(numbers)
}

fn next_width(words: &mut Split<'_, char>) -> Option<Width> {
    width(next_number(words)?)
}

fn read_plan(text: &str) -> Option<Action> {
    let mut words = text.split(' ');
    match words.next()? {
        "Local" => Some(Action::Private),
        "Fence" => Some(Action::Fence),
        "Call" => Some(Action::Call),
        "Stop" => read_stop(&mut words),
        name => read_access(name, &mut words),
    }
}

fn read_stop(words: &mut Split<'_, char>) -> Option<Action> {
    let code = u8::try_from(next_number(words)?);
    Some(Action::Stop(code.ok()?))
}

fn read_access(name: &str, words: &mut Split<'_, char>) -> Option<Action> {
    let addr = next_number(words)?;
    match name {
        "Lr" => Some(Action::Lr { addr }),
        "Load" => {
            let size = next_width(words)?;
            Some(Action::Load { addr, size })
        }
        "Store" => read_store(addr, words),
        "Sc" => {
            let value = next_number(words)?;
            Some(Action::Sc { addr, value })
        }
        "Amo" => read_amo(addr, words),
        _ => None,
    }
}

fn read_store(addr: u32, words: &mut Split<'_, char>) -> Option<Action> {
    let size = next_width(words)?;
    let value = next_number(words)?;
    Some(Action::Store { addr, size, value })
}

fn read_amo(addr: u32, words: &mut Split<'_, char>) -> Option<Action> {
    let op = amo_op(words.next()?)?;
    let operand = next_number(words)?;
    Some(Action::Amo { addr, op, operand })
}

fn width(bytes: u32) -> Option<Width> {
    match bytes {
        1 => Some(Width::Byte),
        2 => Some(Width::Half),
        4 => Some(Width::Word),
        _ => None,
    }
}

fn amo_op(name: &str) -> Option<AmoOp> {
    match name {
        "AMOSWAP" => Some(AmoOp::Swap),
        "AMOADD" => Some(AmoOp::Add),
        "AMOXOR" => Some(AmoOp::Xor),
        "AMOAND" => Some(AmoOp::And),
        "AMOOR" => Some(AmoOp::Or),
        "AMOMIN" => Some(AmoOp::Min),
        "AMOMAX" => Some(AmoOp::Max),
        "AMOMINU" => Some(AmoOp::Minu),
        "AMOMAXU" => Some(AmoOp::Maxu),
        _ => None,
    }
}
