//! Where and why harts stopped, told in words.

ghost use Rattle.std.specs.Prelude.{◌≡◌, ◌<◌, length};
ghost use Rattle.stop_text.specs.Standing.{code_of as spec_code_of};

use crate::places::put_place;
use crate::reaching::{bytes, target};
use crate::standing::standing;
use assembly::spell_assembly;
use elf_loader::Image;
use elf_symbols::Symbols;
use hart::{Hart, Status, can_fetch};
use rv32_decode::{Instr, SystemOp, decode};
use rv32_exec::Call;
use std::fmt::{self, Display, Formatter};
use std::str;
use text_fields::Page;
use trace_recorder::Trace;

/// The harts of a trace that stopped: where, by the names that the image's file has, and at which instruction.
#[derive(Clone, Copy)]
pub struct StopNote<'a> {
    pub trace: &'a Trace,
    pub names: &'a Symbols,
}

impl StopNote<'_> {
    /// Whether there is a hart that stopped.
    pub fn is_needed(&self) -> bool {
        let mut statuses = self.trace.statuses().iter();
        statuses.any(|status| matches!(status, Status::Stopped(_)))
    }

    /// The code that a hart stopped with; none where it didn't stop.
    fn code_of(&self, hart: usize) -> Option<u8>
        ensures { result ≡ spec_code_of self.now.trace.now.history hart }
    {
        match self.trace.statuses().get(hart)? {
            Status::Stopped(code) => Some(*code),
            Status::Running | Status::Exited(_) => None,
        }
    }
}

impl Display for StopNote<'_> {
    /// As in `hart 0: stop 3 at 0x80000010 <check+0x8>: ebreak`, a semicolon between two harts.
    fn fmt<W: fmt::Write>(&self, f: &mut Formatter<W>) -> fmt::Result {
        let mut between = "";
        for hart in 0..self.trace.harts() {
            if let Some(code) = self.code_of(hart) {
                let stopped = standing(self.trace, hart);
                write!(f, "{between}hart {hart}: stop {code} at ")?;
                put_place(self.names, stopped.pc, f)?;
                f.write_str(": ")?;
                put_cause(self.trace.image(), &stopped, f)?;
                between = "; ";
            }
        }
        Ok(())
    }
}

// Why the hart's next instruction can't be carried out.
fn put_cause<W: fmt::Write>(image: &Image, hart: &Hart, f: &mut Formatter<W>) -> fmt::Result {
    if !can_fetch(image, hart.pc) {
        return f.write_str("no word of memory lies there");
    }
    let word = image.word(hart.pc);
    let Some(instr) = decode(word) else {
        return write!(f, "0x{word:08x} is no instruction of RV32IMA");
    };
    put_instruction(&instr, hart.pc, f)?;
    put_reason(&instr, hart, f)
}

fn put_instruction<W: fmt::Write>(instr: &Instr, pc: u32, f: &mut Formatter<W>) -> fmt::Result {
    let mut page = Page::new();
    spell_assembly(&mut page, instr, Some(pc));
    match str::from_utf8(page.as_slice()) {
        Ok(text) => f.write_str(text),
        Err(_) => Err(fmt::Error),
    }
}

// What the instruction asks for that there isn't.
fn put_reason<W: fmt::Write>(instr: &Instr, hart: &Hart, f: &mut Formatter<W>) -> fmt::Result {
    if let Some(target) = target(instr, hart.pc, &hart.regs) {
        return write!(f, " leads to 0x{target:08x}, which is no multiple of 4");
    }
    if let Some((address, count)) = bytes(instr, &hart.regs) {
        let fault = if address % count == 0 {
            "outside memory"
        } else {
            "misaligned"
        };
        return write!(f, " reaches for {count} bytes at 0x{address:08x}, {fault}");
    }
    if let Instr::System(SystemOp::Ecall) = instr {
        let number = Call::in_registers(&hart.regs).number;
        return write!(f, " asks for {number} (a7), which is neither 0 nor 1");
    }
    Ok(())
}
