//! Where a hart stands.
ghost use Rattle.std.specs.Prelude.{◌≡◌, Some};

use crate::retired::Retired;
use crate::status::Status;
use rv32_decode::Instr;
use rv32_exec::{Regs, finish};

/// A hart: its number from 0, the address of its next instruction, its registers and its status.
#[derive(Clone, Copy, Debug, PartialEq, Eq, Hash)]
pub struct Hart {
    pub id: u8,
    pub pc: u32,
    pub regs: Regs,
    pub status: Status,
}

impl Hart {
    ghost use Rattle.hart.specs.Run.{after_instr, reset_at};

    /// A hart at reset: it runs from the entry, with its number in x10, the number of harts in x11 and
    /// 0 in all other registers.
    pub fn at_reset(id: u8, entry: u32, harts: u32) -> Hart
        ensures { result ≡ reset_at entry id harts }
    {
        Hart {
            id,
            pc: entry,
            regs: Regs::at_reset(u32::from(id), harts),
            status: Status::Running,
        }
    }

    /// The hart retires an entry of this instruction, and stands behind it.
    pub fn retire(&mut self, entry: &Retired, instr: &Instr)
        ensures { self.new ≡ after_instr self.old entry.now (Some instr.now) }
    {
        self.status = Status::after(instr, &self.regs);
        self.pc = finish(instr, self.pc, &mut self.regs, Some(entry.number_read()));
    }
}
