//! Whether an instruction stops its hart, what its entry has to tell, and which status a hart may have.
ghost use Rattle.std.specs.Prelude.{◌≡◌, ◌^◌, List, ℕ};
ghost use Rattle.rv32_exec.specs.Size.{IsMemorySize};
ghost use Rattle.hart.specs.Run as run;
ghost use Rattle.rv32_exec.specs.Arithmetic.{bytes_loaded};
ghost use Rattle.rv32_exec.specs.Meaning.{access_of, stop_of};

use crate::fetching::can_fetch;
use crate::retired::Retired;
use crate::state::Hart;
use crate::status::Status;
use rv32_decode::{Instr, LoadOp, decode};
use rv32_exec::elf_loader::Image;
use rv32_exec::{Action, plan, stop};

impl Hart {
    /// The code that an instruction stops with at this hart, where memory has `size` bytes; none where it doesn't
    /// stop.
    pub fn stop_of(&self, instr: &Instr, size: u32) -> Option<u8>
        requires memory { IsMemorySize size }
        ensures { result ≡ stop_of instr.now self.now.pc self.now.regs size }
    {
        match plan(instr, self.pc, &self.regs, size) {
            Action::Stop(code) => Some(code),
            Action::Private
            | Action::Load { .. }
            | Action::Store { .. }
            | Action::Lr { .. }
            | Action::Sc { .. }
            | Action::Amo { .. }
            | Action::Fence
            | Action::Call => None,
        }
    }

    /// The code that a running hart's next fetch or instruction stops with; none where neither stops.
    pub fn next_stop(&self, image: &Image) -> Option<u8>
        ensures { result ≡ run.next_stop image.now self.now }
    {
        if !can_fetch(image, self.pc) {
            return Some(stop::FETCH_OUTSIDE);
        }
        match decode(image.word(self.pc)) {
            Some(instr) => self.stop_of(&instr, image.size()),
            None => Some(stop::ILLEGAL),
        }
    }

    /// Whether this status fits a hart whose entries lead here: `Running` while it runs, even where it would stop
    /// next; `Stopped` while it runs, with the code that it would stop with next; `Exited` with the code that it
    /// exited with.
    pub fn status_fits(&self, image: &Image, status: Status) -> bool
        ensures { result ≡ run.status_fits image.now self.now status }
    {
        match status {
            Status::Running => self.status.is_running(),
            Status::Stopped(code) => {
                self.status.is_running() && is_code(code, self.next_stop(image))
            }
            Status::Exited(code) => is_exit(code, self.status),
        }
    }
}

fn is_code(code: u8, stop: Option<u8>) -> bool
    ensures { result ≡ run.is_code code stop }
{
    match stop {
        Some(number) => number == code,
        None => false,
    }
}

fn is_exit(code: u8, status: Status) -> bool
    ensures { result ≡ run.is_exit code status }
{
    match status {
        Status::Exited(number) => number == code,
        Status::Running | Status::Stopped(_) => false,
    }
}

impl Retired {
    /// Whether the entry has what this instruction reads, and no more: a loaded number, which fits the access,
    /// exactly for a load, an LR and an AMO; whether it succeeded exactly for an SC.
    pub fn has_answers(&self, instr: &Instr) -> bool
        ensures { (regs : List ℕ) → result ≡ run.has_answers (access_of instr.now regs) self.now }
    {
        match *instr {
            Instr::Load { op, .. } => fits(op, self.loaded) && self.sc_ok.is_none(),
            Instr::Lr { .. } | Instr::Amo { .. } => {
                fits(LoadOp::Lw, self.loaded) && self.sc_ok.is_none()
            }
            Instr::Sc { .. } => self.loaded.is_none() && self.sc_ok.is_some(),
            Instr::Store { .. }
            | Instr::Upper { .. }
            | Instr::Jal { .. }
            | Instr::Jalr { .. }
            | Instr::Branch { .. }
            | Instr::Immediate { .. }
            | Instr::Shift { .. }
            | Instr::Register { .. }
            | Instr::Fence(_)
            | Instr::FenceTso
            | Instr::System(_) => self.loaded.is_none() && self.sc_ok.is_none(),
        }
    }
}

// Whether a number is there and fits in what the load reads.
fn fits(op: LoadOp, loaded: Option<u32>) -> bool
    ensures { result ≡ run.is_below (256 ^ bytes_loaded op) loaded }
{
    match loaded {
        Some(number) => match op {
            LoadOp::Lb | LoadOp::Lbu => number < 0x100,
            LoadOp::Lh | LoadOp::Lhu => number < 0x1_0000,
            LoadOp::Lw => true,
        },
        None => false,
    }
}
