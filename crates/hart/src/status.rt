//! Whether a hart goes on.
ghost use Rattle.std.specs.Prelude.{◌≡◌};
ghost use Rattle.rv32_exec.specs.Meaning.{access_of};

use rv32_decode::Instr;
use rv32_exec::{Call, Regs};

/// Whether a hart runs, was stopped by an instruction that can't be carried out (codes 0 to 8), or was
/// ended by its program with an exit code.
#[derive(Clone, Copy, Debug, PartialEq, Eq, Hash)]
pub enum Status {
    Running,
    Stopped(u8),
    Exited(u8),
}

impl Status {
    ghost use Rattle.hart.specs.Run.{is_running, status_after};

    /// Whether the hart goes on: neither stopped nor exited.
    pub fn is_running(self) -> bool
        ensures { result ≡ is_running self }
    {
        match self {
            Status::Running => true,
            Status::Stopped(_) | Status::Exited(_) => false,
        }
    }

    /// The status of a running hart behind an instruction that retires with these registers before it: an
    /// ECALL that exits ends the hart with its argument, modulo 256.
    pub fn after(instr: &Instr, regs: &Regs) -> Status
        ensures { result ≡ status_after (access_of instr.now regs.now) }
    {
        match Call::of(instr, regs) {
            Some(
                Call {
                    number: Call::EXIT,
                    argument,
                },
            ) => Status::Exited((argument % 256) as u8),
            _ => Status::Running,
        }
    }
}
