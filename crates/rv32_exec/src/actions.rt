//! What instructions will do to memory.

ghost use Rattle.std.specs.Prelude.{◌≡◌};
ghost use Rattle.rv32_exec.specs.Actions.{addressed};
ghost use Rattle.rv32_exec.specs.Width.{byte_count};

use rv32_decode::AmoOp;

/// How much a load or a store moves.
#[derive(Clone, Copy, Debug, PartialEq, Eq)]
pub enum Width {
    Byte,
    Half,
    Word,
}

impl Width {
    /// 1, 2 or 4.
    pub fn bytes(self) -> u32
        ensures { result ≡ byte_count self }
    {
        match self {
            Width::Byte => 1,
            Width::Half => 2,
            Width::Word => 4,
        }
    }
}

/// What an instruction will do beside its own hart's pc and registers.
#[derive(Clone, Copy, Debug, PartialEq, Eq)]
pub enum Action {
    /// Nothing.
    Private,
    Load { addr: u32, size: Width },
    /// The value is cut to the size.
    Store { addr: u32, size: Width, value: u32 },
    Lr { addr: u32 },
    Sc { addr: u32, value: u32 },
    Amo { addr: u32, op: AmoOp, operand: u32 },
    Fence,
    /// An ECALL whose number is 0 or 1.
    Call,
    /// The instruction does nothing, and its hart stops with this code of [`stop`].
    Stop(u8),
}

impl Action {
    /// The address that its access begins at, if it has one.
    pub fn address(self) -> Option<u32>
        ensures { result ≡ addressed self }
    {
        match self {
            Action::Load { addr, .. }
            | Action::Store { addr, .. }
            | Action::Lr { addr }
            | Action::Sc { addr, .. }
            | Action::Amo { addr, .. } => Some(addr),
            Action::Private | Action::Fence | Action::Call | Action::Stop(_) => None,
        }
    }
}
