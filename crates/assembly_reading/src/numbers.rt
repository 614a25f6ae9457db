//! Numbers that an instruction can hold.
ghost use Rattle.std.specs.Prelude.{◌≡◌};
ghost use Rattle.assembly_reading.specs.Numbers as numbers;

use crate::statement::StatementError;
use rv32_decode::{BranchOffset, Immediate12, JumpOffset, ShiftAmount, UpperImmediate};
use text_words::Number;

/// The immediate of the formats I and S.
pub(crate) fn immediate(number: Number) -> Result<Immediate12, StatementError>
    ensures { result ≡ numbers.immediate number }
{
    match number {
        Number::Word(n) if n.wrapping_add(1 << 11) < 1 << 12 => Ok(Immediate12::new(n)),
        Number::Word(_) => Err(StatementError::OutOfRange),
        Number::Wide => Err(StatementError::OtherArchitecture),
    }
}

/// The immediate of LUI and AUIPC, which is written without its twelve zeros.
pub(crate) fn upper(number: Number) -> Result<UpperImmediate, StatementError>
    ensures { result ≡ numbers.upper number }
{
    match number {
        Number::Word(n) if n < 1 << 20 => Ok(UpperImmediate::new(n * 4096)),
        Number::Word(_) => Err(StatementError::OutOfRange),
        Number::Wide => Err(StatementError::OtherArchitecture),
    }
}

/// How far a shift moves. RV64 shifts by up to 63 places.
pub(crate) fn amount(number: Number) -> Result<ShiftAmount, StatementError>
    ensures { result ≡ numbers.amount number }
{
    match number {
        Number::Word(n) if n < 32 => Ok(ShiftAmount::new(n)),
        Number::Word(n) if n >= 64 => Err(StatementError::OutOfRange),
        _ => Err(StatementError::OtherArchitecture),
    }
}

/// How far a branch jumps.
pub(crate) fn branch_offset(number: Number) -> Result<BranchOffset, StatementError>
    ensures { result ≡ numbers.branch_offset number }
{
    match number {
        Number::Word(n) if n.wrapping_add(1 << 12) < 1 << 13 && n % 2 == 0 => {
            Ok(BranchOffset::new(n))
        }
        Number::Word(_) => Err(StatementError::OutOfRange),
        Number::Wide => Err(StatementError::OtherArchitecture),
    }
}

/// How far a JAL jumps.
pub(crate) fn jump_offset(number: Number) -> Result<JumpOffset, StatementError>
    ensures { result ≡ numbers.jump_offset number }
{
    match number {
        Number::Word(n) if n.wrapping_add(1 << 20) < 1 << 21 && n % 2 == 0 => {
            Ok(JumpOffset::new(n))
        }
        Number::Word(_) => Err(StatementError::OutOfRange),
        Number::Wide => Err(StatementError::OtherArchitecture),
    }
}
