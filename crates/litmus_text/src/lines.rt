//! The lines of the columns.
ghost use Rattle.std.specs.Prelude.{◌≡◌, ◌++◌, IfOk};
ghost use Rattle.assembly_reading.specs.Reading.{statement_in};
ghost use Rattle.litmus_text.specs.Lines as lines;
ghost use Rattle.litmus_parts.specs.Stops.{seen, Gives};

use assembly_reading::{Statement, StatementError, read_statement};
use litmus_parts::{Cause, CodeLine, Content, Item, Stop};
use rv32_decode::{Instr, UpperOp};
use std::alloc::Global;

/// Whether an instruction leads nowhere, calls nobody, and doesn't tell where it stands.
fn is_plain(instr: Instr) -> bool
    ensures { result ≡ lines.is_plain instr }
{
    match instr {
        Instr::Upper {
            op: UpperOp::Lui,
            ..
        }
        | Instr::Load { .. }
        | Instr::Store { .. }
        | Instr::Immediate { .. }
        | Instr::Shift { .. }
        | Instr::Register { .. }
        | Instr::Fence(_)
        | Instr::FenceTso
        | Instr::Lr { .. }
        | Instr::Sc { .. }
        | Instr::Amo { .. } => true,
        Instr::Upper {
            op: UpperOp::Auipc,
            ..
        }
        | Instr::Jal { .. }
        | Instr::Jalr { .. }
        | Instr::Branch { .. }
        | Instr::System(_) => false,
    }
}

/// Whether a statement can stand in a test.
fn is_allowed(statement: &Statement) -> bool
    ensures { result ≡ lines.is_allowed statement.now }
{
    match statement {
        Statement::One(instr) => is_plain(*instr),
        Statement::Jump { rd, .. } => rd.number() == 0,
        Statement::Two(_, _) | Statement::Branch { .. } | Statement::Nothing => true,
    }
}

/// What the text of an instruction says, if it can stand in a test.
fn statement_in(text: &[u8]) -> Result<Statement, Cause>
    ensures { result ≡ lines.judged (statement_in text.now) }
{
    match read_statement(text) {
        Ok(statement) => {
            if is_allowed(&statement) {
                Ok(statement)
            } else {
                Err(Cause::Instruction)
            }
        }
        Err(StatementError::OtherArchitecture) => Err(Cause::OtherInstruction),
        Err(StatementError::OutOfRange) => Err(Cause::Immediate),
        Err(StatementError::NoInstruction) => Err(Cause::Instruction),
    }
}

/// So many bytes from where so many are left.
fn text_at(bytes: &[u8], left: usize, amount: usize) -> &[u8]
    ensures { result.now ≡ lines.text_at bytes.now left amount }
{
    let start = bytes.len().saturating_sub(left);
    let rest = &bytes[start..];
    &rest[..amount.min(rest.len())]
}

/// The line that an item of a column makes, unless it is an empty cell.
#[tactic(auto, unfolding(crate::specs::Lines::item_lines))]
fn item_line(bytes: &[u8], item: &Item) -> Result<Option<CodeLine>, Stop>
    ensures { seen lines.listed result ≡ lines.item_lines bytes.now item.now }
{
    match item {
        Item::Label { hart, name, left } => Ok(Some(CodeLine {
            hart: *hart,
            left: *left,
            content: Content::Label(*name),
        })),
        Item::Instruction { length: 0, .. } => Ok(None),
        Item::Instruction { hart, left, length } => {
            match statement_in(text_at(bytes, *left, *length)) {
                Ok(statement) => Ok(Some(CodeLine {
                    hart: *hart,
                    left: *left,
                    content: Content::Code(statement),
                })),
                Err(cause) => {
                    let left = *left;
                    Err(Stop::At { cause, left })
                }
            }
        }
    }
}

/// The lines of all columns, row by row.
pub(crate) fn lines_of(alloc: Global, bytes: &[u8], items: &[Item]) -> Result<Vec<CodeLine>, Stop>
    ensures { Gives (λ x. x.items) result (lines.lines_of bytes.now items.now) }
{
    let mut found = Vec::new(alloc);
    let mut rest = items;
    while let [item, tail @ ..] = rest {
        match item_line(bytes, item) {
            Ok(Some(line)) => match found.push(line) {
                Ok(()) => rest = tail,
                Err(_) => return Err(Stop::Memory),
            },
            Ok(None) => rest = tail,
            Err(stop) => return Err(stop),
        }
    }
    Ok(found)
}
