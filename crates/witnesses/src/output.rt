//! What a hart put out, read off its list.
ghost use Rattle.std.specs.Prelude.{◌≡◌, IfOk};
ghost use Rattle.std.specs.Option.{option_to_list};
ghost use Rattle.rv32_exec.specs.Meaning.{access_of};
ghost use Rattle.witnesses.specs.Outcomes.{number_out, output_from};

use hart::{Hart, Retired};
use rv32_decode::{Instr, decode};
use rv32_exec::{Call, Regs};
use std::alloc::{AllocError, Global};

/// The number that an instruction puts out.
fn put_out(instr: &Instr, regs: &Regs) -> Option<u32>
    ensures { option_to_list result ≡ number_out (access_of instr.now regs.now) }
{
    match Call::of(instr, regs) {
        Some(
            Call {
                number: Call::OUTPUT,
                argument,
            },
        ) => Some(argument),
        _ => None,
    }
}

/// The numbers that a hart puts out as it retires these entries, from where it stands.
pub(crate) fn output_of(
    alloc: Global,
    reset: &Hart,
    entries: &[Retired],
) -> Result<Vec<u32>, AllocError>
    ensures { IfOk result (λ output. output.items ≡ output_from reset.now entries.now) }
{
    let mut output = Vec::new(alloc);
    let mut hart = *reset;
    let mut rest = entries;
    while let [entry, tail @ ..] = rest {
        if let Some(instr) = decode(entry.word) {
            if let Some(number) = put_out(&instr, &hart.regs) {
                output.push(number)?;
            }
            hart.retire(entry, &instr);
        }
        rest = tail;
    }
    Ok(output)
}
