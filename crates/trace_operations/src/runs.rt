//! Whether lists of retired instructions are runs: each hart's own meaning of its instructions, whatever
//! the other harts do (chapters 2, 7 and 8).
ghost use Rattle.std.specs.Prelude.{◌≡◌, ◌&&◌};
ghost use Rattle.hart.specs.Size.{IsMemorySize};
ghost use Rattle.hart.specs.Run as spec;
ghost use Rattle.rv32_decode.specs.Rows.{decoded};
ghost use Rattle.memory_model.specs.Traces.{are_runs as spec_are_runs};

use hart::elf_loader::Image;
use hart::{Hart, Retired, Status, can_fetch};
use rv32_decode::{Instr, decode};
use trace_recorder::Trace;

/// Whether each hart's list and status are those of a run.
pub fn are_runs(trace: &Trace) -> bool
    ensures { result ≡ spec_are_runs trace.now.history }
{
    let harts = trace.harts();
    for id in 0..harts {
        let reset = Hart::at_reset(id as u8, trace.image().entry(), harts as u32);
        if !is_run(
            trace.image(),
            &reset,
            trace.entries(id),
            trace.statuses()[id],
        ) {
            return false;
        }
    }
    true
}

// Whether a hart's entries and status are those of a run from where it stands.
fn is_run(image: &Image, reset: &Hart, entries: &[Retired], status: Status) -> bool
    ensures { result
        ≡ (spec.are_steps image.now reset.now entries.now
        && spec.status_fits image.now (spec.reached reset.now entries.now) status) }
{
    let mut hart = *reset;
    let mut rest = entries;
    while let [entry, tail @ ..] = rest {
        let instr = decode(entry.word);
        if !is_step(image, &hart, entry, &instr) {
            return false;
        }
        retire(&mut hart, entry, &instr);
        rest = tail;
    }
    hart.status_fits(image, status)
}

/// Whether a hart can retire this entry, of this instruction.
pub(crate) fn is_step(image: &Image, hart: &Hart, entry: &Retired, instr: &Option<Instr>) -> bool
    requires { instr.now ≡ decoded entry.now.word }
    ensures { result ≡ spec.is_step image.now hart.now entry.now }
{
    hart.status.is_running()
        && entry.pc == hart.pc
        && can_fetch(image, hart.pc)
        && entry.word == image.word(hart.pc)
        && does(image.size(), hart, entry, instr)
}

// Whether the entry's instruction doesn't stop, and has the answers that its kind has.
fn does(size: u32, hart: &Hart, entry: &Retired, instr: &Option<Instr>) -> bool
    requires { IsMemorySize size }
    ensures { result ≡ spec.can_do size hart.now entry.now instr.now }
{
    match instr {
        Some(instr) => hart.stop_of(instr, size).is_none() && entry.has_answers(instr),
        None => false,
    }
}

/// The hart retires an entry of this instruction.
pub(crate) fn retire(hart: &mut Hart, entry: &Retired, instr: &Option<Instr>)
    requires { instr.now ≡ decoded entry.now.word }
    ensures { hart.new ≡ spec.after hart.old entry.now }
{
    if let Some(instr) = instr {
        hart.retire(entry, instr);
    }
}
