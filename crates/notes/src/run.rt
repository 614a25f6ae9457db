//! Where a trace is no run.

use elf_loader::Image;
use hart::{Hart, Retired, can_fetch};
use rv32_decode::{Instr, decode};
use std::fmt::{self, Display, Formatter};
use trace_recorder::Trace;

/// Which hart of a trace that was refused as no run is the first that does not run its image, at which of
/// its R lines, counted from 0, and what is wrong there.
#[derive(Clone, Copy)]
pub struct RunNote<'a>(pub &'a Trace);

impl Display for RunNote<'_> {
    fn fmt<W: fmt::Write>(&self, f: &mut Formatter<W>) -> fmt::Result {
        let trace = self.0;
        let harts = trace.harts();
        for id in 0..harts {
            let mut hart = Hart::at_reset(id as u8, trace.image().entry(), harts as u32);
            for (place, entry) in trace.entries(id).iter().enumerate() {
                let next = match stepped(trace.image(), &hart, entry) {
                    Ok(next) => next,
                    Err(cause) => return write!(f, "hart {id}, R line {place}: {cause}"),
                };
                hart = next;
            }
            if !hart.status_fits(trace.image(), trace.statuses()[id]) {
                return write!(f, "hart {id}: its H line is not how its R lines end");
            }
        }
        Ok(())
    }
}

/// Why a hart can't retire an entry.
#[derive(Clone, Copy)]
enum Cause {
    Ended,
    Elsewhere { reached: u32, told: u32 },
    Outside { pc: u32 },
    AnotherWord { pc: u32, loaded: u32, told: u32 },
    Stops { pc: u32 },
    LoadedMissing,
    LoadedUnwanted,
    LoadedTooLarge,
    SuccessMissing,
    SuccessUnwanted,
}

impl Display for Cause {
    fn fmt<W: fmt::Write>(&self, f: &mut Formatter<W>) -> fmt::Result {
        match self {
            Cause::Ended => f.write_str("the hart has ended before"),
            Cause::Elsewhere { reached, told } => {
                write!(f, "the hart has reached 0x{reached:08x}, not 0x{told:08x}")
            }
            Cause::Outside { pc } => write!(f, "0x{pc:08x} is outside memory"),
            Cause::AnotherWord { pc, loaded, told } => {
                write!(
                    f,
                    "the image has 0x{loaded:08x} at 0x{pc:08x}, not 0x{told:08x}"
                )
            }
            Cause::Stops { pc } => write!(f, "the instruction at 0x{pc:08x} stops its hart"),
            Cause::LoadedMissing => f.write_str("LOADED is missing, and the instruction loads"),
            Cause::LoadedUnwanted => {
                f.write_str("LOADED is a number, and the instruction loads nothing")
            }
            Cause::LoadedTooLarge => {
                f.write_str("LOADED has more bytes than the instruction loads")
            }
            Cause::SuccessMissing => {
                f.write_str("`ok` or `fail` is missing, and the instruction is an SC")
            }
            Cause::SuccessUnwanted => {
                f.write_str("`ok` or `fail` is told, and the instruction is no SC")
            }
        }
    }
}

// The hart behind an entry that it retires.
fn stepped(image: &Image, hart: &Hart, entry: &Retired) -> Result<Hart, Cause> {
    let pc = hart.pc;
    if !hart.status.is_running() {
        return Err(Cause::Ended);
    }
    if entry.pc != pc {
        return Err(Cause::Elsewhere {
            reached: pc,
            told: entry.pc,
        });
    }
    if !can_fetch(image, pc) {
        return Err(Cause::Outside { pc });
    }
    let loaded = image.word(pc);
    if entry.word != loaded {
        return Err(Cause::AnotherWord {
            pc,
            loaded,
            told: entry.word,
        });
    }
    let Some(instr) = decode(entry.word) else {
        return Err(Cause::Stops { pc });
    };
    if hart.stop_of(&instr, image.size()).is_some() {
        return Err(Cause::Stops { pc });
    }
    if !entry.has_answers(&instr) {
        return Err(wrong_answer(entry, &instr));
    }
    let mut next = *hart;
    next.retire(entry, &instr);
    Ok(next)
}

// What of an entry is not the answer that its instruction gets.
fn wrong_answer(entry: &Retired, instr: &Instr) -> Cause {
    let loads = matches!(
        instr,
        Instr::Load { .. } | Instr::Lr { .. } | Instr::Amo { .. }
    );
    match (entry.loaded, loads) {
        (None, true) => return Cause::LoadedMissing,
        (Some(_), false) => return Cause::LoadedUnwanted,
        _ => {}
    }
    match (entry.sc_ok, matches!(instr, Instr::Sc { .. })) {
        (None, true) => Cause::SuccessMissing,
        (Some(_), false) => Cause::SuccessUnwanted,
        _ => Cause::LoadedTooLarge,
    }
}
