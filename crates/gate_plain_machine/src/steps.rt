//! What a hart's next instruction comes to: each check in its order, and then the act.

use crate::buffer::Groups;
use crate::deciding::{Act, Deed, Plan};
use crate::hart_state::HartState;
use crate::words::{read_from, store_of, word_of, write_word};
use amo_unit::combine;
use bitflags::Flags;
use elf_loader::Image;
use hart::{Hart, Retired, Status};
use machine_types::{MemoryModel, Outcome};
use rv32_decode::{FenceSet, Instr, Register, SystemOp, decode};
use rv32_exec::{Action, Regs, Width, finish, plan, stop};

/// An instruction that a hart is about to retire.
#[derive(Clone, Copy)]
pub(crate) struct Fetched {
    pub word: u32,
    pub instr: Instr,
    /// What it will do.
    pub access: Action,
}

/// A running hart's next instruction, or what its step comes to without one: the hart has to run; then come
/// the stops.
pub(crate) fn fetch(image: &Image, hart: &Hart) -> Result<Fetched, Plan> {
    if !hart.status.is_running() {
        return Err(Plan::Stays(Outcome::Halted));
    }
    if !image.has_word(hart.pc) {
        return Err(Plan::Changes(Act::Stop(stop::FETCH_OUTSIDE)));
    }
    let word = image.word(hart.pc);
    let Some(instr) = decode(word) else {
        return Err(Plan::Changes(Act::Stop(stop::ILLEGAL)));
    };
    match plan(&instr, hart.pc, &hart.regs, image.size()) {
        Action::Stop(code) => Err(Plan::Changes(Act::Stop(code))),
        access => Ok(Fetched {
            word,
            instr,
            access,
        }),
    }
}

/// A release bit waits for all stores, and each access for those to its own word.
fn waits_for_stores(buffer: &Groups, instr: &Instr, word: u32) -> bool {
    let has_release = match instr {
        Instr::Lr { bits, .. } | Instr::Sc { bits, .. } | Instr::Amo { bits, .. } => bits.release,
        _ => false,
    };
    (has_release && !buffer.is_empty()) || buffer.has(word)
}

/// A write that is performed at once passes no sealed group, and under Ztso no store.
pub(crate) fn write_waits(model: MemoryModel, buffer: &Groups, instr: &Instr, word: u32) -> bool {
    match model {
        MemoryModel::Rvwmo => waits_for_stores(buffer, instr, word) || buffer.has_sealed(),
        MemoryModel::Ztso => !buffer.is_empty(),
    }
}

/// Whether a fence orders stores before loads, and whether it orders stores before stores.
fn orders_after_stores(instr: &Instr) -> (bool, bool) {
    match instr {
        Instr::Fence(sets) => {
            let writes_before = sets.before().contains(FenceSet::W);
            (
                writes_before && sets.after().contains(FenceSet::R),
                writes_before && sets.after().contains(FenceSet::W),
            )
        }
        Instr::FenceTso => (false, true),
        _ => (false, false),
    }
}

/// What an instruction waits for in its own hart's store buffer. A fence that orders stores before loads
/// waits until no store waits.
pub(crate) fn stall_of(
    model: MemoryModel,
    state: &HartState,
    fetched: &Fetched,
) -> Option<Outcome> {
    let buffer = &state.buffer;
    let instr = &fetched.instr;
    let must_drain = match fetched.access {
        Action::Store { addr, .. } if !buffer.fits(word_of(addr)) => {
            return Some(Outcome::BufferFull);
        }
        Action::Lr { addr } => waits_for_stores(buffer, instr, addr),
        // Without its reservation a store conditional fails at once.
        Action::Sc { addr, .. } => {
            state.reserved == Some(addr) && write_waits(model, buffer, instr, addr)
        }
        Action::Amo { addr, .. } => write_waits(model, buffer, instr, addr),
        Action::Fence => orders_after_stores(instr).0 && !buffer.is_empty(),
        _ => false,
    };
    if must_drain {
        Some(Outcome::MustDrain)
    } else {
        None
    }
}

/// What a load gives, where a byte that waits in the buffer wins over that of the word beneath.
fn loaded_by(buffer: &Groups, address: u32, size: Width, word: [u8; 4]) -> u32 {
    let (marks, waiting) = buffer.forwarded(word_of(address));
    let mut bytes = word;
    write_word(&mut bytes, 0, marks, waiting);
    read_from(bytes, address, size)
}

/// The number of an environment call, and its argument. 0 ends the hart, 1 puts a number out.
fn call_of(regs: &Regs) -> (u32, u32) {
    (regs.get(Register::new(17)), regs.get(Register::new(10)))
}

/// What an instruction does that orders or calls: a fence that orders stores before stores closes the open
/// group.
fn deed_aside(instr: &Instr, regs: &Regs) -> Deed {
    match (instr, call_of(regs)) {
        (Instr::System(SystemOp::Ecall), (0, _)) => Deed::Private,
        (Instr::System(SystemOp::Ecall), (_, argument)) => Deed::Output(argument),
        _ if orders_after_stores(instr).1 => Deed::Seal,
        _ => Deed::Private,
    }
}

/// The instruction retires, where nothing stands in its way. The word that it reads has these bytes.
pub(crate) fn retires(state: &HartState, fetched: &Fetched, word: [u8; 4]) -> Plan {
    let number = u32::from_le_bytes(word);
    let (loaded, sc_ok, deed) = match fetched.access {
        Action::Load {
            addr: address,
            size,
        } => {
            let is_covered = state.buffer.covers(address, size);
            let loaded = loaded_by(&state.buffer, address, size, word);
            let deed = Deed::Load {
                address,
                is_covered,
            };
            (Some(loaded), None, deed)
        }
        Action::Store { addr, size, value } => {
            let store = store_of(addr, size, value, state.place());
            (None, None, Deed::Store(store))
        }
        Action::Lr { addr } => (Some(number), None, Deed::Lr(addr)),
        Action::Sc { addr: word, value } if state.reserved == Some(word) => {
            (None, Some(true), Deed::Sc { word, value })
        }
        Action::Sc { .. } => (None, Some(false), Deed::Fail),
        Action::Amo {
            addr: word,
            op,
            operand,
        } => {
            let value = combine(op, number, operand);
            (Some(number), None, Deed::Amo { word, value })
        }
        _ => (None, None, deed_aside(&fetched.instr, &state.hart.regs)),
    };
    retires_as(state, fetched, loaded, sc_ok, deed)
}

/// What stands in the hart's list then is what the instruction loaded and whether its SC succeeded.
pub(crate) fn retires_as(
    state: &HartState,
    fetched: &Fetched,
    loaded: Option<u32>,
    sc_ok: Option<bool>,
    deed: Deed,
) -> Plan {
    let entry = Retired {
        pc: state.hart.pc,
        word: fetched.word,
        loaded,
        sc_ok,
    };
    let instr = fetched.instr;
    Plan::Changes(Act::Retire { entry, instr, deed })
}

/// The hart after it retired an entry. It runs on, but after an environment call of number 0, which ends it
/// with its argument modulo 256.
pub(crate) fn after_instr(hart: &Hart, entry: &Retired, instr: &Instr) -> Hart {
    // A store conditional reads 0 where it succeeded and 1 where it failed.
    let number_read = match entry.sc_ok {
        None => entry.loaded,
        Some(ok) => Some(u32::from(!ok)),
    };
    let mut regs = hart.regs;
    let pc = finish(instr, hart.pc, &mut regs, number_read);
    let status = match (instr, call_of(&hart.regs)) {
        (Instr::System(SystemOp::Ecall), (0, argument)) => Status::Exited((argument % 256) as u8),
        _ => Status::Running,
    };
    Hart {
        id: hart.id,
        pc,
        regs,
        status,
    }
}

/// The next entry of a running hart and the hart behind it, where it is of a private instruction that
/// doesn't stop.
pub(crate) fn next_alone(image: &Image, hart: &Hart) -> Option<(Retired, Hart)> {
    let Ok(fetched) = fetch(image, hart) else {
        return None;
    };
    if fetched.access != Action::Private {
        return None;
    }
    let entry = Retired {
        pc: hart.pc,
        word: fetched.word,
        loaded: None,
        sc_ok: None,
    };
    Some((entry, after_instr(hart, &entry, &fetched.instr)))
}
