//! Each hart's retired instructions, with the memory operations that they gave (chapter 14.1, "Memory Model
//! Primitives").
ghost use Rattle.std.specs.Prelude.{◌≡◌, ◌≤◌, ◌*◌, ◌%◌, ◌^◌, ◌&&◌, ◌==◌, IfOk, Some, false, if◌then◌else◌, is_some, length, slice_get, slice_index, true};
ghost use Rattle.std.specs.Option.{IfSome, option_copied};
ghost use Rattle.machine_types.specs.declared.limits.TheConstants.{MAX_ENTRIES};
ghost use Rattle.memory_model.specs.Rules as rules;
ghost use Rattle.hart.specs.Run as run;
ghost use Rattle.rv32_decode.specs.Decoding.{amo_of};
ghost use Rattle.hart.specs.Arithmetic as arithmetic;
ghost use Rattle.hart.specs.Meaning as meaning;
ghost use Rattle.memory_model.specs.Items as spec;
ghost use Rattle.memory_model.specs.Traces as traces;
ghost use Rattle.trace_operations.specs.Placed.{GivesOwn};

use crate::listed::Items;
use crate::runs::{is_step, retire};
use amo_unit::combine;
use hart::elf_loader::Image;
use hart::{Hart, Retired, Status};
use memory_model::{Kind, Operation};
use rv32_decode::{Annotations, Instr, LoadOp, Register, StoreOp, decode};
use std::alloc::{AllocError, Global};
use std::marker::Model;
use trace_recorder::Trace;

// The instructions of a hart's list.
fn items_of(alloc: Global, reset: &Hart, entries: &[Retired]) -> Result<Items, AllocError>
    requires { length entries.now ≤ MAX_ENTRIES }
    ensures { IfOk result (λ items. items ≡ spec.items_from 0 reset.now entries.now) }
{
    let mut hart = *reset;
    let mut items = Items::with_capacity(alloc, entries.len())?;
    for (place, entry) in entries.iter().enumerate() {
        let instr = decode(entry.word);
        items.push(entry.word, operation_in(place as u32, &hart, entry, &instr))?;
        retire(&mut hart, entry, &instr);
    }
    Ok(items)
}

// The instructions of a hart's list, where its entries and status are those of a run from where it stands.
fn run_of(
    alloc: Global,
    image: &Image,
    reset: &Hart,
    entries: &[Retired],
    status: Status,
) -> Result<Option<Items>, AllocError>
    requires { length entries.now ≤ MAX_ENTRIES }
    ensures runs { IfOk result (λ found. is_some found
        ≡ (run.are_steps image.now reset.now entries.now
        && run.status_fits image.now (run.reached reset.now entries.now) status)) }
    ensures items { IfOk result (λ found. IfSome found (λ items. items ≡ spec.items_from 0 reset.now entries.now)) }
{
    let mut hart = *reset;
    let mut items = Items::with_capacity(alloc, entries.len())?;
    for (place, entry) in entries.iter().enumerate() {
        let instr = decode(entry.word);
        if !is_step(image, &hart, entry, &instr) {
            return Ok(None);
        }
        items.push(entry.word, operation_in(place as u32, &hart, entry, &instr))?;
        retire(&mut hart, entry, &instr);
    }
    if !hart.status_fits(image, status) {
        return Ok(None);
    }
    Ok(Some(items))
}

// The operation of an entry, where it has one, its hart standing before it.
fn operation_in(
    place: u32,
    hart: &Hart,
    entry: &Retired,
    instr: &Option<Instr>,
) -> Option<Operation>
    ensures { result ≡ spec.operation_of_entry place hart.now entry.now instr.now }
{
    match instr {
        Some(instr) => operation_of(place, hart, entry, instr),
        None => None,
    }
}

/// Each hart's instructions.
pub struct Harts {
    lists: Vec<Items>,
    none: Items,
}

// A call of its own: derived, it would stand field by field in each function that owns one.
impl Drop for Harts {
    fn drop(self) {
        let Harts { lists: _, none: _ } = self;
    }
}

impl Model for Harts {
    ghost use Rattle.std.specs.Prelude.{◌≡◌, ℕ, List, []};
    ghost use Rattle.memory_model.specs.Items as spec;
    ghost use Rattle.memory_model.specs.Rules as rules;
    ghost use Rattle.trace_operations.specs.Placed.{GivesOwn};

    ghost Value = { List (List spec.Item) };

    ghost view = { λ h. h.lists.items };

    ghost invariant = { λ h. (h.none ≡ []) × ((hart : ℕ) → GivesOwn hart (rules.items_of h.lists.items hart)) };
}

impl Harts {
    /// Those of a trace.
    pub fn of(alloc: Global, trace: &Trace) -> Result<Harts, AllocError>
        ensures { IfOk result (λ harts. harts ≡ traces.instructions trace.now.history) }
    {
        Ok(Harts {
            lists: instructions(alloc, trace)?,
            none: Items::none(alloc),
        })
    }

    /// Those of a trace, where its lists are runs.
    pub fn of_runs(alloc: Global, trace: &Trace) -> Result<Option<Harts>, AllocError>
        ensures runs { IfOk result (λ found. is_some found ≡ traces.are_runs trace.now.history) }
        ensures all { IfOk result (λ found. IfSome found (λ harts. harts ≡ traces.instructions trace.now.history)) }
    {
        let Some(lists) = run_lists(alloc, trace)? else {
            return Ok(None);
        };
        Ok(Some(Harts {
            lists,
            none: Items::none(alloc),
        }))
    }

    /// The list of a hart; none where there is no such hart.
    pub fn get(&self, hart: u8) -> Option<&Items>
        ensures { option_copied result ≡ slice_get self.now hart }
    {
        self.lists.get(usize::from(hart))
    }

    /// Those of a hart; none where there is no such hart.
    pub fn items_of(&self, hart: u8) -> &Items
        ensures list { result.now ≡ rules.items_of self.now hart }
        ensures own { GivesOwn hart (rules.items_of self.now hart) }
    {
        match self.lists.get(usize::from(hart)) {
            Some(items) => items,
            None => &self.none,
        }
    }
}

fn instructions(alloc: Global, trace: &Trace) -> Result<Vec<Items>, AllocError>
    ensures { IfOk result (λ lists. lists.items ≡ traces.instructions trace.now.history) }
{
    let count = trace.harts();
    let mut lists = Vec::new(alloc);
    for id in 0..count {
        let reset = Hart::at_reset(id as u8, trace.image().entry(), count as u32);
        lists.push(items_of(alloc, &reset, trace.entries(id))?)?;
    }
    Ok(lists)
}

fn run_lists(alloc: Global, trace: &Trace) -> Result<Option<Vec<Items>>, AllocError>
    ensures runs { IfOk result (λ found. is_some found ≡ traces.are_runs trace.now.history) }
    ensures all { IfOk result (λ found. IfSome found (λ lists. lists.items ≡ traces.instructions trace.now.history)) }
{
    let count = trace.harts();
    let mut lists = Vec::new(alloc);
    for id in 0..count {
        let reset = Hart::at_reset(id as u8, trace.image().entry(), count as u32);
        let status = trace.statuses()[id];
        let Some(items) = run_of(alloc, trace.image(), &reset, trace.entries(id), status)? else {
            return Ok(None);
        };
        lists.push(items)?;
    }
    Ok(Some(lists))
}

/// Whether an entry has a memory operation. Most have another opcode than loads, stores and atomics.
pub(crate) fn has_operation(entry: &Retired) -> bool
    ensures { result ≡ spec.has_operation entry.now }
{
    match entry.word % 0x80 {
        0x03 => is_load(entry),
        0x23 => is_store(entry),
        0x2f => is_atomic(entry),
        _ => false,
    }
}

// The same of an entry with the opcode of loads, which needn't be decoded.
fn is_load(entry: &Retired) -> bool
    requires { entry.now.word % 128 ≡ 0x03 }
    ensures { result ≡ spec.has_operation entry.now }
{
    let funct3 = entry.word / 0x1000 % 8;
    funct3 < 6 && funct3 != 3
}

// The same of one with the opcode of stores.
#[tactic(auto, using(crate::proofs::Opcodes::store_told))]
fn is_store(entry: &Retired) -> bool
    requires { entry.now.word % 128 ≡ 0x23 }
    ensures { result ≡ spec.has_operation entry.now }
{
    entry.word / 0x1000 % 8 < 3
}

// The same of one with the opcode of atomics.
#[tactic(auto, using(crate::proofs::Opcodes::atomic_told))]
fn is_atomic(entry: &Retired) -> bool
    requires { entry.now.word % 128 ≡ 0x2f }
    ensures { result ≡ spec.has_operation entry.now }
{
    let funct3 = entry.word / 0x1000 % 8;
    let rs2 = entry.word / 0x10_0000 % 32;
    let funct5 = entry.word / 0x800_0000 % 32;
    funct3 == 2 && accesses(funct5, rs2, entry.sc_ok)
}

// Whether an atomic of this funct5 and rs2 is an LR, an AMO, or an SC that succeeded.
fn accesses(funct5: u32, rs2: u32, sc_ok: Option<bool>) -> bool
    ensures { result
        ≡ (if funct5 == 2 && rs2 == 0 then true else (if funct5 == 3 then spec.succeeded sc_ok else is_some (amo_of funct5))) }
{
    match funct5 {
        2 => rs2 == 0,
        3 => sc_ok.unwrap_or(false),
        0 | 1 | 4 | 8 | 12 | 16 | 20 | 24 | 28 => true,
        _ => false,
    }
}

// The operation of an instruction at this place of its hart's list.
fn operation_of(place: u32, hart: &Hart, entry: &Retired, instr: &Instr) -> Option<Operation>
    ensures { result ≡ spec.operation_of_entry place hart.now entry.now (Some instr.now) }
{
    match *instr {
        Instr::Load {
            op,
            rs1,
            offset,
            ..
        } => {
            let address = hart.regs.get(rs1).wrapping_add(offset.value());
            Some(load(place, hart.id, entry, op, address))
        }
        Instr::Store {
            op,
            rs1,
            rs2,
            offset,
        } => {
            let address = hart.regs.get(rs1).wrapping_add(offset.value());
            Some(store(place, hart.id, op, address, hart.regs.get(rs2)))
        }
        Instr::Lr { rs1, bits, .. } => Some(reserve(place, hart, entry, rs1, bits)),
        Instr::Sc { rs1, rs2, bits, .. } => conditional(place, hart, entry, rs1, rs2, bits),
        Instr::Amo {
            op,
            rs1,
            rs2,
            bits,
            ..
        } => {
            let written = combine(op, entry.number_read(), hart.regs.get(rs2));
            Some(update(place, hart, entry, rs1, bits, written))
        }
        _ => None,
    }
}

fn load(place: u32, hart: u8, entry: &Retired, op: LoadOp, address: u32) -> Operation
    ensures { result ≡ record { hart = hart; place = place; kind = Kind.Load; address = address; size = arithmetic.bytes_loaded op; read = run.number_read entry.now; written = 0; aq = false; rl = false } }
{
    Operation {
        hart,
        place,
        kind: Kind::Load,
        address,
        size: bytes_loaded(op),
        read: entry.number_read(),
        written: 0,
        aq: false,
        rl: false,
    }
}

// The register is cut to what is stored.
fn store(place: u32, hart: u8, op: StoreOp, address: u32, register: u32) -> Operation
    ensures { result ≡ record { hart = hart; place = place; kind = Kind.Store; address = address; size = arithmetic.bytes_stored op; read = 0; written = register % 2 ^ (8 * arithmetic.bytes_stored op); aq = false; rl = false } }
{
    Operation {
        hart,
        place,
        kind: Kind::Store,
        address,
        size: bytes_stored(op),
        read: 0,
        written: stored(op, register),
        aq: false,
        rl: false,
    }
}

fn reserve(place: u32, hart: &Hart, entry: &Retired, rs1: Register, bits: Annotations) -> Operation
    ensures { Some result ≡ spec.operation_of_access hart.now.id place bits entry.now (meaning.DoesLr (slice_index hart.now.regs rs1)) }
{
    let address = hart.regs.get(rs1);
    atomic(
        place,
        hart.id,
        bits,
        Kind::Lr,
        address,
        entry.number_read(),
        0,
    )
}

// None where it failed.
fn conditional(
    place: u32,
    hart: &Hart,
    entry: &Retired,
    rs1: Register,
    rs2: Register,
    bits: Annotations,
) -> Option<Operation>
    ensures { result ≡ spec.operation_of_access hart.now.id place bits entry.now (meaning.DoesSc (slice_index hart.now.regs rs1) (slice_index hart.now.regs rs2)) }
{
    if !entry.sc_ok.unwrap_or(false) {
        return None;
    }
    let (address, written) = (hart.regs.get(rs1), hart.regs.get(rs2));
    Some(atomic(place, hart.id, bits, Kind::Sc, address, 0, written))
}

fn update(
    place: u32,
    hart: &Hart,
    entry: &Retired,
    rs1: Register,
    bits: Annotations,
    written: u32,
) -> Operation
    ensures { result ≡ record { hart = hart.now.id; place = place; kind = Kind.Amo; address = slice_index hart.now.regs rs1; size = 4; read = run.number_read entry.now; written = written; aq = bits.acquire; rl = bits.release } }
{
    let address = hart.regs.get(rs1);
    atomic(
        place,
        hart.id,
        bits,
        Kind::Amo,
        address,
        entry.number_read(),
        written,
    )
}

// An LR, an SC that succeeded or an AMO.
fn atomic(
    place: u32,
    hart: u8,
    bits: Annotations,
    kind: Kind,
    address: u32,
    read: u32,
    written: u32,
) -> Operation
    ensures { result ≡ record { hart = hart; place = place; kind = kind; address = address; size = 4; read = read; written = written; aq = bits.acquire; rl = bits.release } }
{
    Operation {
        hart,
        place,
        kind,
        address,
        size: 4,
        read,
        written,
        aq: bits.acquire,
        rl: bits.release,
    }
}

fn bytes_loaded(op: LoadOp) -> u32
    ensures { result ≡ arithmetic.bytes_loaded op }
{
    match op {
        LoadOp::Lb | LoadOp::Lbu => 1,
        LoadOp::Lh | LoadOp::Lhu => 2,
        LoadOp::Lw => 4,
    }
}

fn bytes_stored(op: StoreOp) -> u32
    ensures { result ≡ arithmetic.bytes_stored op }
{
    match op {
        StoreOp::Sb => 1,
        StoreOp::Sh => 2,
        StoreOp::Sw => 4,
    }
}

// What a store writes of its register.
fn stored(op: StoreOp, register: u32) -> u32
    ensures { result ≡ register % 2 ^ (8 * arithmetic.bytes_stored op) }
{
    match op {
        StoreOp::Sb => register % 0x100,
        StoreOp::Sh => register % 0x1_0000,
        StoreOp::Sw => register,
    }
}
