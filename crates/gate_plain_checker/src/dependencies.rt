//! Dependencies through registers (chapter 14.1, "Syntactic Dependencies", and 14.3): what came from an
//! operation is carried forward through the registers, one flag for each of x0 to x31.
ghost use Rattle.std.specs.Prelude.{◌≡◌, ◌&&◌, slice_get};
ghost use Rattle.std.specs.Option.{option_to_list};
ghost use Rattle.rv32_exec.specs.Uses.{uses_of};
ghost use Rattle.memory_model.specs.Dependencies as spec;

use memory_model::Operation;
use rv32_decode::{Instr, Register};
use rv32_exec::{address_register, destination, is_steering, other_registers, stored_register};
use trace_operations::Items;
use trace_operations::accesses::precedes;

// The instruction that gave an operation.
fn instr_at(items: &Items, a: &Operation) -> Option<Instr>
    ensures { result ≡ spec.instr_in (slice_get items.now a.now.place) }
{
    items.get(a.place)?.instr()
}

// Whether a register, where there is one, holds it.
fn is_held(held: &[bool; 32], register: Option<Register>) -> bool
    ensures { result ≡ spec.holds held.now (option_to_list register) }
{
    match register {
        Some(register) => held[register.number() as usize],
        None => false,
    }
}

// Whether the address of an access holds it.
fn is_in_address(held: &[bool; 32], instr: &Instr) -> bool
    ensures { result ≡ spec.holds held.now (uses_of instr.now).address }
{
    is_held(held, address_register(instr))
}

// Whether the number that is stored holds it.
fn is_in_stored(held: &[bool; 32], instr: &Instr) -> bool
    ensures { result ≡ spec.holds held.now (uses_of instr.now).stored }
{
    is_held(held, stored_register(instr))
}

// Whether a register that the instruction reads otherwise holds it.
fn is_in_other(held: &[bool; 32], instr: &Instr) -> bool
    ensures { result ≡ spec.holds held.now (uses_of instr.now).other }
{
    let (first, second) = other_registers(instr);
    is_held(held, first) || is_held(held, second)
}

// Whether one of the instruction's sources holds it.
fn is_in_source(held: &[bool; 32], instr: &Instr) -> bool
    ensures { result ≡ spec.holds held.now (spec.sources (uses_of instr.now)) }
{
    is_in_address(held, instr) || is_in_stored(held, instr) || is_in_other(held, instr)
}

// Behind an instruction its destination holds what the flag says.
fn mark(held: &mut [bool; 32], flag: bool, instr: &Instr)
    ensures { held.new ≡ spec.with_flags held.old flag (uses_of instr.now).written }
{
    if let Some(register) = destination(instr) {
        held[register.number() as usize] = flag;
    }
}

// Behind an instruction its destination holds it exactly where a source did.
fn pass(held: &mut [bool; 32], instr: Option<Instr>)
    ensures { held.new ≡ spec.held_after held.old (spec.uses_in instr) }
{
    if let Some(instr) = instr {
        let flag = is_in_source(held, &instr);
        mark(held, flag, &instr);
    }
}

// Just behind an operation its destination alone holds it.
fn held_first(items: &Items, a: &Operation) -> [bool; 32]
    ensures { result ≡ spec.held_first (spec.uses_at items.now a.now) }
{
    let mut held = [false; 32];
    if let Some(instr) = instr_at(items, a) {
        mark(&mut held, true, &instr);
    }
    held
}

// Which registers hold what came from `a`, just before `b`.
fn held_at(items: &Items, a: &Operation, b: &Operation) -> [bool; 32]
    ensures { result ≡ spec.held_at items.now a.now b.now }
{
    let mut held = held_first(items, a);
    let mut rest = items.between(a, b);
    while let Some((item, tail)) = rest.split_first() {
        pass(&mut held, item.instr());
        rest = tail;
    }
    held
}

/// Whether what came from `a` is in the address of `b`.
pub(crate) fn has_address_dependency(items: &Items, a: &Operation, b: &Operation) -> bool
    ensures { result ≡ spec.has_address_dependency items.now a.now b.now }
{
    if !precedes(a, b) {
        return false;
    }
    match instr_at(items, b) {
        Some(instr) => is_in_address(&held_at(items, a, b), &instr),
        None => false,
    }
}

/// Whether what came from `a` is in the number that `b` stores.
pub(crate) fn has_data_dependency(items: &Items, a: &Operation, b: &Operation) -> bool
    ensures { result ≡ spec.has_data_dependency items.now a.now b.now }
{
    if !precedes(a, b) {
        return false;
    }
    match instr_at(items, b) {
        Some(instr) => is_in_stored(&held_at(items, a, b), &instr),
        None => false,
    }
}

// Whether it is a branch or a JALR on what the registers hold.
fn steers(held: &[bool; 32], instr: Option<Instr>) -> bool
    ensures { result
        ≡ (spec.steers instr && spec.holds held.now (spec.sources (spec.uses_in instr))) }
{
    match instr {
        Some(instr) => is_steering(&instr) && is_in_source(held, &instr),
        None => false,
    }
}

/// Whether a branch or a JALR between them depends on `a`.
pub(crate) fn has_control_dependency(items: &Items, a: &Operation, b: &Operation) -> bool
    ensures { result ≡ spec.has_control_dependency items.now a.now b.now }
{
    if !precedes(a, b) {
        return false;
    }
    let mut held = held_first(items, a);
    let mut rest = items.between(a, b);
    while let Some((item, tail)) = rest.split_first() {
        if steers(&held, item.instr()) {
            return true;
        }
        pass(&mut held, item.instr());
        rest = tail;
    }
    false
}

/// Whether an instruction between them has an address dependency on `a`; an SC that failed may have one.
pub(crate) fn has_dependent_address_between(items: &Items, a: &Operation, b: &Operation) -> bool
    ensures { result ≡ spec.has_dependent_address_between items.now a.now b.now }
{
    if !precedes(a, b) {
        return false;
    }
    let mut held = held_first(items, a);
    let mut rest = items.between(a, b);
    while let Some((item, tail)) = rest.split_first() {
        if addresses(&held, item.instr()) {
            return true;
        }
        pass(&mut held, item.instr());
        rest = tail;
    }
    false
}

fn addresses(held: &[bool; 32], instr: Option<Instr>) -> bool
    ensures { result ≡ spec.holds held.now (spec.uses_in instr).address }
{
    match instr {
        Some(instr) => is_in_address(held, &instr),
        None => false,
    }
}
