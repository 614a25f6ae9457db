//! Rows of instructions that a hart does alone.
ghost use Rattle.std.specs.Prelude.{◌≡◌, ◌≤◌, IfOk, Some, None, if◌then◌else◌};
ghost use Rattle.rv32_exec.specs.Size.{IsMemorySize};
ghost use Rattle.hart.specs.Local.{IsPrivateRow, can_go_alone, is_done_alone, next_entry, next_step, private_row_from, with_effect};
ghost use Rattle.hart.specs.Run.{after};
ghost use Rattle.machine_types.specs.declared.limits.TheConstants.{MAX_ROW};
ghost use Rattle.rv32_exec.specs.Meaning.{effect_of};

use crate::retired::Retired;
use crate::state::Hart;
use rv32_decode::{Instr, decode};
use rv32_exec::elf_loader::Image;
use rv32_exec::{Action, finish, plan};
use std::alloc::{AllocError, Global};
use std::marker::Model;

/// At most [`MAX_ROW`](machine_types::MAX_ROW) retired instructions, none of which touches memory, fences or calls, with the hart that
/// they start from and the one that they lead to.
#[derive(Drop)]
pub struct Batch {
    first: Hart,
    last: Hart,
    entries: Vec<Retired>,
}

impl Model for Batch {
    ghost use Rattle.hart.specs.Local.{PrivateRow, IsPrivateRow};

    ghost Value = { PrivateRow };

    ghost view = { λ b. record { first = b.first; last = b.last; entries = b.entries.items } };

    ghost invariant = { λ b. IsPrivateRow (record { first = b.first; last = b.last; entries = b.entries.items }) };
}

impl Batch {
    /// The hart that the row starts from.
    pub fn first(&self) -> &Hart
        ensures first { result.now ≡ self.now.first }
        ensures row { IsPrivateRow self.now }
    {
        &self.first
    }

    /// The hart that it leads to.
    pub fn last(&self) -> &Hart
        ensures last { result.now ≡ self.now.last }
        ensures row { IsPrivateRow self.now }
    {
        &self.last
    }

    /// The retired instructions, the first one first.
    pub fn entries(&self) -> &[Retired]
        ensures entries { result.now ≡ self.now.entries }
        ensures row { IsPrivateRow self.now }
    {
        &self.entries
    }
}

/// What a hart does alone from here: the longest row of private instructions that don't stop, but no
/// more than `max`, which is from 1 to `MAX_ROW`. There are none where the hart isn't running.
pub fn run_local(alloc: Global, image: &Image, hart: &Hart, max: u32) -> Result<Batch, AllocError>
    requires some { 1 ≤ max }
    requires few { max ≤ MAX_ROW }
    ensures { IfOk result (λ batch. batch ≡ private_row_from image.now hart.now max) }
{
    let mut entries = Vec::new(alloc);
    let mut last = *hart;
    let mut room = max;
    while room > 0 {
        let Some(entry) = go_alone(image, &mut last) else {
            break;
        };
        entries.push(entry)?;
        room -= 1;
    }
    Ok(Batch {
        first: *hart,
        last,
        entries,
    })
}

/// The hart's next instruction and where the hart stands behind it, where it is private and doesn't stop.
pub fn next_alone(image: &Image, hart: &Hart) -> Option<(Retired, Hart)>
    ensures { result ≡ (if can_go_alone image.now hart.now then Some (next_step image.now hart.now) else None) }
{
    let mut next = *hart;
    let entry = go_alone(image, &mut next)?;
    Some((entry, next))
}

// The hart retires its next instruction, where that is private and doesn't stop; else it stays.
fn go_alone(image: &Image, hart: &mut Hart) -> Option<Retired>
    ensures entry { result ≡ (if can_go_alone image.now hart.old then Some (next_entry image.now hart.old) else None) }
    ensures hart { hart.new ≡ (if can_go_alone image.now hart.old then after hart.old (next_entry image.now hart.old) else hart.old) }
{
    if !hart.status.is_running() {
        return None;
    }
    if !image.has_word(hart.pc) {
        return None;
    }
    let word = image.word(hart.pc);
    let Some(instr) = decode(word) else {
        return None;
    };
    if !is_alone(&instr, hart, image.size()) {
        return None;
    }
    let entry = Retired {
        pc: hart.pc,
        word,
        loaded: None,
        sc_ok: None,
    };
    move_alone(&instr, hart);
    Some(entry)
}

fn is_alone(instr: &Instr, hart: &Hart, size: u32) -> bool
    requires { IsMemorySize size }
    ensures { result ≡ is_done_alone hart.now (Some instr.now) }
{
    match plan(instr, hart.pc, &hart.regs, size) {
        Action::Private => true,
        _ => false,
    }
}

// The hart passes an instruction that reads nothing and leaves it running.
fn move_alone(instr: &Instr, hart: &mut Hart)
    ensures { hart.new ≡ with_effect hart.old (effect_of instr.now hart.old.pc hart.old.regs 0) }
{
    hart.pc = finish(instr, hart.pc, &mut hart.regs, None);
}
