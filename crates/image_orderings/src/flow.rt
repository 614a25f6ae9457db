//! Where a hart may come to, as far as an image's words tell.
ghost use Rattle.std.specs.Prelude.{◌≡◌, ◌<◌, ◌/◌, ◌*◌, ◌+◌, ◌⊎◌, All, IfOk, None, Some, filter, length, option_map, replicate, slice_get, true};
ghost use Rattle.elf_loader.specs.Image.{HasWord, word_at};
ghost use Rattle.image_orderings.specs.Flow as spec;
ghost use Rattle.image_orderings.specs.Never.{NoneComes};
ghost use Rattle.rv32_decode.specs.Rows.{decoded};

use crate::knowing::{Known, Onward};
use elf_loader::{BASE, Image};
use rv32_decode::{Instr, decode};
use std::alloc::{AllocError, Global};

/// After so many sweeps that leave something out, a hart may come anywhere. A program needs about one more than its
/// jumps back are deep.
const MOST_SWEEPS: u8 = 64;

fn place_of(pc: u32) -> usize
    ensures { result ≡ spec.place_of pc }
{
    (pc.saturating_sub(BASE) / 4) as usize
}

/// What is known at a place, if memory has it.
fn at(table: &[Option<Known>], place: usize) -> Option<Option<Known>>
    ensures { result ≡ slice_get table.now place }
{
    table.get(place).copied()
}

fn decoded_at(image: &Image, pc: u32) -> Option<Instr>
    requires { HasWord image.now pc }
    ensures { result ≡ decoded (word_at image.now pc) }
{
    decode(image.word(pc))
}

// ---- sweeps

/// A hart may come there with what is known.
fn mark(table: &mut [Option<Known>], pc: u32, known: Known)
    ensures marked { table.new ≡ spec.marked table.old pc known }
    ensures size { length table.new ≡ length table.old }
{
    if pc % 4 != 0 {
        return;
    }
    let place = place_of(pc);
    let Some(have) = at(table, place) else {
        return;
    };
    table[place] = Some(known.joined(have));
}

fn mark_onward(table: &mut [Option<Known>], onward: Onward, known: Known)
    ensures marked { table.new ≡ spec.marked_onward table.old onward known }
    ensures size { length table.new ≡ length table.old }
{
    match onward {
        Onward::Nowhere | Onward::Anywhere => {}
        Onward::To(pc) => mark(table, pc, known),
        Onward::Either(pc, other) => {
            mark(table, pc, known);
            mark(table, other, known);
        }
    }
}

/// Marks where the word at a place leads, if a hart may come there.
fn mark_from(image: &Image, table: &mut [Option<Known>], place: usize)
    requires inside { place < length image.now.bytes / 4 }
    ensures flowed { table.new ≡ spec.flowed image.now place table.old }
    ensures size { length table.new ≡ length table.old }
{
    // Called for its clause that the bytes are an image's.
    let _size = image.size();
    let pc = BASE + 4 * place as u32;
    let Some(Some(known)) = at(table, place) else {
        return;
    };
    let Some(instr) = decoded_at(image, pc) else {
        return;
    };
    mark_onward(table, known.onward(pc, &instr), known.after(pc, &instr));
}

fn sweep(image: &Image, table: &mut [Option<Known>])
    requires size { length table.old ≡ length image.now.bytes / 4 }
    ensures swept { table.new ≡ spec.swept image.now 0 (length table.old) table.old }
    ensures size { length table.new ≡ length table.old }
{
    let mut place = 0;
    let mut left = table.len();
    while left > 0 {
        mark_from(image, table, place);
        place += 1;
        left -= 1;
    }
}

// ---- whether nothing is left out

fn covers(table: &[Option<Known>], pc: u32, known: Known) -> bool
    ensures { result ≡ spec.covers table.now pc known }
{
    if pc % 4 != 0 {
        return false;
    }
    match at(table, place_of(pc)) {
        Some(Some(have)) => have.is_within(known),
        Some(None) => false,
        None => true,
    }
}

fn covers_onward(table: &[Option<Known>], onward: Onward, known: Known) -> bool
    ensures { result ≡ spec.covers_onward table.now onward known }
{
    match onward {
        Onward::Nowhere => true,
        Onward::Anywhere => false,
        Onward::To(pc) => covers(table, pc, known),
        Onward::Either(pc, other) => covers(table, pc, known) && covers(table, other, known),
    }
}

/// Whether what follows the word at a place is in the table, if a hart may come there.
fn goes_on(image: &Image, table: &[Option<Known>], place: usize) -> bool
    requires inside { place < length image.now.bytes / 4 }
    ensures { result ≡ spec.goes_on image.now table.now place }
{
    // Called for its clause that the bytes are an image's.
    let _size = image.size();
    let pc = BASE + 4 * place as u32;
    let Some(Some(known)) = at(table, place) else {
        return true;
    };
    let Some(instr) = decoded_at(image, pc) else {
        return true;
    };
    covers_onward(table, known.onward(pc, &instr), known.after(pc, &instr))
}

fn each_goes_on(image: &Image, table: &[Option<Known>]) -> bool
    requires size { length table.now ≡ length image.now.bytes / 4 }
    ensures { result ≡ spec.each_goes_on image.now table.now (length table.now) }
{
    let mut place = table.len();
    while place > 0 {
        place -= 1;
        if !goes_on(image, table, place) {
            return false;
        }
    }
    true
}

fn is_closed(image: &Image, table: &[Option<Known>]) -> bool
    requires size { length table.now ≡ length image.now.bytes / 4 }
    ensures { result ≡ spec.is_closed image.now table.now }
{
    covers(table, image.entry(), Known::nothing()) && each_goes_on(image, table)
}

fn set_all(table: &mut [Option<Known>])
    ensures { table.new ≡ replicate (length table.old) (Some spec.nothing) }
{
    table.fill(Some(Known::nothing()));
}

fn close(image: &Image, table: &mut [Option<Known>])
    requires size { length table.old ≡ length image.now.bytes / 4 }
    ensures { table.new ≡ spec.closed_within 64 image.now table.old }
{
    let mut sweeps = MOST_SWEEPS;
    while sweeps > 0 {
        if is_closed(image, table) {
            return;
        }
        sweep(image, table);
        sweeps -= 1;
    }
    set_all(table);
}

/// For each word of memory, what is known where a hart comes there, if one may.
#[derive(Drop)]
pub struct Flow {
    pub table: Vec<Option<Known>>,
}

impl Flow {
    /// Of an image's instructions, which nothing changes. The only error is want of memory.
    pub fn of_image(alloc: Global, image: &Image) -> Result<Flow, AllocError>
        ensures { IfOk result (λ flow. flow.table.items ≡ spec.flow_table image.now) }
    {
        let mut table = vec![in alloc; None; image.size() as usize / 4]?;
        mark(&mut table, image.entry(), Known::nothing());
        close(image, &mut table);
        Ok(Flow { table })
    }

    /// Whether a hart may come to the word at an address.
    pub fn may_come_to(&self, address: u32) -> bool
        ensures { result ≡ spec.comes_by self.now.table.items address }
    {
        matches!(at(&self.table, place_of(address)), Some(Some(_)))
    }
}

/// To a word to which none may come no hart comes, whatever its loads read.
pub fn none_comes()
    ensures { NoneComes }
{}
