//! Memory as it was performed, beside an image with patches over it.
ghost use Rattle.std.specs.Prelude.{◌≡◌, ◌≢◌, ℕ, ◌+◌, ◌<◌, ◌≤◌, IfOk, Ok, false, length, slice_set, true};
ghost use Rattle.elf_loader.specs.Image as images;
ghost use Rattle.elf_loader.specs.Size.{base};
ghost use Rattle.flat_machine.specs.Memory.{patched};
ghost use Rattle.flat_model.specs.Flat.{byte_in};
ghost use Rattle.flat_model.specs.Shown.{HoldsPerformed};
ghost use Rattle.flat_model.specs.Operations.{stores_to, written_at};
ghost use Rattle.flat_model.specs.Order.{last_write};

use elf_loader::{BASE, Image};
use flat_machine::Patch;
use flat_model::memory_model::Operation;
use performed_words::byte_of;
use performed_words::trace_operations::Index;
use performed_words::trace_operations::accesses::writes;
use std::alloc::{AllocError, Global};
use trace_recorder::Trace;

/// A byte of memory is written, if there is one at this address.
fn write_byte(memory: &mut Vec<u8>, x: u64, byte: u8)
    ensures len { length memory.new.items ≡ length memory.old.items }
    ensures at { base ≤ x → x < base + length memory.old.items → byte_in memory.new.items x ≡ byte }
    ensures others { (y : ℕ) → base ≤ y → y ≢ x → byte_in memory.new.items y ≡ byte_in memory.old.items y }
{
    let first = u64::from(BASE);
    if first <= x && x - first < memory.len() as u64 {
        memory[(x - first) as usize] = byte;
    }
}

/// Memory as an operation leaves it.
fn perform(memory: &mut Vec<u8>, a: &Operation)
    ensures len { length memory.new.items ≡ length memory.old.items }
    ensures written { (x : ℕ) → base ≤ x → x < base + length memory.old.items → stores_to x a.now ≡ true → byte_in memory.new.items x ≡ written_at a.now x }
    ensures others { (x : ℕ) → base ≤ x → stores_to x a.now ≡ false → byte_in memory.new.items x ≡ byte_in memory.old.items x }
{
    if !writes(a.kind) {
        return;
    }
    for index in 0..u64::from(a.size) {
        write_byte(
            memory,
            u64::from(a.address) + index,
            byte_of(a.written, index),
        );
    }
}

/// Memory as the operations leave it.
fn performed(alloc: Global, image: &Image, order: &[Operation]) -> Result<Vec<u8>, AllocError>
    ensures len { IfOk result (λ memory. length memory.items ≡ length image.now.bytes) }
    ensures bytes { IfOk result (λ memory. (x : ℕ) → base ≤ x → x < images.end_of image.now → byte_in memory.items x ≡ last_write (images.byte_at image.now) order.now x) }
{
    let mut memory = Vec::new(alloc);
    memory.extend_from_slice(image.bytes())?;
    let mut rest = order;
    while let [first, tail @ ..] = rest {
        perform(&mut memory, first);
        rest = tail;
    }
    Ok(memory)
}

/// A patch is laid over the bytes, if its place is one of theirs.
fn lay_over(bytes: &mut Vec<u8>, patch: &Patch)
    ensures { bytes.new.items ≡ slice_set bytes.old.items patch.now.place patch.now.byte }
{
    let place = patch.place as usize;
    if place < bytes.len() {
        bytes[place] = patch.byte;
    }
}

/// The bytes where patches lie over them: the first patch of a place says what stands there.
fn patched_over(alloc: Global, bytes: &[u8], patches: &[Patch]) -> Result<Vec<u8>, AllocError>
    ensures { IfOk result (λ over. over.items ≡ patched bytes.now patches.now) }
{
    let mut over = Vec::new(alloc);
    over.extend_from_slice(bytes)?;
    for index in (0..patches.len()).rev() {
        lay_over(&mut over, &patches[index]);
    }
    Ok(over)
}

/// Whether memory, where each byte is the last one that was performed, as every copy of its line has it, is the image
/// with these patches over it. The operations are gone through once, and so are the patches.
pub(crate) fn holds_patches(
    alloc: Global,
    trace: &Trace,
    patches: &[Patch],
) -> Result<bool, AllocError>
    ensures holds { result ≡ Ok true → HoldsPerformed trace.now.history (patched trace.now.history.image.bytes patches.now) }
    ensures other { result ≡ Ok false → ¬ HoldsPerformed trace.now.history (patched trace.now.history.image.bytes patches.now) }
{
    let index = Index::new(alloc, trace, trace.performed())?;
    let memory = performed(alloc, trace.image(), index.order())?;
    let wanted = patched_over(alloc, trace.image().bytes(), patches)?;
    Ok(memory.as_slice() == wanted.as_slice())
}
