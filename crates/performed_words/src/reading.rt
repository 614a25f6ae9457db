//! What is read off a list of operations, and off a trace.
ghost use Rattle.std.specs.Prelude.{◌≡◌, ◌+◌, ◌/◌, ◌%◌, ◌^◌, ◌++◌, IfOk, IsTrue, OnOk, filter, map};
ghost use Rattle.elf_loader.specs.Image as images;
ghost use Rattle.flat_exploration.specs.Outcomes.{performed_word};
ghost use Rattle.trace_operations.specs.Operations as operations;
ghost use Rattle.trace_operations.specs.Order.{last_of, last_write};
ghost use Rattle.performed_words.specs.Behind.{word_behind};
ghost use Rattle.performed_words.specs.Words.{are_aligned};

use elf_loader::{BASE, Image};
use std::alloc::{AllocError, Global};
use trace_operations::Index;
use trace_operations::accesses::stores_to;
use trace_operations::memory_model::Operation;
use trace_operations::trace_recorder::Trace;

/// The last of these stores to the byte at this address.
fn last_store(order: &[Operation], x: u64) -> Option<Operation>
    ensures { result ≡ last_of (filter (operations.stores_to x) order.now) }
{
    let mut last = None;
    let mut rest = order;
    while let [first, tail @ ..] = rest {
        if stores_to(x, first) {
            last = Some(*first);
        }
        rest = tail;
    }
    last
}

/// One byte of a word, the lowest first; 0 behind its last.
pub fn byte_of(word: u32, index: u64) -> u8
    ensures { result ≡ word / 256 ^ index % 256 }
{
    match index {
        0 => (word % 256) as u8,
        1 => (word / 256 % 256) as u8,
        2 => (word / 65_536 % 256) as u8,
        3 => (word / 16_777_216) as u8,
        _ => 0,
    }
}

/// The image's byte; 0 outside memory.
fn image_byte(image: &Image, x: u64) -> u8
    ensures { result ≡ images.byte_at image.now x }
{
    let index = x.saturating_sub(u64::from(BASE)) as usize;
    match image.bytes().get(index) {
        Some(byte) => *byte,
        None => 0,
    }
}

/// The byte at this address behind these operations.
fn byte_behind(image: &Image, order: &[Operation], x: u64) -> u8
    ensures { result ≡ last_write (images.byte_at image.now) order.now x }
{
    match last_store(order, x) {
        Some(store) => byte_of(store.written, x.saturating_sub(u64::from(store.address))),
        None => image_byte(image, x),
    }
}

/// The word at this address behind these operations.
fn word_behind(image: &Image, order: &[Operation], address: u32) -> u32
    requires aligned { address % 4 ≡ 0 }
    ensures { result ≡ word_behind (images.byte_at image.now) order.now address }
{
    let first = u64::from(address);
    u32::from_le_bytes([
        byte_behind(image, order, first),
        byte_behind(image, order, first + 1),
        byte_behind(image, order, first + 2),
        byte_behind(image, order, first + 3),
    ])
}

fn push_words(
    image: &Image,
    order: &[Operation],
    addresses: &[u32],
    into: &mut Vec<u32>,
) -> Result<(), AllocError>
    requires aligned { IsTrue (are_aligned addresses.now) }
    ensures { OnOk result (into.new.items ≡ into.old.items ++ map (word_behind (images.byte_at image.now) order.now) addresses.now) }
{
    let mut rest = addresses;
    while let [first, tail @ ..] = rest {
        into.push(word_behind(image, order, *first))?;
        rest = tail;
    }
    Ok(())
}

/// The words at these addresses where each byte is the last one that was performed, as every copy of its line has it.
pub fn words_of(alloc: Global, trace: &Trace, addresses: &[u32]) -> Result<Vec<u32>, AllocError>
    requires aligned { IsTrue (are_aligned addresses.now) }
    ensures { IfOk result (λ words. words.items ≡ map (performed_word trace.now.history) addresses.now) }
{
    // The order is gone through only where something is asked for.
    if addresses.is_empty() {
        return Ok(Vec::new(alloc));
    }
    let index = Index::new(alloc, trace, trace.performed())?;
    let mut words = Vec::new(alloc);
    push_words(trace.image(), index.order(), addresses, &mut words)?;
    Ok(words)
}
