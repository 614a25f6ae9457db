//! Lines of both sizes, read and written.

use crate::same::same;
use backing_memory::Memory;
use elf_loader::{Image, raw, size_of_kib};
use std::process::Abort;
use tl_types::{LineData, LineSize};

/// The bytes of line `i`, which has to be there.
fn line_of(rt: &impl Abort, memory: &Memory, i: u32) -> LineData {
    assert!(rt; i < memory.line_count());
    memory.line(i)
}

/// Makes line `i` these bytes, as many as it has to have.
fn set(rt: &impl Abort, memory: &mut Memory, i: u32, line: LineData) {
    assert!(rt; i < memory.line_count());
    assert!(rt; line.size() == memory.line(i).size());
    memory.set_line(i, line);
}

/// An image of these first bytes. What was refused, in runs in which one allocation fails, is asked for again.
fn image_of(rt: &(impl Abort + AllocGlobal), bytes: &[u8], kib: u32) -> Image {
    let size = size_of_kib(kib).expect(rt, "a size");
    match raw(rt.alloc(), bytes, size) {
        Ok(image) => image,
        Err(_) => raw(rt.alloc(), bytes, size).expect(rt, "words again"),
    }
}

/// Memory of such an image, which is asked for again likewise.
fn memory_of(rt: &(impl Abort + AllocGlobal), bytes: &[u8], kib: u32, line: LineSize) -> Memory {
    let image = image_of(rt, bytes, kib);
    match Memory::new(rt.alloc(), &image, line) {
        Ok(memory) => memory,
        Err(_) => Memory::new(rt.alloc(), &image, line).expect(rt, "memory again"),
    }
}

static FIRST: [u8; 16] = [1, 2, 3, 4, 5, 6, 7, 8, 9, 10, 11, 12, 13, 14, 15, 16];

static SECOND: [u8; 16] = [17, 18, 19, 20, 0, 0, 0, 0, 0, 0, 0, 0, 0, 0, 0, 0];

fn has_short_lines(rt: &impl Abort, memory: &mut Memory) {
    same(rt, memory.line_count(), 256);
    same(rt, line_of(rt, memory, 0), LineData::Bytes16(FIRST));
    same(rt, line_of(rt, memory, 1), LineData::Bytes16(SECOND));
    same(rt, line_of(rt, memory, 255), LineData::Bytes16([0; 16]));
    same(rt, line_of(rt, memory, 255).size(), LineSize::Bytes16);
    set(rt, memory, 255, LineData::Bytes16(FIRST));
    same(rt, line_of(rt, memory, 255), LineData::Bytes16(FIRST));
    same(rt, line_of(rt, memory, 254), LineData::Bytes16([0; 16]));
    same(rt, memory.line_count(), 256);
}

#[test]
fn lines_of_16_bytes(rt: HostRuntime) {
    let words: [u8; 20] = [
        1, 2, 3, 4, 5, 6, 7, 8, 9, 10, 11, 12, 13, 14, 15, 16, 17, 18, 19, 20,
    ];
    has_short_lines(&rt, &mut memory_of(&rt, &words, 4, LineSize::Bytes16));
}

fn has_long_lines(rt: &impl Abort, memory: &mut Memory, first: [u8; 64], second: [u8; 64]) {
    same(rt, memory.line_count(), 128);
    same(rt, line_of(rt, memory, 0), LineData::Bytes64(first));
    same(rt, line_of(rt, memory, 1), LineData::Bytes64(second));
    let last = line_of(rt, memory, 127);
    same(rt, last.as_slice(), [0; 64].as_slice());
    set(rt, memory, 0, LineData::Bytes64(second));
    same(rt, line_of(rt, memory, 0), LineData::Bytes64(second));
    same(rt, line_of(rt, memory, 1), LineData::Bytes64(second));
}

#[test]
fn lines_of_64_bytes(rt: HostRuntime) {
    let mut words = [0u8; 68];
    words[63] = 0x63;
    words[64] = 0x64;
    let mut first = [0; 64];
    first[63] = 0x63;
    let mut second = [0; 64];
    second[0] = 0x64;
    let mut memory = memory_of(&rt, &words, 8, LineSize::Bytes64);
    has_long_lines(&rt, &mut memory, first, second);
}

/// Meant for runs in which one allocation fails: memory that was made takes no more.
#[test]
fn memory_is_taken_at_making_alone(rt: HostRuntime) {
    let mut memory = memory_of(&rt, &[1, 0, 0, 0], 4, LineSize::Bytes16);
    set(&rt, &mut memory, 3, LineData::Bytes16([7; 16]));
    same(&rt, line_of(&rt, &memory, 3), LineData::Bytes16([7; 16]));
}
