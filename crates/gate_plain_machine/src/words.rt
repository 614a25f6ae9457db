//! Words of lines and of memory, and the bytes of an access in a word (RISC-V Unprivileged ISA 20191213,
//! section 2.6; where it leaves the byte order open, this machine is little endian).

use crate::buffer::Store;
use rv32_exec::Width;
use tl_types::LineSize;

/// Which of a word's four bytes, the one at its address first.
pub(crate) type Marks = [bool; 4];

/// The address of the aligned word that an address lies in.
pub(crate) fn word_of(address: u32) -> u32 {
    address - address % 4
}

/// The address of the line that an address lies in.
pub(crate) fn line_of(size: LineSize, address: u32) -> u32 {
    match size {
        LineSize::Bytes16 => address - address % 16,
        LineSize::Bytes64 => address - address % 64,
    }
}

/// How many lines lie below that of an address.
pub(crate) fn lines_below(size: LineSize, address: u32) -> u32 {
    match size {
        LineSize::Bytes16 => address / 16,
        LineSize::Bytes64 => address / 64,
    }
}

/// So many of the bytes from a place on, and 0 behind the last one.
pub(crate) fn bytes_at<const N: usize>(bytes: &[u8], place: usize) -> [u8; N] {
    let mut found = [0; N];
    if let Some(rest) = bytes.get(place..) {
        for (byte, kept) in found.iter_mut().zip(rest) {
            *byte = *kept;
        }
    }
    found
}

/// The marked bytes of a word are written to the bytes from a place on.
pub(crate) fn write_word(bytes: &mut [u8], place: usize, marks: Marks, word: [u8; 4]) {
    if let Some(rest) = bytes.get_mut(place..) {
        for (byte, (mark, written)) in rest.iter_mut().zip(marks.iter().zip(word.iter())) {
            if *mark {
                *byte = *written;
            }
        }
    }
}

/// The marked bytes of the upper word go over those of the lower one, where they are marked then, too.
pub(crate) fn overlay(
    marks: &mut Marks,
    bytes: &mut [u8; 4],
    upper_marks: Marks,
    upper_bytes: [u8; 4],
) {
    write_word(bytes, 0, upper_marks, upper_bytes);
    for (mark, upper) in marks.iter_mut().zip(upper_marks.iter()) {
        *mark = *mark || *upper;
    }
}

/// The bytes of an access in its word.
pub(crate) fn marks_of_access(address: u32, size: Width) -> Marks {
    let offset = address % 4;
    let mut marks = [false; 4];
    for (k, mark) in (0..4u32).zip(marks.iter_mut()) {
        *mark = k >= offset && k - offset < size.bytes();
    }
    marks
}

/// What an access reads, where the bytes of its word are these.
pub(crate) fn read_from(word: [u8; 4], address: u32, size: Width) -> u32 {
    let number = u32::from_le_bytes(word) >> (8 * (address % 4));
    match size {
        Width::Byte => number & 0xff,
        Width::Half => number & 0xffff,
        Width::Word => number,
    }
}

/// A store of a number, by the entry at this place of its hart's list.
pub(crate) fn store_of(address: u32, size: Width, value: u32, op: u32) -> Store {
    Store {
        word: word_of(address),
        mask: marks_of_access(address, size),
        value: (value << (8 * (address % 4))).to_le_bytes(),
        op,
    }
}
