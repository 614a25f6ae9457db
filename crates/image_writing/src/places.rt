//! Where a program's file has the bytes of its image.
ghost use Rattle.std.specs.Prelude.{◌≡◌, ◌+◌, ◌*◌, ◌≤◌, None, length, true};
ghost use Rattle.elf_loader.specs.Elf.{e_phnum, e_phoff, half_at, long_at, program_header_at};
ghost use Rattle.elf_loader.specs.Size.{base};
ghost use Rattle.image_writing.specs.Places as spec;

use byteorder::{ByteOrder, LittleEndian};
use elf_loader::BASE;

/// How many bytes an ELF file's header has.
const HEADER_SIZE: usize = 52;

const E_PHOFF: usize = 28;

const E_PHNUM: usize = 44;

/// How many bytes an entry of the program header table has.
const ENTRY_SIZE: usize = 32;

/// An entry that says where a segment of the file goes in memory.
const PT_LOAD: u32 = 1;

/// What a program's file is.
#[derive(Clone, Copy, Debug, PartialEq, Eq)]
pub enum Format {
    /// An ELF file.
    Elf,
    /// Bare words, the first of which stands at 0x80000000.
    Words,
}

/// The place in the file of an address's byte, if it has one.
pub(crate) fn place_of(format: Format, file: &[u8], address: u32) -> Option<usize>
    requires { base ≤ address }
    ensures { result ≡ spec.place_of format file.now address }
{
    match format {
        Format::Elf => place_in_segments(file, address),
        Format::Words => Some((address - BASE) as usize),
    }
}

fn place_in_segments(file: &[u8], address: u32) -> Option<usize>
    ensures { result ≡ spec.place_in_segments file.now address }
{
    if !has_table(file) {
        return None;
    }
    first_place(file, address)
}

/// Whether the file has an ELF file's header and the table that this names.
fn has_table(file: &[u8]) -> bool
    ensures { result ≡ spec.has_table file.now }
{
    file.len() >= HEADER_SIZE && table_end(file) <= file.len()
}

/// Where the program header table ends.
fn table_end(file: &[u8]) -> usize
    requires { 52 ≤ length file.now }
    ensures { result ≡ e_phoff file.now + 32 * e_phnum file.now }
{
    let entries = usize::from(half(file, E_PHNUM));
    long(file, E_PHOFF) as usize + ENTRY_SIZE * entries
}

/// By the first segment that has the byte in the file.
fn first_place(file: &[u8], address: u32) -> Option<usize>
    requires header { 52 ≤ length file.now }
    requires table { e_phoff file.now + 32 * e_phnum file.now ≤ length file.now }
    ensures { result ≡ spec.place_from file.now address 0 (e_phnum file.now) }
{
    let table = long(file, E_PHOFF) as usize;
    let count = usize::from(half(file, E_PHNUM));
    let mut entry: usize = 0;
    while entry < count {
        if let Some(place) = place_by(file, table + ENTRY_SIZE * entry, address) {
            return Some(place);
        }
        entry += 1;
    }
    None
}

/// By the entry of the table at this place.
fn place_by(file: &[u8], at: usize, address: u32) -> Option<usize>
    requires { at + 32 ≤ length file.now }
    ensures { result ≡ spec.place_by address (program_header_at file.now at) None }
{
    let offset = long(file, at + 4);
    let first = long(file, at + 8);
    let end = u64::from(first) + u64::from(long(file, at + 16));
    if long(file, at) == PT_LOAD && first <= address && u64::from(address) < end {
        return Some(offset as usize + (address - first) as usize);
    }
    None
}

/// The two bytes at this place as a number.
fn half(file: &[u8], at: usize) -> u16
    requires { at + 2 ≤ length file.now }
    ensures { result ≡ half_at file.now at }
{
    LittleEndian::read_u16(&file[at..])
}

/// The four bytes at this place as a number.
fn long(file: &[u8], at: usize) -> u32
    requires { at + 4 ≤ length file.now }
    ensures { result ≡ long_at file.now at }
{
    LittleEndian::read_u32(&file[at..])
}
