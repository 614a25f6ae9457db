//! The ELF header: the fields that a loader reads, by their places in the file.
ghost use Rattle.std.specs.Prelude.{◌≡◌, ◌+◌, ◌≤◌, not, IfErr, OnOk, find, length, Some, ℕ};
ghost use Rattle.std.specs.Bool.{OnTrue};
ghost use Rattle.elf_loader.specs.Elf.{half_at, long_at};
ghost use Rattle.elf_loader.specs.Header.{HasHeader};
ghost use Rattle.elf_loader.specs.Load.{first_fault, segment_faults, shows};

use crate::error::LoadError;
use crate::segment::{MAX_ENTRIES, ProgramHeader};
use byteorder::{ByteOrder, LittleEndian};

/// How many bytes the header has.
const HEADER_SIZE: usize = 52;

const EI_CLASS: usize = 4;

const EI_DATA: usize = 5;

const EI_VERSION: usize = 6;

const E_TYPE: usize = 16;

const E_MACHINE: usize = 18;

const E_VERSION: usize = 20;

pub const E_ENTRY: usize = 24;

pub const E_PHOFF: usize = 28;

const E_FLAGS: usize = 36;

const E_PHENTSIZE: usize = 42;

pub const E_PHNUM: usize = 44;

const MAGIC: [u8; 4] = *b"\x7fELF";

const ELFCLASS32: u8 = 1;

const ELFDATA2LSB: u8 = 1;

const EV_CURRENT: u8 = 1;

const ET_EXEC: u16 = 2;

const EM_RISCV: u16 = 243;

/// The two bytes at this place as a number.
pub fn half(file: &[u8], at: usize) -> u16
    requires { at + 2 ≤ length file.now }
    ensures { result ≡ half_at file.now at }
{
    LittleEndian::read_u16(&file[at..])
}

/// The four bytes at this place as a number.
pub fn long(file: &[u8], at: usize) -> u32
    requires { at + 4 ≤ length file.now }
    ensures { result ≡ long_at file.now at }
{
    LittleEndian::read_u32(&file[at..])
}

/// Answers the first fault that the header shows, in the order of `LoadError`.
pub fn check_header(file: &[u8]) -> Result<(), LoadError>
    ensures refused { IfErr result (λ fault. (size : ℕ) → first_fault file.now size ≡ Some fault) }
    ensures passed { OnOk result ((size : ℕ) → first_fault file.now size ≡ find (shows file.now size) segment_faults) }
    ensures table { OnOk result (HasHeader file.now) }
{
    if file.len() < HEADER_SIZE {
        return Err(LoadError::Short);
    }
    if !file.starts_with(&MAGIC) {
        return Err(LoadError::Magic);
    }
    if !has_class(file) {
        return Err(LoadError::Class);
    }
    if half(file, E_TYPE) != ET_EXEC {
        return Err(LoadError::FileType);
    }
    if half(file, E_MACHINE) != EM_RISCV {
        return Err(LoadError::Machine);
    }
    if long(file, E_FLAGS) != 0 {
        return Err(LoadError::Flags);
    }
    if !has_table(file) {
        return Err(LoadError::HeaderTable);
    }
    Ok(())
}

/// Whether the file is a 32-bit, little-endian one of the current version.
fn has_class(file: &[u8]) -> bool
    requires { 52 ≤ length file.now }
    ensures { (size : ℕ) → shows file.now size LoadError.Class ≡ not result }
{
    file[EI_CLASS] == ELFCLASS32
        && file[EI_DATA] == ELFDATA2LSB
        && file[EI_VERSION] == EV_CURRENT
        && long(file, E_VERSION) == u32::from(EV_CURRENT)
}

/// Whether the program header table has entries of the right size, at most 16, all in the file.
fn has_table(file: &[u8]) -> bool
    requires { 52 ≤ length file.now }
    ensures exact { (size : ℕ) → shows file.now size LoadError.HeaderTable ≡ not result }
    ensures table { OnTrue result (HasHeader file.now) }
{
    let entries = usize::from(half(file, E_PHNUM));
    let end = long(file, E_PHOFF) as usize + ProgramHeader::SIZE * entries;
    usize::from(half(file, E_PHENTSIZE)) == ProgramHeader::SIZE
        && entries <= MAX_ENTRIES
        && end <= file.len()
}
