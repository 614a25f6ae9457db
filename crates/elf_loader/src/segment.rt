//! Program headers, and the segments that they describe.
ghost use Rattle.std.specs.Prelude.{◌≡◌, ◌+◌, ◌<◌, ◌≤◌, ℕ, false, length, slice_index};
ghost use Rattle.std.specs.List.{list_any};
ghost use Rattle.elf_loader.specs.Elf.{lies_outside, program_header_at, segments_of, share_address, some_overlap};
ghost use Rattle.elf_loader.specs.Placed.{byte_after};
ghost use Rattle.elf_loader.specs.Header.{HasHeader};

use crate::header::{E_PHNUM, E_PHOFF, half, long};
use arrayvec::ArrayVec;
use machine_types::BASE;

/// The most entries that a program header table may have.
pub const MAX_ENTRIES: usize = 16;

/// An entry that says where a segment of the file goes in memory.
const PT_LOAD: u32 = 1;

/// An entry of the program header table: `p_filesz` bytes of the file from `p_offset` stand at the
/// address `p_vaddr`, and zeros behind them up to `p_memsz` bytes.
#[derive(Clone, Copy, Default)]
pub struct ProgramHeader {
    pub p_type: u32,
    pub p_offset: u32,
    pub p_vaddr: u32,
    pub p_filesz: u32,
    pub p_memsz: u32,
}

impl ProgramHeader {
    /// How many bytes an entry has.
    pub const SIZE: usize = 32;

    /// The entry at this place of the file.
    fn read(file: &[u8], at: usize) -> ProgramHeader
        requires { at + 32 ≤ length file.now }
        ensures { result ≡ program_header_at file.now at }
    {
        ProgramHeader {
            p_type: long(file, at),
            p_offset: long(file, at + 4),
            p_vaddr: long(file, at + 8),
            p_filesz: long(file, at + 16),
            p_memsz: long(file, at + 20),
        }
    }

    /// Whether the segment needs more than a file of this length has, or lies outside memory of
    /// this size.
    pub fn lies_outside(&self, file_length: usize, size: u32) -> bool
        ensures { result ≡ lies_outside file_length size self.now }
    {
        let file_end = u64::from(self.p_offset) + u64::from(self.p_filesz);
        let end = u64::from(self.p_vaddr) + u64::from(self.p_memsz);
        self.p_filesz > self.p_memsz
            || file_end > file_length as u64
            || self.p_vaddr < BASE
            || end > u64::from(BASE) + u64::from(size)
    }

    /// Whether some address belongs to both segments.
    fn shares_address(&self, other: &ProgramHeader) -> bool
        ensures { result ≡ share_address self.now other.now }
    {
        let end = u64::from(self.p_vaddr) + u64::from(self.p_memsz);
        let other_end = u64::from(other.p_vaddr) + u64::from(other.p_memsz);
        u64::from(self.p_vaddr.max(other.p_vaddr)) < end.min(other_end)
    }

    fn shares_with_any(&self, others: &[ProgramHeader]) -> bool
        ensures { result ≡ list_any (share_address self.now) others.now }
    {
        others.iter().any(|other| self.shares_address(other))
    }

    /// Copies what the file has of the segment to its place in memory.
    pub fn copy_into(&self, memory: &mut [u8], file: &[u8])
        requires { lies_outside (length file.now) (length memory.old) self.now ≡ false }
        ensures { (k : ℕ) → slice_index memory.new k ≡ byte_after file.now memory.old self.now k }
    {
        let from = self.p_offset as usize;
        let to = (self.p_vaddr - BASE) as usize;
        let count = self.p_filesz as usize;
        memory[to..to + count].copy_from_slice(&file[from..from + count]);
    }
}

/// The file's loadable segments, in the table's order.
pub fn segments(file: &[u8]) -> ArrayVec<ProgramHeader, 16>
    requires { HasHeader file.now }
    ensures { result.items ≡ segments_of file.now }
{
    let table = long(file, E_PHOFF) as usize;
    let mut segments = ArrayVec::new();
    for k in 0..usize::from(half(file, E_PHNUM)) {
        let header = ProgramHeader::read(file, table + ProgramHeader::SIZE * k);
        if header.p_type == PT_LOAD {
            segments.push(header);
        }
    }
    segments
}

/// Whether one of the segments lies outside a file of this length or outside memory.
pub fn any_outside(segments: &[ProgramHeader], file_length: usize, size: u32) -> bool
    ensures { result ≡ list_any (lies_outside file_length size) segments.now }
{
    segments
        .iter()
        .any(|segment| segment.lies_outside(file_length, size))
}

/// Whether two of the segments share an address.
pub fn overlap(segments: &[ProgramHeader]) -> bool
    ensures { result ≡ some_overlap segments.now }
{
    let mut rest = segments;
    while let [segment, others @ ..] = rest {
        if segment.shares_with_any(others) {
            return true;
        }
        rest = others;
    }
    false
}
