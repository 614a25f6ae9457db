//! Sections of a file: where they lie and what they are.
ghost use Rattle.std.specs.Prelude.{◌≡◌, ◌+◌, ◌≤◌, length};
ghost use Rattle.std.specs.Option.{option_copied};
ghost use Rattle.elf_loader.specs.Elf as elf;
ghost use Rattle.elf_symbols.specs.Tables as tables;

use byteorder::{ByteOrder, LittleEndian};

/// A symbol table.
const SHT_SYMTAB: u32 = 2;

/// The two bytes at this place as a number.
pub fn half(bytes: &[u8], at: usize) -> u16
    requires { at + 2 ≤ length bytes.now }
    ensures { result ≡ elf.half_at bytes.now at }
{
    LittleEndian::read_u16(&bytes[at..])
}

/// The four bytes at this place as a number.
pub fn long(bytes: &[u8], at: usize) -> u32
    requires { at + 4 ≤ length bytes.now }
    ensures { result ≡ elf.long_at bytes.now at }
{
    LittleEndian::read_u32(&bytes[at..])
}

/// What a section header tells: `size` bytes of the file from `offset`, the index of a section that
/// belongs to it, and how many bytes each of its entries has.
#[derive(Clone, Copy, Debug)]
pub struct Section {
    pub kind: u32,
    pub offset: u32,
    pub size: u32,
    pub link: u32,
    pub entry_size: u32,
}

impl Section {
    /// How many bytes a header has.
    pub const SIZE: usize = 40;

    /// The section whose header is at this place of the file.
    pub fn read(file: &[u8], at: usize) -> Section
        requires { at + 40 ≤ length file.now }
        ensures { result ≡ tables.section_at file.now at }
    {
        Section {
            kind: long(file, at + 4),
            offset: long(file, at + 16),
            size: long(file, at + 20),
            link: long(file, at + 24),
            entry_size: long(file, at + 36),
        }
    }

    /// Whether it is a symbol table whose entries have 16 bytes.
    pub fn is_symbol_table(&self) -> bool
        ensures { result ≡ tables.is_symbol_table self.now }
    {
        self.kind == SHT_SYMTAB && self.entry_size == 16
    }

    /// Its bytes, where the file has them all.
    pub fn contents<'a>(&self, file: &'a [u8]) -> Option<&'a [u8]>
        ensures { option_copied result ≡ tables.contents file.now self.now }
    {
        let from = self.offset as usize;
        let end = from + self.size as usize;
        if end <= file.len() {
            Some(&file[from..end])
        } else {
            None
        }
    }
}
