//! Where a file has its symbol table and the names in it.
ghost use Rattle.std.specs.Prelude.{◌≡◌, ◌+◌, ◌*◌, ◌<◌, ◌≤◌, ◌↔◌, IsTrue, true, length};
ghost use Rattle.elf_symbols.specs.Tables as tables;
ghost use Rattle.elf_symbols.specs.Seen.{parts_of};

use crate::section::{Section, half, long};

const HEADER_SIZE: usize = 52;

const E_SHOFF: usize = 32;

const E_SHENTSIZE: usize = 46;

const E_SHNUM: usize = 48;

/// How an ELF file for 32-bit little-endian machines begins.
const START: [u8; 6] = *b"\x7fELF\x01\x01";

/// A symbol table's bytes, and those of the strings that its names are in.
#[derive(Clone, Copy)]
pub struct Tables<'a> {
    pub entries: &'a [u8],
    pub strings: &'a [u8],
}

/// Whether the file is an ELF32 file with a whole table of sections.
fn has_sections(file: &[u8]) -> bool
    ensures { result ≡ tables.has_sections file.now }
{
    if file.len() < HEADER_SIZE || !file.starts_with(&START) {
        return false;
    }
    let end = long(file, E_SHOFF) as usize + Section::SIZE * usize::from(half(file, E_SHNUM));
    usize::from(half(file, E_SHENTSIZE)) == Section::SIZE && end <= file.len()
}

/// The section of this index.
fn section(file: &[u8], index: usize) -> Section
    requires table { tables.has_sections file.now ≡ true }
    requires inside { index < tables.e_shnum file.now }
    ensures { result ≡ tables.section file.now index }
{
    Section::read(file, long(file, E_SHOFF) as usize + Section::SIZE * index)
}

/// The first section that is a symbol table.
fn symbol_table(file: &[u8]) -> Option<Section>
    requires { tables.has_sections file.now ≡ true }
    ensures { result ≡ tables.symbol_table file.now }
{
    for index in 0..usize::from(half(file, E_SHNUM)) {
        let found = section(file, index);
        if found.is_symbol_table() {
            return Some(found);
        }
    }
    None
}

impl<'a> Tables<'a> {
    /// The file's tables, where it has both whole.
    pub fn find(file: &'a [u8]) -> Option<Tables<'a>>
        ensures { parts_of result ≡ tables.tables_of file.now }
    {
        if !has_sections(file) {
            return None;
        }
        let table = symbol_table(file)?;
        let names = table.link as usize;
        if names >= usize::from(half(file, E_SHNUM)) {
            return None;
        }
        let entries = table.contents(file)?;
        let strings = section(file, names).contents(file)?;
        Some(Tables { entries, strings })
    }
}
