//! All names of a file, lowest address first.
ghost use Rattle.std.specs.Prelude.{◌≡◌, ◌+◌, ◌*◌, ◌≤◌, [], IfOk, IfSome, length, option_map};
ghost use Rattle.std.specs.List.Sorted.{IsNonDecreasingBy};
ghost use Rattle.std.specs.Option.{option_copied};
ghost use Rattle.elf_symbols.specs.Entries.{entry_at, symbols_in};
ghost use Rattle.elf_symbols.specs.Lookups as lookups;
ghost use Rattle.elf_symbols.specs.Named.{Named};
ghost use Rattle.elf_symbols.specs.Order.{by_address};
ghost use Rattle.elf_symbols.specs.Seen.{near_of};
ghost use Rattle.elf_symbols.specs.Symbols.{symbols_of};

use crate::symbol::{ENTRY_SIZE, Symbol};
use crate::tables::Tables;
use std::alloc::{AllocError, Global};
use std::marker::Model;

/// The names of addresses, lowest address first, those of one address in the order of the file's table.
/// Each has 1 to 4,096 bytes, none of them a control one.
#[derive(Debug, Drop)]
pub struct Symbols {
    list: Vec<Symbol>,
}

impl Model for Symbols {
    ghost use Rattle.std.specs.Prelude.{List};
    ghost use Rattle.std.specs.List.Sorted.{IsNonDecreasingBy};
    ghost use Rattle.elf_symbols.specs.Named.{Named};

    ghost Value = { List Named };

    ghost view = { λ symbols. symbols.list.items };

    ghost invariant = { λ symbols. IsNonDecreasingBy (λ (named : Named). named.address) symbols.list.items };
}

/// A name as a line tells it, of at most 56 bytes, and how many bytes behind its address an address lies.
#[derive(Clone, Copy, Debug)]
pub struct Place<'a> {
    pub name: &'a [u8],
    pub offset: u32,
}

/// The entry of this index.
fn entry_at(entries: &[u8], index: usize) -> &[u8]
    requires { 16 * index + 16 ≤ length entries.now }
    ensures entry { result.now ≡ entry_at entries.now index }
    ensures len { length result.now ≡ 16 }
{
    let from = ENTRY_SIZE * index;
    &entries[from..from + ENTRY_SIZE]
}

/// What a symbol table names, in its order.
fn table_symbols(alloc: Global, entries: &[u8], strings: &[u8]) -> Result<Vec<Symbol>, AllocError>
    ensures { IfOk result (λ list. list.items ≡ symbols_in entries.now strings.now) }
{
    let mut list = Vec::new(alloc);
    for index in 0..entries.len() / ENTRY_SIZE {
        if let Some(symbol) = Symbol::read(alloc, entry_at(entries, index), strings)? {
            list.push(symbol)?;
        }
    }
    Ok(list)
}

/// The last of these at or below an address.
fn last_below(list: &[Symbol], address: u32) -> Option<&Symbol>
    requires { IsNonDecreasingBy (λ (named : Named). named.address) list.now }
    ensures last { option_copied result ≡ lookups.last_below list.now address }
    ensures below { IfSome result (λ symbol. symbol.now.address ≤ address) }
{
    let count = list.partition_point(|symbol| symbol.address() <= address);
    if count == 0 {
        None
    } else {
        Some(&list[count - 1])
    }
}

impl Symbols {
    /// No names.
    pub fn new(alloc: Global) -> Symbols
        ensures { result ≡ [] }
    {
        Symbols {
            list: Vec::new(alloc),
        }
    }

    /// The names that a file's symbol table gives to functions, objects and untyped labels; none where the
    /// file is no ELF32 file or its tables aren't whole. The only error is want of memory.
    pub fn read(alloc: Global, file: &[u8]) -> Result<Symbols, AllocError>
        ensures { IfOk result (λ symbols. symbols ≡ symbols_of file.now) }
    {
        match Tables::find(file) {
            None => Ok(Symbols::new(alloc)),
            Some(tables) => {
                let list = table_symbols(alloc, tables.entries, tables.strings)?;
                Symbols::sorted(list)
            }
        }
    }

    /// These names, lowest address first.
    fn sorted(mut list: Vec<Symbol>) -> Result<Symbols, AllocError>
        ensures { IfOk result (λ symbols. symbols ≡ by_address list.items) }
    {
        list.sort_by_key(|symbol| symbol.address())?;
        Ok(Symbols { list })
    }

    /// The last name at or below an address.
    pub fn nearest(&self, address: u32) -> Option<Place<'_>>
        ensures place { option_map near_of result ≡ lookups.nearest self.now address }
        ensures short { IfSome result (λ place. length place.name.now ≤ 56) }
    {
        let symbol = last_below(&self.list, address)?;
        Some(Place {
            name: symbol.short_name(),
            offset: address - symbol.address(),
        })
    }

    /// The lowest address of this name.
    pub fn address_of(&self, name: &[u8]) -> Option<u32>
        ensures { result ≡ lookups.address_of self.now name.now }
    {
        let symbol = self.list.iter().find(|symbol| symbol.name() == name)?;
        Some(symbol.address())
    }
}
