//! One name of an address.
ghost use Rattle.std.specs.Prelude.{◌≡◌, ◌==◌, ◌<◌, ◌≤◌, IfOk, IfSome, length, take, drop, position};
ghost use Rattle.std.specs.List.{list_all};
ghost use Rattle.std.specs.Option.{option_copied};
ghost use Rattle.elf_symbols.specs.Entries as entries;
ghost use Rattle.elf_symbols.specs.Short as short;

use crate::section::{half, long};
use std::alloc::{AllocError, Global};
use std::marker::Model;

/// The longest name that is read, in bytes.
const LONGEST: usize = 4_096;

/// The longest name that is told whole, in bytes: two fit a line.
const LONGEST_TOLD: usize = 56;

/// What a name that is told in part ends with.
const DOTS: [u8; 3] = *b"...";

/// How many bytes an entry of a symbol table has.
pub const ENTRY_SIZE: usize = 16;

const ST_NAME: usize = 0;

const ST_VALUE: usize = 4;

const ST_INFO: usize = 12;

const ST_SHNDX: usize = 14;

/// A function.
const STT_FUNC: u8 = 2;

/// Not defined in the file.
const SHN_UNDEF: u16 = 0;

/// From here on an index of a section is no section's.
const SHN_LORESERVE: u16 = 0xff00;

/// An address and its name, whole and as it is told.
#[derive(Debug, Drop)]
pub struct Symbol {
    address: u32,
    name: Vec<u8>,
    short: Vec<u8>,
}

impl Model for Symbol {
    ghost use Rattle.std.specs.Prelude.{◌≡◌};
    ghost use Rattle.elf_symbols.specs.Named.{Named};
    ghost use Rattle.elf_symbols.specs.Short.{short_name};

    ghost Value = { Named };

    ghost view = { λ symbol. record { address = symbol.address; name = symbol.name.items } };

    ghost invariant = { λ symbol. symbol.short.items ≡ short_name symbol.name.items };
}

/// Whether no byte is a control one.
fn is_shown(name: &[u8]) -> bool
    ensures { result ≡ list_all entries.is_shown name.now }
{
    name.iter().all(|byte| *byte >= b' ' && *byte != 0x7f)
}

/// How the names of the labels begin that an assembler makes.
const LOCAL_START: [u8; 2] = *b".L";

/// Whether a name is to be told: one or more bytes, none of them a control one; no mapping symbol's and no label's that
/// an assembler made.
fn is_told(name: &[u8]) -> bool
    ensures { result ≡ entries.is_told name.now }
{
    !name.is_empty() && name[0] != b'$' && !name.starts_with(&LOCAL_START) && is_shown(name)
}

/// The bytes from this place on.
fn behind(bytes: &[u8], at: usize) -> &[u8]
    ensures { result.now ≡ drop at bytes.now }
{
    if at < bytes.len() { &bytes[at..] } else { &[] }
}

/// The first bytes, at most so many.
fn front(bytes: &[u8], count: usize) -> &[u8]
    ensures { result.now ≡ take count bytes.now }
{
    if count < bytes.len() {
        &bytes[..count]
    } else {
        bytes
    }
}

/// Where the first zero stands.
fn zero_among(bytes: &[u8]) -> Option<usize>
    ensures value { result ≡ position (λ b. b == 0) bytes.now }
    ensures inside { IfSome result (λ place. place < length bytes.now) }
{
    bytes.iter().position(|byte| *byte == 0)
}

/// The name that begins at this place of a string table, where it can be told.
fn name_at(strings: &[u8], at: usize) -> Option<&[u8]>
    ensures { option_copied result ≡ entries.name_at strings.now at }
{
    let rest = behind(strings, at);
    let length = zero_among(front(rest, LONGEST + 1))?;
    let name = front(rest, length);
    if is_told(name) { Some(name) } else { None }
}

/// How many of the first bytes, at most so many, are whole characters.
#[tactic(auto, using(crate::proofs::Shortened::passed, crate::proofs::Shortened::stood, crate::proofs::Shortened::stood_first))]
fn whole_characters(name: &[u8], most: usize) -> usize
    requires { most < length name.now }
    ensures count { result ≡ short.whole_characters name.now most }
    ensures few { result ≤ most }
{
    let mut count = most;
    while count > 0 && name[count] / 64 == 2 {
        count -= 1;
    }
    count
}

/// A name as a line tells it: one of more than 56 bytes by its first characters.
fn short_name(alloc: Global, name: &[u8]) -> Result<Vec<u8>, AllocError>
    ensures { IfOk result (λ text. text.items ≡ short.short_name name.now) }
{
    if name.len() <= LONGEST_TOLD {
        return name.to_vec(alloc);
    }
    let count = whole_characters(name, LONGEST_TOLD - DOTS.len());
    let mut text = name[..count].to_vec(alloc)?;
    text.extend_from_slice(&DOTS)?;
    Ok(text)
}

/// Whether an entry is a function's, an object's or an untyped label's that lies in a section.
fn is_place(entry: &[u8]) -> bool
    requires { length entry.now ≡ 16 }
    ensures { result ≡ entries.is_place entry.now }
{
    let section = half(entry, ST_SHNDX);
    entry[ST_INFO] % 16 <= STT_FUNC && section != SHN_UNDEF && section < SHN_LORESERVE
}

impl Symbol {
    pub fn address(&self) -> u32
        ensures { result ≡ self.now.address }
    {
        self.address
    }

    pub fn name(&self) -> &[u8]
        ensures { result.now ≡ self.now.name }
    {
        &self.name
    }

    /// The name as a line tells it.
    pub fn short_name(&self) -> &[u8]
        ensures name { result.now ≡ short.short_name self.now.name }
        ensures short { length result.now ≤ 56 }
    {
        &self.short
    }

    /// What an entry of a symbol table names, by the strings that its names are in.
    pub fn read(alloc: Global, entry: &[u8], strings: &[u8]) -> Result<Option<Symbol>, AllocError>
        requires { length entry.now ≡ 16 }
        ensures { IfOk result (λ symbol. symbol ≡ entries.symbol_in entry.now strings.now) }
    {
        if !is_place(entry) {
            return Ok(None);
        }
        let Some(name) = name_at(strings, long(entry, ST_NAME) as usize) else {
            return Ok(None);
        };
        Ok(Some(Symbol {
            address: long(entry, ST_VALUE),
            name: name.to_vec(alloc)?,
            short: short_name(alloc, name)?,
        }))
    }
}
