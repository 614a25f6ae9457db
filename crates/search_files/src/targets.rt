//! The words of memory that are to be shown: what they are called, and where they lie.

ghost use Rattle.std.specs.Prelude.{◌≡◌, ◌<◌, ◌++◌, IfErr, IfOk, IfSome, OnOk, Some, length, map, position};
ghost use Rattle.search_files.specs.Targets.{AreAddressesOf, IsUnplaced, IsUnshown, beyond, is_plus, name_of, names_of, offset_place, place_behind, place_of, symbol_place};
ghost use Rattle.performed_words.specs.Words.{CanShow, CanShowEach};

use command_files::{Fault, Unshown, address_in};
use elf_loader::Image;
use elf_symbols::Symbols;
use exploration_text::WordName;
use performed_words::can_show;
use std::alloc::{AllocError, Global};

/// What lines call the words, and where they lie, both in the order of their asking.
#[derive(Drop)]
pub struct Targets<'a> {
    pub names: Vec<WordName<'a>>,
    pub addresses: Vec<u32>,
}

/// What a line calls the word that was given so: what is a number is an address, and all else a symbol.
fn name_of<'a>(word: &'a str) -> WordName<'a>
    ensures { result ≡ name_of word.entry }
{
    match address_in(word.as_bytes()) {
        Some(address) => WordName::Address(address),
        None => WordName::Symbol(word),
    }
}

/// Where the first `+` of a name is.
fn plus_in(name: &[u8]) -> Option<usize>
    ensures value { result ≡ position is_plus name.now }
    ensures inside { IfSome result (λ at. at < length name.now) }
{
    name.iter().position(|byte| *byte == b'+')
}

/// The sum, where it is an address.
fn beyond(start: u32, offset: u32) -> Option<u32>
    ensures { result ≡ beyond start offset }
{
    let place = start as u64 + offset as u64;
    if place <= u32::MAX as u64 {
        Some(place as u32)
    } else {
        None
    }
}

/// Where the word lies that is so many bytes behind a symbol.
fn place_behind(symbols: &Symbols, symbol: &[u8], offset: &[u8]) -> Option<u32>
    ensures { result ≡ place_behind symbols.now symbol.now offset.now }
{
    match (symbols.address_of(symbol), address_in(offset)) {
        (Some(start), Some(offset)) => beyond(start, offset),
        _ => None,
    }
}

/// Where the word lies that is called by a symbol and so many bytes, as `counter+4`.
fn offset_place(symbols: &Symbols, name: &[u8]) -> Option<u32>
    ensures { result ≡ offset_place symbols.now name.now }
{
    match plus_in(name) {
        Some(at) => place_behind(symbols, &name[..at], &name[at + 1..]),
        None => None,
    }
}

/// Where a symbol lies, or a word behind one. The whole name comes first, as a symbol's own may have a `+`.
fn symbol_place(symbols: &Symbols, name: &[u8]) -> Option<u32>
    ensures { result ≡ symbol_place symbols.now name.now }
{
    match symbols.address_of(name) {
        Some(address) => Some(address),
        None => offset_place(symbols, name),
    }
}

/// Where the word lies that is called so.
fn place_of(symbols: &Symbols, name: &WordName<'_>) -> Option<u32>
    ensures { result ≡ place_of symbols.now name.now }
{
    match name {
        WordName::Symbol(symbol) => symbol_place(symbols, symbol.as_bytes()),
        WordName::Address(address) => Some(*address),
    }
}

/// Where the word lies that was given so, if it can be shown.
fn shown_at<'a>(image: &Image, symbols: &Symbols, word: &'a str) -> Result<u32, Fault<'a>>
    ensures placed { IfOk result (λ address. place_of symbols.now (name_of word.entry) ≡ Some address) }
    ensures inside { IfOk result (CanShow image.now) }
    ensures told { IfErr result (IsUnplaced image.now symbols.now word.entry) }
{
    let Some(address) = place_of(symbols, &name_of(word)) else {
        let cause = Unshown::NoSymbol;
        return Err(Fault::CannotShow { word, cause });
    };
    if !can_show(image, address) {
        let cause = Unshown::NoWord;
        return Err(Fault::CannotShow { word, cause });
    }
    Ok(address)
}

/// Where the words lie, in their order.
fn places_of<'a>(
    alloc: Global,
    image: &Image,
    symbols: &Symbols,
    words: &[&'a str],
) -> Result<Vec<u32>, Fault<'a>>
    ensures placed { IfOk result (λ addresses. AreAddressesOf symbols.now words.now addresses.items) }
    ensures inside { IfOk result (λ addresses. CanShowEach image.now addresses.items) }
    ensures told { IfErr result (IsUnshown image.now symbols.now words.now) }
{
    let mut addresses = Vec::new(alloc);
    let mut rest = words;
    while let [first, tail @ ..] = rest {
        let address = shown_at(image, symbols, first)?;
        let Ok(()) = addresses.push(address) else {
            return Err(Fault::OutOfMemory);
        };
        rest = tail;
    }
    Ok(addresses)
}

/// What lines call the words, in their order.
fn labels_of<'a>(alloc: Global, words: &[&'a str]) -> Result<Vec<WordName<'a>>, AllocError>
    ensures { IfOk result (λ names. names.items ≡ names_of words.now) }
{
    let mut names = Vec::new(alloc);
    let mut rest = words;
    while let [first, tail @ ..] = rest {
        names.push(name_of(first))?;
        rest = tail;
    }
    Ok(names)
}

/// The words that are to be shown, if all of them can. Else the error is that the first that can't be is none of the
/// image's symbols, or that no aligned word of memory lies there; or that there was no memory.
pub fn targets_of<'a>(
    alloc: Global,
    image: &Image,
    symbols: &Symbols,
    words: &[&'a str],
) -> Result<Targets<'a>, Fault<'a>>
    ensures names { IfOk result (λ targets. targets.names.items ≡ names_of words.now) }
    ensures placed { IfOk result (λ targets. AreAddressesOf symbols.now words.now targets.addresses.items) }
    ensures inside { IfOk result (λ targets. CanShowEach image.now targets.addresses.items) }
    ensures told { IfErr result (IsUnshown image.now symbols.now words.now) }
{
    let addresses = places_of(alloc, image, symbols, words)?;
    let Ok(names) = labels_of(alloc, words) else {
        return Err(Fault::OutOfMemory);
    };
    Ok(Targets { names, addresses })
}
