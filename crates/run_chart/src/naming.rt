//! How a picture tells an address by a name.
ghost use Rattle.std.specs.Prelude.{◌≡◌, ◌+◌, ◌≤◌, ◌++◌, IfSome, Some, length, option_map};
ghost use Rattle.elf_symbols.specs.Seen.{near_of};
ghost use Rattle.event_stream.specs.Naming as naming;
ghost use Rattle.run_chart.specs.Names as told;
ghost use Rattle.text_fields.specs.Pages.{size};

use crate::fitting::fitted;
use elf_symbols::{Place, Symbols};
use text_fields::{Page, word_text};
use tl_types::LineSize;

/// How many bytes of a name there is room for where it is told short.
const SHORT: usize = 12;

/// How a name is told.
#[derive(Clone, Copy)]
pub(crate) enum Manner {
    /// In place of the address, a long name by its first characters.
    Short,
    /// Behind the address, as `explain` tells it.
    Whole,
}

/// The names that the program has for addresses, and how large a line of memory is.
#[derive(Clone, Copy)]
pub(crate) struct Naming<'a> {
    pub symbols: &'a Symbols,
    pub size: LineSize,
}

/// The digits without leading zeros.
fn without_zeros(digits: &[u8]) -> &[u8]
    ensures value { result.now ≡ naming.without_zeros digits.now }
    ensures len { length result.now ≤ length digits.now }
{
    let mut rest = digits;
    while let [b'0', others @ ..] = rest {
        rest = others;
    }
    rest
}

fn spell_short_hex(page: &mut Page, n: u32)
    requires { length page.old + 8 ≤ size }
    ensures value { page.new ≡ page.old ++ naming.short_hex n }
    ensures len { length page.new ≤ length page.old + 8 }
{
    let text = word_text(n);
    page.text(without_zeros(&text[2..]));
}

/// How far behind a name's address.
fn spell_distance(page: &mut Page, n: u32)
    requires { length page.old + 11 ≤ size }
    ensures value { page.new ≡ page.old ++ naming.distance n }
    ensures len { length page.new ≤ length page.old + 11 }
{
    if n != 0 {
        page.text(b"+0x");
        spell_short_hex(page, n);
    }
}

fn spell_cut(page: &mut Page, name: &[u8])
    requires { length page.old + 12 ≤ size }
    ensures value { page.new ≡ page.old ++ told.short name.now }
    ensures len { length page.new ≤ length page.old + 12 }
{
    let (front, dots) = fitted(name, SHORT);
    page.text(front);
    page.text(dots);
}

fn spell_name(page: &mut Page, manner: Manner, name: &[u8])
    requires room { length page.old + 56 ≤ size }
    requires short { length name.now ≤ 56 }
    ensures value { page.new ≡ page.old ++ told.name manner name.now }
    ensures len { length page.new ≤ length page.old + 56 }
{
    match manner {
        Manner::Short => spell_cut(page, name),
        Manner::Whole => page.text(name),
    }
}

/// A name with the distance behind it.
fn spell_symbol(page: &mut Page, manner: Manner, place: Place<'_>)
    requires room { length page.old + 67 ≤ size }
    requires short { length place.name.now ≤ 56 }
    ensures value { page.new ≡ page.old ++ naming.symbol (told.near manner (near_of place.entry)) }
    ensures len { length page.new ≤ length page.old + 67 }
{
    spell_name(page, manner, place.name);
    spell_distance(page, place.offset);
}

fn spell_named(page: &mut Page, manner: Manner, address: u32, place: Place<'_>)
    requires room { length page.old + 78 ≤ size }
    requires short { length place.name.now ≤ 56 }
    ensures value { page.new ≡ page.old ++ told.named manner address (near_of place.entry) }
    ensures len { length page.new ≤ length page.old + 78 }
{
    match manner {
        Manner::Short => spell_symbol(page, manner, place),
        Manner::Whole => {
            page.word(address);
            page.text(b" ");
            spell_symbol(page, manner, place);
        }
    }
}

/// An address by itself: by its name, or else its digits.
pub(crate) fn spell_address(page: &mut Page, names: &Naming<'_>, manner: Manner, address: u32)
    requires { length page.old + 78 ≤ size }
    ensures value { page.new ≡ page.old ++ told.address manner names.now.symbols.now address }
    ensures len { length page.new ≤ length page.old + 78 }
{
    match names.symbols.nearest(address) {
        Some(place) => spell_named(page, manner, address, place),
        None => page.word(address),
    }
}

/// The name that lies at an address itself.
fn name_at(symbols: &Symbols, address: u32) -> Option<Place<'_>>
    ensures place { option_map near_of result ≡ told.name_at symbols.now address }
    ensures short { IfSome result (λ place. length place.name.now ≤ 56) }
{
    match symbols.nearest(address) {
        Some(place) if place.offset == 0 => Some(place),
        _ => None,
    }
}

/// The first name that lies in so many bytes from an address on.
#[tactic(auto, using(crate::proofs::Named::ended, crate::proofs::Named::met, crate::proofs::Named::passed))]
fn first_in(symbols: &Symbols, address: u32, bytes: u32) -> Option<Place<'_>>
    ensures place { option_map near_of result ≡ told.first_in symbols.now address bytes }
    ensures short { IfSome result (λ place. length place.name.now ≤ 56) }
{
    let mut at = address;
    let mut left = bytes;
    while left > 0 {
        if let Some(place) = name_at(symbols, at) {
            return Some(place);
        }
        at = at.wrapping_add(1);
        left -= 1;
    }
    None
}

/// A line of memory, by the first name that lies in it, or else its address.
pub(crate) fn spell_line(page: &mut Page, names: &Naming<'_>, manner: Manner, line: u32)
    requires { length page.old + 78 ≤ size }
    ensures value { page.new ≡ page.old ++ told.line manner names.now.symbols.now names.now.size line }
    ensures len { length page.new ≤ length page.old + 78 }
{
    match first_in(names.symbols, line, names.size.bytes()) {
        Some(place) => spell_named(page, manner, line, place),
        None => page.word(line),
    }
}

/// The name of an address to which an instruction leads, behind a space; without a name nothing.
pub(crate) fn spell_target(page: &mut Page, names: &Naming<'_>, manner: Manner, address: u32)
    requires { length page.old + 70 ≤ size }
    ensures value { page.new ≡ page.old ++ told.target_behind manner names.now.symbols.now (Some address) }
    ensures len { length page.new ≤ length page.old + 70 }
{
    if let Some(place) = names.symbols.nearest(address) {
        page.text(b" <");
        spell_symbol(page, manner, place);
        page.text(b">");
    }
}
