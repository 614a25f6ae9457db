//! How an address is told by a name.
ghost use Rattle.std.specs.Prelude.{◌≡◌, ◌+◌, ◌≤◌, ◌++◌, length};
ghost use Rattle.elf_symbols.specs.Lookups.{nearest};
ghost use Rattle.elf_symbols.specs.Seen.{near_of};
ghost use Rattle.event_stream.specs.Naming as naming;
ghost use Rattle.text_fields.specs.Pages.{size};

use assembly::spell_assembly;
use elf_symbols::{Place, Symbols};
use rv32_decode::Instr;
use text_fields::{Page, word_text};

/// The digits without leading zeros.
fn without_zeros(digits: &[u8]) -> &[u8]
    ensures value { result.now ≡ naming.without_zeros digits.now }
    ensures len { length result.now ≤ length digits.now }
{
    let mut rest = digits;
    while let [b'0', others @ ..] = rest {
        rest = others;
    }
    rest
}

fn spell_short_hex(page: &mut Page, n: u32)
    requires { length page.old + 8 ≤ size }
    ensures value { page.new ≡ page.old ++ naming.short_hex n }
    ensures len { length page.new ≤ length page.old + 8 }
{
    let text = word_text(n);
    page.text(without_zeros(&text[2..]));
}

/// How far behind a name's address.
fn spell_distance(page: &mut Page, n: u32)
    requires { length page.old + 11 ≤ size }
    ensures value { page.new ≡ page.old ++ naming.distance n }
    ensures len { length page.new ≤ length page.old + 11 }
{
    if n != 0 {
        page.text(b"+0x");
        spell_short_hex(page, n);
    }
}

/// A name with the distance behind it.
fn spell_symbol(page: &mut Page, place: Place<'_>)
    requires room { length page.old + 67 ≤ size }
    requires short { length place.name.now ≤ 56 }
    ensures value { page.new ≡ page.old ++ naming.symbol (near_of place.entry) }
    ensures len { length page.new ≤ length page.old + 67 }
{
    page.text(place.name);
    spell_distance(page, place.offset);
}

/// An address by itself: by its name, or else its digits.
pub(crate) fn spell_address(page: &mut Page, names: &Symbols, address: u32)
    requires { length page.old + 67 ≤ size }
    ensures value { page.new ≡ page.old ++ naming.address names.now address }
    ensures len { length page.new ≤ length page.old + 67 }
{
    match names.nearest(address) {
        Some(place) => spell_symbol(page, place),
        None => page.word(address),
    }
}

fn spell_place(page: &mut Page, place: Place<'_>)
    requires room { length page.old + 69 ≤ size }
    requires short { length place.name.now ≤ 56 }
    ensures value { page.new ≡ page.old ++ naming.place (near_of place.entry) }
    ensures len { length page.new ≤ length page.old + 69 }
{
    page.text(b"<");
    spell_symbol(page, place);
    page.text(b">");
}

/// The name of an address, with a space behind it; without a name nothing.
fn spell_place_before(page: &mut Page, names: &Symbols, address: u32)
    requires { length page.old + 70 ≤ size }
    ensures value { page.new ≡ page.old ++ naming.place_before (nearest names.now address) }
    ensures len { length page.new ≤ length page.old + 70 }
{
    if let Some(place) = names.nearest(address) {
        spell_place(page, place);
        page.text(b" ");
    }
}

/// The name of an address behind a space.
fn spell_place_behind(page: &mut Page, names: &Symbols, address: u32)
    requires { length page.old + 70 ≤ size }
    ensures value { page.new ≡ page.old ++ naming.place_behind (nearest names.now address) }
    ensures len { length page.new ≤ length page.old + 70 }
{
    if let Some(place) = names.nearest(address) {
        page.text(b" ");
        spell_place(page, place);
    }
}

/// Where a JAL or a branch at this address leads.
fn target(instr: &Instr, pc: u32) -> Option<u32>
    ensures { result ≡ naming.target pc instr.now }
{
    match *instr {
        Instr::Jal { offset, .. } => Some(pc.wrapping_add(offset.value())),
        Instr::Branch { offset, .. } => Some(pc.wrapping_add(offset.value())),
        _ => None,
    }
}

/// Appends an instruction at this address, with the names of the address and of where it leads: at most
/// 188 bytes.
pub(crate) fn spell_instruction(page: &mut Page, names: &Symbols, pc: u32, instr: &Instr)
    requires { length page.old + 188 ≤ size }
    ensures value { page.new ≡ page.old ++ naming.instruction names.now pc instr.now }
    ensures len { length page.new ≤ length page.old + 188 }
{
    spell_place_before(page, names, pc);
    spell_assembly(page, instr, Some(pc));
    if let Some(address) = target(instr, pc) {
        spell_place_behind(page, names, address);
    }
}
