//! Instructions as they stand behind R lines. Those spelled last are kept, so that one that is executed again
//! isn't spelled anew.
ghost use Rattle.std.specs.Prelude.{◌≡◌, ◌+◌, ◌<◌, ◌≤◌, ◌++◌, List, IfSome, Some, length, take};
ghost use Rattle.elf_symbols.specs.Named.{Named};
ghost use Rattle.event_stream.specs.Comments.{comment, commented};
ghost use Rattle.rv32_decode.specs.Rows.{decoded};
ghost use Rattle.text_fields.specs.Pages.{size};

use crate::naming::spell_instruction;
use elf_symbols::Symbols;
use rv32_decode::Instr;
use text_fields::Page;

/// How many instructions are kept.
const PLACES: usize = 64;

/// The longest text that is kept, in bytes.
const LONGEST: usize = 64;

/// How an instruction was spelled, by its address and its word.
#[derive(Clone, Copy)]
pub(crate) struct Kept {
    pc: u32,
    word: u32,
    bytes: [u8; LONGEST],
    len: usize,
    ghost short: { len ≤ 64 },
    ghost room: { length bytes ≡ 64 },
}

/// Instructions that were spelled, each at a place of its address.
#[derive(Drop)]
pub(crate) struct Disassembly {
    kept: [Option<Kept>; PLACES],
    ghost places: { length kept ≡ 64 },
}

/// Where an instruction at this address is kept.
fn place_of(pc: u32) -> usize
    ensures { result < 64 }
{
    pc as usize / 4 % PLACES
}

/// Appends an instruction at this address, behind a semicolon.
fn spell_comment(page: &mut Page, names: &Symbols, pc: u32, instr: &Instr)
    requires { length page.old + 190 ≤ size }
    ensures value { page.new ≡ page.old ++ comment names.now pc instr.now }
    ensures len { length page.new ≤ length page.old + 190 }
{
    page.text(b"; ");
    spell_instruction(page, names, pc, instr);
}

/// These bytes, as they are kept.
fn kept_of(pc: u32, word: u32, text: &[u8]) -> Kept
    requires { length text.now ≤ 64 }
    ensures pc { result.pc ≡ pc }
    ensures word { result.word ≡ word }
    ensures text { take result.len result.bytes ≡ text.now }
{
    let len = text.len();
    let mut bytes = [0; LONGEST];
    bytes[..len].copy_from_slice(text);
    Kept {
        pc,
        word,
        bytes,
        len,
    }
}

impl Disassembly {
    ghost use Rattle.event_stream.specs.Disassembly.{AreKept, IsKeptText};

    /// Nothing is kept.
    pub fn new() -> Disassembly
        ensures { (names : List Named) → AreKept names result }
    {
        Disassembly {
            kept: [None; PLACES],
        }
    }

    /// What stands behind the R line of an instruction, if that is kept.
    pub fn text(&self, pc: u32, word: u32) -> Option<&[u8]>
        ensures text { IfSome result (λ text. IsKeptText self.now pc word text.now) }
        ensures short { IfSome result (λ text. length text.now ≤ 64) }
    {
        match &self.kept[place_of(pc)] {
            Some(kept) if kept.pc == pc && kept.word == word => Some(&kept.bytes[..kept.len]),
            _ => None,
        }
    }

    /// Keeps what stands behind the R line of an instruction, unless it is too long.
    fn keep(&mut self, pc: u32, word: u32, text: &[u8])
        ensures { (names : List Named) → AreKept names self.old → commented names pc word ≡ Some text.now → AreKept names self.new }
    {
        if text.len() <= LONGEST {
            self.kept[place_of(pc)] = Some(kept_of(pc, word, text));
        }
    }

    /// Appends an instruction at this address behind a semicolon, and keeps that.
    pub fn spell(&mut self, page: &mut Page, names: &Symbols, pc: u32, word: u32, instr: &Instr)
        requires room { length page.old + 190 ≤ size }
        requires word { decoded word ≡ Some instr.now }
        requires kept { AreKept names.now self.old }
        ensures value { page.new ≡ page.old ++ comment names.now pc instr.now }
        ensures len { length page.new ≤ length page.old + 190 }
        ensures kept { AreKept names.now self.new }
    {
        let start = page.as_slice().len();
        spell_comment(page, names, pc, instr);
        self.keep(pc, word, &page.as_slice()[start..]);
    }
}
