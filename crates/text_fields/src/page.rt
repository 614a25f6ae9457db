//! A page: text that is spelled before it goes out, so that a line has no exits and a writer gets many
//! lines at a time.
ghost use Rattle.std.specs.Prelude.{◌≡◌, ◌+◌, ◌*◌, ◌≤◌, [], ◌++◌, length, decimal, OnOk};
ghost use Rattle.text_fields.specs.Fields.{number, word, hex};
ghost use Rattle.text_fields.specs.Writing.{Writes};
ghost use Rattle.text_fields.specs.Pages.{size, HasLineRoom, Spells};

use crate::digits::{digit, word_text};
use crate::writing::put;
use itoa::Buffer;
use std::io::{Result, Write};
use std::marker::Model;

/// How many bytes a page holds.
const SIZE: usize = 4096;

/// No line is longer.
const LONGEST: usize = 256;

/// Bytes that have not gone out yet, at most 4096.
#[derive(Drop)]
pub struct Page {
    bytes: [u8; SIZE],
    len: usize,
}

impl Model for Page {
    ghost use Rattle.std.specs.Prelude.{◌≡◌, ℕ, List, ◌≤◌, length, take};

    ghost Value = { List ℕ };

    ghost view = { λ page. take page.len page.bytes };

    ghost invariant = { λ page. (page.len ≤ 4096) × (length page.bytes ≡ 4096) };
}

impl Page {
    /// An empty page.
    #[inline]
    pub fn new() -> Page
        ensures { result ≡ [] }
    {
        Page {
            bytes: [0; SIZE],
            len: 0,
        }
    }

    /// Appends these bytes.
    #[inline(always)]
    pub fn text(&mut self, text: &[u8])
        requires { length self.old + length text.now ≤ size }
        ensures value { self.new ≡ self.old ++ text.now }
        ensures len { length self.new ≡ length self.old + length text.now }
    {
        let end = self.len + text.len();
        self.bytes[self.len..end].copy_from_slice(text);
        self.len = end;
    }

    /// Appends a number in decimal, and the byte that ends it.
    #[inline]
    pub fn number(&mut self, n: u64, end: u8)
        requires { length self.old + 21 ≤ size }
        ensures value { self.new ≡ self.old ++ number end n }
        ensures len { length self.new ≤ length self.old + 21 }
    {
        if n < 10 {
            self.text(&[b'0' + n as u8, end]);
        } else {
            let mut digits = Buffer::new();
            self.text(digits.format(n).as_bytes());
            self.text(&[end]);
        }
    }

    /// Appends a number in decimal.
    #[inline]
    pub fn decimal(&mut self, n: u64)
        requires { length self.old + 20 ≤ size }
        ensures value { self.new ≡ self.old ++ decimal n }
        ensures len { length self.new ≤ length self.old + 20 }
    {
        let mut digits = Buffer::new();
        self.text(digits.format(n).as_bytes());
    }

    /// Appends an address or a word.
    #[inline(always)]
    pub fn word(&mut self, n: u32)
        requires { length self.old + 10 ≤ size }
        ensures value { self.new ≡ self.old ++ word n }
        ensures len { length self.new ≡ length self.old + 10 }
    {
        self.text(&word_text(n));
    }

    /// Appends two digits for each byte.
    pub fn hex(&mut self, bytes: &[u8])
        requires { length self.old + 2 * length bytes.now ≤ size }
        ensures value { self.new ≡ self.old ++ hex bytes.now }
        ensures len { length self.new ≡ length self.old + 2 * length bytes.now }
    {
        for byte in bytes {
            self.text(&[digit(*byte / 16), digit(*byte % 16)]);
        }
    }

    /// The bytes.
    pub fn as_slice(&self) -> &[u8]
        ensures { result.now ≡ self.now }
    {
        &self.bytes[..self.len]
    }

    /// Hands the bytes on, all of them. A write that takes no byte is a fault.
    pub fn hand_on<W: Write>(&mut self, out: &mut W) -> Result<()>
        ensures sent { Writes (W.contents out.old) (W.contents out.new) self.old result }
        ensures empty { OnOk result (self.new ≡ []) }
    {
        put(out, &self.bytes[..self.len])?;
        self.len = 0;
        Ok(())
    }

    /// Room for a line: where there is none, the bytes are handed on.
    #[inline(always)]
    pub fn make_room<W: Write>(&mut self, out: &mut W) -> Result<()>
        ensures sent { Spells (W.contents out.old) (W.contents out.new) self.old self.new [] result }
        ensures room { OnOk result (HasLineRoom self.new) }
    {
        if self.len > SIZE - LONGEST {
            self.hand_on(out)?;
        }
        Ok(())
    }
}
