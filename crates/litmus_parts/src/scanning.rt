//! Stretches of text, keywords, and what has to stand somewhere.
ghost use Rattle.std.specs.Prelude.{◌≡◌, ℕ, List, map};
ghost use Rattle.std.specs.Option.{option_map};
ghost use Rattle.litmus_parts.specs.Scanning as scanning;
ghost use Rattle.litmus_parts.specs.Stops.{seen};

use crate::stop::{Cause, Stop};
use text_fields::after;
use text_words::{skip_blanks, split_word, symbol_at};

fn is_any(marks: &[u8], byte: u8) -> bool
    ensures { result ≡ scanning.is_any marks.now byte }
{
    marks.iter().any(|mark| *mark == byte)
}

/// What stands before the first of these marks, and from it on.
pub fn split_until<'a>(marks: &[u8], bytes: &'a [u8]) -> (&'a [u8], &'a [u8])
    ensures text { result.0.now ≡ scanning.until marks.now bytes.now }
    ensures rest { result.1.now ≡ scanning.from marks.now bytes.now }
{
    let mut length = 0;
    for byte in bytes {
        if is_any(marks, *byte) {
            break;
        }
        length += 1;
    }
    bytes.split_at(length)
}

/// Whether a word is this one.
pub fn is_same(wanted: &[u8], word: &[u8]) -> bool
    ensures { result ≡ scanning.is_same wanted.now word.now }
{
    matches!(after(wanted, word), Some([]))
}

/// What stands behind this word, which blanks may stand before.
#[tactic(auto, unfolding(crate::specs::Scanning::keyword_at))]
pub fn keyword_at<'a>(keyword: &[u8], bytes: &'a [u8]) -> Option<&'a [u8]>
    ensures { option_map (λ x. x.now) result ≡ scanning.keyword_at keyword.now bytes.now }
{
    let (word, rest) = split_word(skip_blanks(bytes));
    if is_same(keyword, word) {
        Some(rest)
    } else {
        None
    }
}

/// What stands behind this symbol, which has to stand here, behind blanks or not.
pub fn expect<'a>(symbol: &[u8], cause: Cause, bytes: &'a [u8]) -> Result<&'a [u8], Stop>
    ensures { seen (λ x. x.now) result ≡ scanning.expect symbol.now cause bytes.now }
{
    match symbol_at(symbol, bytes) {
        Some(rest) => Ok(rest),
        None => Err(Stop::at(cause, bytes)),
    }
}

/// What a word means by a table.
pub fn meaning_of<T: Copy>(table: &[(&[u8], T)], word: &[u8]) -> Option<T>
    ensures { result ≡ scanning.meaning_of (map {B = List ℕ × T} (λ e. (e.0.now, e.1)) table.now) word.now }
{
    for (text, meaning) in table {
        if is_same(text, word) {
            return Some(*meaning);
        }
    }
    None
}
