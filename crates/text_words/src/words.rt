//! Words, symbols and names.
ghost use Rattle.std.specs.Prelude.{◌≡◌, ◌++◌, ◌≤◌, length};
ghost use Rattle.std.specs.Option.{option_map};
ghost use Rattle.text_words.specs.Words as words;

use crate::blanks::skip_blanks;
use crate::name::{LONGEST_NAME, Name};
use text_fields::after;

/// Whether a byte is one of a word: a letter, a digit, an underscore or a dot.
fn is_word_byte(byte: u8) -> bool
    ensures { result ≡ words.is_word_byte byte }
{
    byte.is_ascii_alphabetic() || byte.is_ascii_digit() || byte == b'_' || byte == b'.'
}

/// The bytes at the front that are of a word (letters, digits, underscores and dots; it may be none), and what stands
/// behind them.
pub fn split_word(bytes: &[u8]) -> (&[u8], &[u8])
    ensures word { result.0.now ≡ words.word bytes.now }
    ensures rest { result.1.now ≡ words.past_word bytes.now }
{
    let mut length = 0;
    for byte in bytes {
        if !is_word_byte(*byte) {
            break;
        }
        length += 1;
    }
    bytes.split_at(length)
}

/// What stands behind this symbol, which blanks may stand before.
pub fn symbol_at<'a>(symbol: &[u8], bytes: &'a [u8]) -> Option<&'a [u8]>
    ensures { option_map (λ x. x.now) result ≡ words.symbol_at symbol.now bytes.now }
{
    after(symbol, skip_blanks(bytes))
}

/// Whether a word can be a name: its first byte is a letter or an underscore, and it isn't too long.
pub fn is_name(word: &[u8]) -> bool
    ensures value { result ≡ words.is_name word.now }
{
    match word {
        [first, ..] => {
            (first.is_ascii_alphabetic() || *first == b'_') && word.len() <= LONGEST_NAME
        }
        [] => false,
    }
}

/// A name behind blanks, and what stands behind it: a word of at most 200 bytes that begins with a letter or an underscore.
#[tactic(auto, unfolding(crate::specs::Words::name_at))]
pub fn name_at(bytes: &[u8]) -> Option<(Name, &[u8])>
    ensures { option_map (λ x. (x.0, x.1.now)) result ≡ words.name_at bytes.now }
{
    let (word, rest) = split_word(skip_blanks(bytes));
    if is_name(word) {
        Some((Name::of(word), rest))
    } else {
        None
    }
}
