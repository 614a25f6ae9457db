//! Numbers.
ghost use Rattle.std.specs.Prelude.{◌≡◌, ◌≤◌, ◌<◌, IfSome, min, ◌^◌};
ghost use Rattle.std.specs.Option.{option_map};
ghost use Rattle.text_words.specs.Numbers as numbers;

use crate::blanks::skip_blanks;
use crate::words::split_word;
use text_fields::after;

/// A number: one from -2^31 to 2^32 - 1 is a word of 32 bits.
#[derive(Clone, Copy, Debug, PartialEq, Eq)]
pub enum Number {
    /// The number modulo 2^32.
    Word(u32),
    /// No word of 32 bits has it.
    Wide,
}

/// No number is told apart from this one or from a greater one.
const MOST: u64 = 1 << 32;

/// What a byte is worth as a digit, 16 where it is none.
fn worth(byte: u8) -> u64
    ensures value { result ≡ numbers.worth byte }
    ensures most { result ≤ 16 }
{
    match byte {
        b'0'..=b'9' => u64::from(byte - b'0'),
        b'a'..=b'f' => u64::from(byte - b'a' + 10),
        b'A'..=b'F' => u64::from(byte - b'A' + 10),
        _ => 16,
    }
}

/// The number that these digits make, or `MOST` where it is more.
fn amount_on(base: u64, digits: &[u8]) -> Option<u64>
    requires some { 0 < base }
    requires few { base ≤ 16 }
    ensures value { result ≡ option_map (min (2 ^ 32)) (numbers.amount_on base digits.now 0) }
    ensures most { IfSome result (λ n. n ≤ 2 ^ 32) }
{
    let mut value = 0;
    for digit in digits {
        let worth = worth(*digit);
        if worth >= base {
            return None;
        }
        value = MOST.min(value * base + worth);
    }
    Some(value)
}

/// A number without a sign, or `MOST` where it is more.
#[tactic(auto, unfolding(crate::specs::Numbers::amount_of))]
fn amount_of(word: &[u8]) -> Option<u64>
    ensures value { result ≡ option_map (min (2 ^ 32)) (numbers.amount_of word.now) }
    ensures most { IfSome result (λ n. n ≤ 2 ^ 32) }
{
    match word {
        [] => None,
        [b'0', b'x' | b'X', digits @ ..] if !digits.is_empty() => amount_on(16, digits),
        _ => amount_on(10, word),
    }
}

/// The number of at most 2^32 and its like.
fn unsigned(amount: u64) -> Number
    requires { amount ≤ 2 ^ 32 }
    ensures { result ≡ numbers.unsigned amount }
{
    if amount < MOST {
        Number::Word(amount as u32)
    } else {
        Number::Wide
    }
}

fn negated(amount: u64) -> Number
    requires { amount ≤ 2 ^ 32 }
    ensures { result ≡ numbers.negated amount }
{
    if amount == 0 {
        Number::Word(0)
    } else if amount <= 1 << 31 {
        Number::Word((MOST - amount) as u32)
    } else {
        Number::Wide
    }
}

/// The number that a word is: decimal digits, or hexadecimal ones behind `0x`.
#[tactic(auto, unfolding(crate::specs::Numbers::number_of))]
pub fn number_of(word: &[u8]) -> Option<Number>
    ensures { result ≡ numbers.number_of word.now }
{
    let amount = amount_of(word)?;
    Some(unsigned(amount))
}

/// The number that a word is behind a minus.
#[tactic(auto, unfolding(crate::specs::Numbers::negated_of))]
pub fn negated_of(word: &[u8]) -> Option<Number>
    ensures { result ≡ numbers.negated_of word.now }
{
    let amount = amount_of(word)?;
    Some(negated(amount))
}

/// A number behind blanks, with a sign or without, and what stands behind it. A number from -2^31 to 2^32 - 1 is a word.
#[tactic(auto, unfolding(crate::specs::Numbers::signed_at))]
pub fn signed_at(bytes: &[u8]) -> Option<(Number, &[u8])>
    ensures { option_map (λ x. (x.0, x.1.now)) result ≡ numbers.signed_at bytes.now }
{
    let bytes = skip_blanks(bytes);
    match after(b"-", bytes) {
        Some(bytes) => {
            let (word, rest) = split_word(skip_blanks(bytes));
            let number = negated_of(word)?;
            Some((number, rest))
        }
        None => {
            let (word, rest) = split_word(bytes);
            let number = number_of(word)?;
            Some((number, rest))
        }
    }
}
