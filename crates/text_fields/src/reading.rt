//! Readers of fields: each answers the value and the bytes after it.
ghost use Rattle.std.specs.Prelude.{◌≡◌, ◌≤◌, length, IfSome};
ghost use Rattle.std.specs.Option.{option_map};
ghost use Rattle.text_fields.specs.Reading as reads;

use crate::digits::nibble_of;

/// What stands after this text.
#[inline(always)]
#[tactic(auto, using(crate::proofs::Laws::after_short))]
pub fn after<'a>(text: &[u8], bytes: &'a [u8]) -> Option<&'a [u8]>
    ensures { option_map (λ x. x.now) result ≡ reads.after text.now bytes.now }
{
    // So that no byte of the text asks again whether one is left.
    if bytes.len() < text.len() {
        return None;
    }
    let mut wanted = text;
    let mut rest = bytes;
    while let [first, others @ ..] = wanted {
        match rest {
            [byte, tail @ ..] if *byte == *first => rest = tail,
            _ => return None,
        }
        wanted = others;
    }
    Some(rest)
}

/// A number up to `most` with no leading zero, and the byte that ends it.
#[inline(always)]
#[tactic(auto, unfolding(crate::specs::Reading::number_at))]
pub fn number_at(bytes: &[u8], end: u8, most: u32) -> Option<(u32, &[u8])>
    ensures value { option_map (λ x. (x.0, x.1.now)) result ≡ reads.number_at end most bytes.now }
    ensures most { IfSome result (λ x. x.0 ≤ most) }
{
    match bytes {
        [b'0', tail @ ..] => {
            let rest = after(&[end], tail)?;
            Some((0, rest))
        }
        [first @ b'1'..=b'9', tail @ ..] if u32::from(*first - b'0') <= most => {
            number_on(tail, end, most, u32::from(*first - b'0'))
        }
        _ => None,
    }
}

#[tactic(auto, unfolding(crate::specs::Reading::number_on))]
fn number_on(bytes: &[u8], end: u8, most: u32, first: u32) -> Option<(u32, &[u8])>
    requires { first ≤ most }
    ensures value { option_map (λ x. (x.0, x.1.now)) result ≡ reads.number_on end most bytes.now first }
    ensures most { IfSome result (λ x. x.0 ≤ most) }
{
    let mut value = u64::from(first);
    let limit = u64::from(most);
    let mut rest = bytes;
    while let [byte, tail @ ..] = rest {
        if *byte == end {
            return Some((value as u32, tail));
        }
        if !byte.is_ascii_digit() {
            return None;
        }
        value = value * 10 + u64::from(*byte - b'0');
        if value > limit {
            return None;
        }
        rest = tail;
    }
    None
}

#[tactic(auto, unfolding(crate::specs::Reading::hex_byte_at))]
fn hex_byte_at(bytes: &[u8]) -> Option<(u8, &[u8])>
    ensures { option_map (λ x. (x.0, x.1.now)) result ≡ reads.hex_byte_at bytes.now }
{
    match bytes {
        [high, low, rest @ ..] => {
            let high = nibble_of(*high)?;
            let low = nibble_of(*low)?;
            Some((high * 16 + low, rest))
        }
        _ => None,
    }
}

/// As many bytes as there is room for, of two digits each.
pub fn hex_into<'a>(out: &mut [u8], bytes: &'a [u8]) -> Option<&'a [u8]>
    ensures { option_map (λ x. (out.new, x.now)) result ≡ reads.hex_at (length out.old) bytes.now }
{
    let mut rest = bytes;
    for i in 0..out.len() {
        let (byte, tail) = hex_byte_at(rest)?;
        out[i] = byte;
        rest = tail;
    }
    Some(rest)
}

/// An address or a word.
#[inline(always)]
#[tactic(auto, unfolding(crate::specs::Reading::word_at))]
pub fn word_at(bytes: &[u8]) -> Option<(u32, &[u8])>
    ensures { option_map (λ x. (x.0, x.1.now)) result ≡ reads.word_at bytes.now }
{
    let rest = after(b"0x", bytes)?;
    let mut number = [0; 4];
    let rest = hex_into(&mut number, rest)?;
    Some((u32::from_be_bytes(number), rest))
}
