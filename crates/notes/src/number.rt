//! Numbers in a text.

use text_fields::word_at;

/// Whether this is a decimal number with a sign, or with a zero before it.
pub(crate) fn is_padded(word: &[u8]) -> bool {
    match word {
        [b'+' | b'-' | b'0', digits @ ..] => {
            !digits.is_empty() && digits.iter().all(|digit| digit.is_ascii_digit())
        }
        _ => false,
    }
}

/// A decimal number without a sign or a zero before it.
pub(crate) fn number_of(word: &[u8]) -> Option<u32> {
    if word.starts_with(b"+") || is_padded(word) {
        return None;
    }
    std::str::from_utf8(word).ok()?.parse().ok()
}

/// An address or a word: 0x and 8 lower-case digits.
pub(crate) fn address_of(word: &[u8]) -> Option<u32> {
    match word_at(word) {
        Some((address, [])) => Some(address),
        _ => None,
    }
}

/// Whether this is a hexadecimal digit as texts have it.
pub(crate) fn is_hexadecimal(byte: u8) -> bool {
    matches!(byte, b'0'..=b'9' | b'a'..=b'f')
}
