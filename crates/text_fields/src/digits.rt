//! Hexadecimal digits.
ghost use Rattle.std.specs.Prelude.{◌≡◌, ◌<◌, false, IfSome};
ghost use Rattle.std.specs.Fmt.{digit_glyph};
ghost use Rattle.text_fields.specs.Fields.{word};
ghost use Rattle.text_fields.specs.Reading.{nibble_of};

/// What each byte is worth as a hexadecimal digit, 16 where it is none.
const VALUES: [u8; 256] = [
    16, 16, 16, 16, 16, 16, 16, 16, 16, 16, 16, 16, 16, 16, 16, 16, 16, 16, 16, 16, 16, 16, 16, 16,
    16, 16, 16, 16, 16, 16, 16, 16, 16, 16, 16, 16, 16, 16, 16, 16, 16, 16, 16, 16, 16, 16, 16, 16,
    0, 1, 2, 3, 4, 5, 6, 7, 8, 9, 16, 16, 16, 16, 16, 16, 16, 16, 16, 16, 16, 16, 16, 16, 16, 16,
    16, 16, 16, 16, 16, 16, 16, 16, 16, 16, 16, 16, 16, 16, 16, 16, 16, 16, 16, 16, 16, 16, 16, 10,
    11, 12, 13, 14, 15, 16, 16, 16, 16, 16, 16, 16, 16, 16, 16, 16, 16, 16, 16, 16, 16, 16, 16, 16,
    16, 16, 16, 16, 16, 16, 16, 16, 16, 16, 16, 16, 16, 16, 16, 16, 16, 16, 16, 16, 16, 16, 16, 16,
    16, 16, 16, 16, 16, 16, 16, 16, 16, 16, 16, 16, 16, 16, 16, 16, 16, 16, 16, 16, 16, 16, 16, 16,
    16, 16, 16, 16, 16, 16, 16, 16, 16, 16, 16, 16, 16, 16, 16, 16, 16, 16, 16, 16, 16, 16, 16, 16,
    16, 16, 16, 16, 16, 16, 16, 16, 16, 16, 16, 16, 16, 16, 16, 16, 16, 16, 16, 16, 16, 16, 16, 16,
    16, 16, 16, 16, 16, 16, 16, 16, 16, 16, 16, 16, 16, 16, 16, 16, 16, 16, 16, 16, 16, 16, 16, 16,
    16, 16, 16, 16, 16, 16, 16, 16, 16, 16, 16, 16, 16, 16,
];

const DIGITS: [u8; 16] = *b"0123456789abcdef";

#[inline(always)]
pub(crate) fn digit(nibble: u8) -> u8
    requires { nibble < 16 }
    ensures { result ≡ digit_glyph false nibble }
{
    DIGITS[nibble as usize]
}

/// An address or a word: 0x and eight digits.
#[inline(always)]
pub fn word_text(n: u32) -> [u8; 10]
    ensures { result ≡ word n }
{
    let [a, b, c, d] = n.to_be_bytes();
    [
        b'0',
        b'x',
        digit(a / 16),
        digit(a % 16),
        digit(b / 16),
        digit(b % 16),
        digit(c / 16),
        digit(c % 16),
        digit(d / 16),
        digit(d % 16),
    ]
}

/// What a byte is worth as a digit.
#[inline(always)]
#[tactic(auto, using(crate::proofs::Worths::some_value, crate::proofs::Worths::no_value))]
pub(crate) fn nibble_of(byte: u8) -> Option<u8>
    ensures value { result ≡ nibble_of byte }
    ensures below { IfSome result (λ n. n < 16) }
{
    let value = VALUES[byte as usize];
    if value < 16 { Some(value) } else { None }
}
