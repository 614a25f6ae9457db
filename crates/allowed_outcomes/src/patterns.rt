//! Lines of what is allowed in which `*` stands for a number.

ghost use Rattle.std.specs.Prelude.{◌≡◌, ◌<◌, IfSome};
ghost use Rattle.std.specs.Option.{option_copied};
ghost use Rattle.allowed_outcomes.specs.Patterns as patterns;

/// What stands for a number.
pub(crate) const ANY: u8 = b'*';

/// Whether the byte may be one of a number: in decimal, or of a word's value (`0x0000000f`).
fn is_of_value(byte: u8) -> bool
    ensures { result ≡ patterns.is_of_value byte }
{
    matches!(byte, b'0'..=b'9' | b'a'..=b'f' | b'x')
}

/// The line behind the bytes of a number at its beginning.
fn behind_value(line: &[u8]) -> &[u8]
    ensures { result.now ≡ patterns.behind_value line.now }
{
    let mut rest = line;
    while let [b'0'..=b'9' | b'a'..=b'f' | b'x', tail @ ..] = rest {
        rest = tail;
    }
    rest
}

/// The line behind what the byte of a pattern stands for, if it begins with that.
fn behind(byte: u8, line: &[u8]) -> Option<&[u8]>
    ensures { option_copied result ≡ patterns.behind byte line.now }
{
    let [first, rest @ ..] = line else {
        return None;
    };
    if byte == ANY {
        if is_of_value(*first) {
            Some(behind_value(rest))
        } else {
            None
        }
    } else if byte == *first {
        Some(rest)
    } else {
        None
    }
}

/// Whether the line is as the pattern says.
#[tactic(auto, using(crate::proofs::Fitting::nothing_left))]
pub(crate) fn fits(pattern: &[u8], line: &[u8]) -> bool
    ensures { result ≡ patterns.fits pattern.now line.now }
{
    let mut left = line;
    let mut pattern = pattern;
    while let [byte, rest @ ..] = pattern {
        let Some(others) = behind(*byte, left) else {
            return false;
        };
        left = others;
        pattern = rest;
    }
    left.is_empty()
}
