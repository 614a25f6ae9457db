//! Addresses as they are given on the command line.
ghost use Rattle.std.specs.Prelude.{◌≡◌, ◌<◌, ◌≤◌};
ghost use Rattle.command_files.specs.Addresses as addresses;

/// What stands for no digit.
const NO_DIGIT: u8 = 99;

/// What a digit is worth, a letter of either case among them; 99 for what is none.
fn digit(byte: u8) -> u8
    ensures { result ≡ addresses.digit byte }
{
    if byte >= b'0' && byte <= b'9' {
        byte - b'0'
    } else if byte >= b'a' && byte <= b'f' {
        byte - b'a' + 10
    } else if byte >= b'A' && byte <= b'F' {
        byte - b'A' + 10
    } else {
        NO_DIGIT
    }
}

/// The number that goes on with a digit, if it is one and the number stays below 2^32.
fn next(radix: u32, value: u32, digit: u8) -> Option<u32>
    requires { radix ≤ 16 }
    ensures { result ≡ addresses.next radix value digit }
{
    if digit as u32 >= radix {
        return None;
    }
    let next = value as u64 * radix as u64 + digit as u64;
    if next <= u32::MAX as u64 {
        Some(next as u32)
    } else {
        None
    }
}

/// The number that these digits are, to this base.
fn number(radix: u32, digits: &[u8]) -> Option<u32>
    requires { radix ≤ 16 }
    ensures { result ≡ addresses.number_from radix 0 digits.now }
{
    let mut value = 0;
    let mut rest = digits;
    while let [byte, tail @ ..] = rest {
        match next(radix, value, digit(*byte)) {
            Some(more) => value = more,
            None => return None,
        }
        rest = tail;
    }
    Some(value)
}

/// A number to this base, of one digit at least.
fn some_number(radix: u32, digits: &[u8]) -> Option<u32>
    requires { radix ≤ 16 }
    ensures { result ≡ addresses.number radix digits.now }
{
    match digits {
        [] => None,
        [_, ..] => number(radix, digits),
    }
}

/// The address that a word names: a number below 2^32, in decimal, or behind `0x` in hexadecimal.
pub fn address_in(word: &[u8]) -> Option<u32>
    ensures { result ≡ addresses.address word.now }
{
    match word {
        [b'0', b'x', digits @ ..] => some_number(16, digits),
        _ => some_number(10, word),
    }
}
