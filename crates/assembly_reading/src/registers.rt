//! Names of registers.
ghost use Rattle.std.specs.Prelude.{◌≡◌, ◌<◌, IfSome};
ghost use Rattle.assembly_reading.specs.Registers as registers;

use crate::find::find;
use rv32_decode::Register;

/// The registers by their names in the calling convention; S0 has two.
const NAMES: [(&[u8], u8); 33] = [
    (b"zero", 0),
    (b"ra", 1),
    (b"sp", 2),
    (b"gp", 3),
    (b"tp", 4),
    (b"t0", 5),
    (b"t1", 6),
    (b"t2", 7),
    (b"s0", 8),
    (b"s1", 9),
    (b"a0", 10),
    (b"a1", 11),
    (b"a2", 12),
    (b"a3", 13),
    (b"a4", 14),
    (b"a5", 15),
    (b"a6", 16),
    (b"a7", 17),
    (b"s2", 18),
    (b"s3", 19),
    (b"s4", 20),
    (b"s5", 21),
    (b"s6", 22),
    (b"s7", 23),
    (b"s8", 24),
    (b"s9", 25),
    (b"s10", 26),
    (b"s11", 27),
    (b"t3", 28),
    (b"t4", 29),
    (b"t5", 30),
    (b"t6", 31),
    (b"fp", 8),
];

/// The number of a register that is named by it.
fn numbered(digits: &[u8]) -> Option<u8>
    ensures value { result ≡ registers.numbered digits.now }
    ensures below { IfSome result (λ n. n < 32) }
{
    match digits {
        [one @ b'0'..=b'9'] => Some(*one - b'0'),
        [b'1', one @ b'0'..=b'9'] => Some(*one - b'0' + 10),
        [b'2', one @ b'0'..=b'9'] => Some(*one - b'0' + 20),
        [b'3', one @ b'0'..=b'1'] => Some(*one - b'0' + 30),
        _ => None,
    }
}

/// The register of this name in the calling convention.
#[tactic(auto, unfolding(crate::specs::Registers::named))]
fn named(word: &[u8]) -> Option<u8>
    ensures { result ≡ registers.named word.now }
{
    find(&NAMES, word)
}

#[tactic(auto, unfolding(crate::specs::Registers::register_of), using(crate::proofs::Names::named_below, crate::proofs::Names::digit_unnamed))]
fn number_of(word: &[u8]) -> Option<u8>
    ensures value { result ≡ registers.register_of word.now }
    ensures below { IfSome result (λ n. n < 32) }
{
    match word {
        [b'x', digits @ ..] => numbered(digits),
        // So that no number is looked up among the names.
        [b'0'..=b'9', ..] => None,
        _ => named(word),
    }
}

/// The register that a word names, as x5 or by its name in the calling convention.
pub fn register_of(word: &[u8]) -> Option<Register>
    ensures { result ≡ registers.register_of word.now }
{
    let number = number_of(word)?;
    Some(Register::new(number))
}
