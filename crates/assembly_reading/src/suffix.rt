//! The bits aq and rl behind a mnemonic.
ghost use Rattle.std.specs.Prelude.{◌≡◌};
ghost use Rattle.assembly_reading.specs.Suffixes as suffixes;

use crate::find::find;
use rv32_decode::Annotations;
use text_fields::after;

/// How the bits are written.
const SUFFIXES: [(&[u8], Annotations); 5] = [
    (
        b"",
        Annotations {
            acquire: false,
            release: false,
        },
    ),
    (
        b".aq",
        Annotations {
            acquire: true,
            release: false,
        },
    ),
    (
        b".rl",
        Annotations {
            acquire: false,
            release: true,
        },
    ),
    (
        b".aqrl",
        Annotations {
            acquire: true,
            release: true,
        },
    ),
    (
        b".aq.rl",
        Annotations {
            acquire: true,
            release: true,
        },
    ),
];

/// Whether what stands here begins with one of the bits.
fn is_suffix(bytes: &[u8]) -> bool
    ensures { result ≡ suffixes.is_suffix bytes.now }
{
    after(b".aq", bytes).is_some() || after(b".rl", bytes).is_some()
}

/// A word up to the first of the bits, and from there on.
pub(crate) fn split_suffix(word: &[u8]) -> (&[u8], &[u8])
    ensures base { result.0.now ≡ suffixes.base word.now }
    ensures suffix { result.1.now ≡ suffixes.suffix word.now }
{
    for length in 0..word.len() {
        if is_suffix(&word[length..]) {
            return word.split_at(length);
        }
    }
    word.split_at(word.len())
}

/// The bits that a suffix means.
#[tactic(auto, unfolding(crate::specs::Suffixes::bits_of))]
pub(crate) fn bits_of(suffix: &[u8]) -> Option<Annotations>
    ensures { result ≡ suffixes.bits_of suffix.now }
{
    find(&SUFFIXES, suffix)
}
