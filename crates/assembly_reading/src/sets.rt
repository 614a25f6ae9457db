//! The sets of a FENCE.
ghost use Rattle.std.specs.Prelude.{◌≡◌, ◌<◌, IfSome};
ghost use Rattle.std.specs.Option.{option_map};
ghost use Rattle.assembly_reading.specs.Sets as sets;

use crate::find::find;
use bitflags::Flags;
use rv32_decode::FenceSet;

/// The sets by their letters.
const SETS: [(&[u8], u8); 15] = [
    (b"rw", 3),
    (b"r", 2),
    (b"w", 1),
    (b"iorw", 15),
    (b"o", 4),
    (b"ow", 5),
    (b"or", 6),
    (b"orw", 7),
    (b"i", 8),
    (b"iw", 9),
    (b"ir", 10),
    (b"irw", 11),
    (b"io", 12),
    (b"iow", 13),
    (b"ior", 14),
];

/// The bits of the set that letters name.
#[tactic(auto, unfolding(crate::specs::Sets::set_of), using(crate::proofs::Names::set_below))]
fn bits_of(letters: &[u8]) -> Option<u8>
    ensures value { result ≡ sets.set_of letters.now }
    ensures below { IfSome result (λ n. n < 16) }
{
    find(&SETS, letters)
}

/// The set that letters name.
pub(crate) fn set_of(letters: &[u8]) -> Option<FenceSet>
    ensures value { option_map (λ s. s.0) result ≡ sets.set_of letters.now }
    ensures known { IfSome result (λ s. s.0 < 16) }
{
    let bits = bits_of(letters)?;
    Some(FenceSet::from_bits_retain(bits))
}
