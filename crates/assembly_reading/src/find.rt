//! Tables of words.
ghost use Rattle.std.specs.Prelude.{◌≡◌};
ghost use Rattle.std.specs.Str.{bytes_eq};
ghost use Rattle.assembly_reading.specs.Tables.{seen, found};

use text_fields::after;

/// Whether two words are one. Most are told apart by their first bytes.
#[inline(always)]
#[tactic(auto, using(crate::proofs::Matching::all_same, crate::proofs::Matching::none_same, crate::proofs::Matching::more_differs))]
fn is_same(one: &[u8], other: &[u8]) -> bool
    ensures { result ≡ bytes_eq one.now other.now }
{
    matches!(after(one, other), Some([]))
}

/// What the table has for a word.
pub(crate) fn find<T: Copy>(table: &[(&[u8], T)], word: &[u8]) -> Option<T>
    ensures { result ≡ found (seen table.now) word.now }
{
    let mut rest = table;
    while let [(name, meaning), others @ ..] = rest {
        if is_same(name, word) {
            return Some(*meaning);
        }
        rest = others;
    }
    None
}
