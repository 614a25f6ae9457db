//! What the readers of words and of lines have in common.
ghost use Rattle.std.specs.Prelude.{◌≡◌, ℕ, List, map};
ghost use Rattle.std.specs.Option.{option_map};
ghost use Rattle.text_fields.specs.Reading.{table_at};
ghost use Rattle.trace_text.specs.Reading.{ended};

use text_fields::after;

/// What the first of the table's words that stands here means.
#[inline(always)]
pub(crate) fn word_of<'a, T: Copy>(table: &[(&[u8], T)], bytes: &'a [u8]) -> Option<(T, &'a [u8])>
    ensures { option_map {U = T × List ℕ} (λ x. (x.0, x.1.now)) result ≡ table_at (map {B = List ℕ × T} (λ e. (e.0.now, e.1)) table.now) bytes.now }
{
    for (word, meaning) in table {
        if let Some(rest) = after(word, bytes) {
            return Some((*meaning, rest));
        }
    }
    None
}

/// What was read, where this byte ends it.
#[inline(always)]
pub(crate) fn ended<T: Drop>(found: Option<(T, &[u8])>, end: u8) -> Option<(T, &[u8])>
    ensures { option_map {U = T × List ℕ} (λ x. (x.0, x.1.now)) result ≡ ended end (option_map {U = T × List ℕ} (λ x. (x.0, x.1.now)) found.entry) }
{
    let (value, rest) = found?;
    Some((value, after(&[end], rest)?))
}
