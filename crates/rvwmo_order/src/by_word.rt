//! What is kept of bytes, by four in a row, the first of which is a multiple of four.
ghost use Rattle.std.specs.Prelude.{◌≡◌, [], nat_eq, unwrap_or};
ghost use Rattle.std.specs.HashMap as hash;

use std::collections::HashMap;

/// What is kept of the bytes of a word, of which the first is four times this number; nothing yet of a new one.
pub(crate) fn word_of<T>(words: &HashMap<u64, [T; 4]>, number: u64) -> &[T]
    ensures { result.now ≡ unwrap_or (hash.get nat_eq words.now number) [] }
{
    match words.get(&number) {
        Some(word) => word,
        None => &[],
    }
}
