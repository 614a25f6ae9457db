//! Texts that have room for so many bytes.
ghost use Rattle.std.specs.Prelude.{◌≡◌, ◌+◌, ◌<◌, ◌≤◌, ◌++◌, length};
ghost use Rattle.elf_symbols.specs.Short as short;
ghost use Rattle.run_chart.specs.Fitting.{fitted};

/// How many of the first bytes, at most so many, are whole characters.
#[tactic(auto, using(crate::proofs::Fitted::passed, crate::proofs::Fitted::stood, crate::proofs::Fitted::stood_first))]
fn whole_characters(text: &[u8], most: usize) -> usize
    requires { most < length text.now }
    ensures count { result ≡ short.whole_characters text.now most }
    ensures few { result ≤ most }
{
    let mut count = most;
    while count > 0 && text[count] / 64 == 2 {
        count -= 1;
    }
    count
}

/// A text for which there is room, and nothing; or its first characters, and three dots.
pub(crate) fn fitted(text: &[u8], room: usize) -> (&[u8], &[u8])
    requires { 3 ≤ room }
    ensures value { result.0.now ++ result.1.now ≡ fitted room text.now }
    ensures len { length result.0.now + length result.1.now ≤ room }
{
    if text.len() <= room {
        return (text, b"");
    }
    let count = whole_characters(text, room - 3);
    (&text[..count], b"...")
}
