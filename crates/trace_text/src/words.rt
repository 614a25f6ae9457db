//! Parts of a line.
ghost use Rattle.std.specs.Prelude.{◌≡◌};
ghost use Rattle.trace_text.specs.Causes.{line_text, word_text};

/// The line that begins here, without its line feed.
#[tactic(auto, using(crate::proofs::Found::line_first, crate::proofs::Found::line_more, crate::proofs::Found::line_stop, crate::proofs::Found::line_end))]
pub(crate) fn line_text(bytes: &[u8]) -> &[u8]
    ensures { result.now ≡ line_text bytes.now }
{
    let mut rest = bytes;
    while let [byte, tail @ ..] = rest {
        if *byte == b'\n' {
            return &bytes[..bytes.len() - rest.len()];
        }
        rest = tail;
    }
    bytes
}

/// The word that begins here, which a space or a line feed ends.
#[tactic(auto, using(crate::proofs::Found::word_first, crate::proofs::Found::word_more, crate::proofs::Found::word_space, crate::proofs::Found::word_feed, crate::proofs::Found::word_end))]
pub(crate) fn word_text(bytes: &[u8]) -> &[u8]
    ensures { result.now ≡ word_text bytes.now }
{
    let mut rest = bytes;
    while let [byte, tail @ ..] = rest {
        if *byte == b' ' || *byte == b'\n' {
            return &bytes[..bytes.len() - rest.len()];
        }
        rest = tail;
    }
    bytes
}
