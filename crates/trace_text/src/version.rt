//! The two versions of the texts.
ghost use Rattle.std.specs.Prelude.{◌≡◌};
ghost use Rattle.trace_text.specs.Scripts.{is_first_version};

use tl_types::LineSize;

/// Whether a text of so many harts and such lines is of version 1, which has lines of 16 bytes and at most
/// 4 harts. Whatever is spelt there isn't in version 2.
pub fn is_first_version(harts: u64, line: LineSize) -> bool
    ensures { result ≡ is_first_version harts line }
{
    matches!(line, LineSize::Bytes16) && harts <= 4
}
