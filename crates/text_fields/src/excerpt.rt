//! What stands in a file, as an error keeps it and a message quotes it.
ghost use Rattle.std.specs.Prelude.{◌≡◌, ℕ, List, length, take};
ghost use Rattle.text_fields.specs.Excerpts.{excerpt};

use std::fmt::{self, Display, Formatter};

/// How many bytes are kept at most.
const MOST: usize = 40;

/// The first 40 bytes, at most, of some that stand in a file, and how many stand there. Its text has them in quotes, with
/// what isn't printable ASCII escaped, and two dots where they are not all.
#[derive(Clone, Copy, Debug, PartialEq, Eq)]
pub struct Excerpt {
    bytes: [u8; MOST],
    length: usize,
}

impl Excerpt {
    /// The excerpt of these bytes, however many they are.
    pub fn of(text: &[u8]) -> Excerpt
        ensures { result ≡ excerpt text.now }
    {
        let mut bytes = [0; MOST];
        let kept = text.len().min(MOST);
        bytes[..kept].copy_from_slice(&text[..kept]);
        Excerpt {
            bytes,
            length: text.len(),
        }
    }

    /// The bytes that are kept.
    pub fn kept(&self) -> &[u8]
        ensures { (text : List ℕ) → self.now ≡ excerpt text → result.now ≡ take 40 text }
    {
        &self.bytes[..self.length.min(MOST)]
    }

    /// How many bytes stand in the file.
    pub fn length(&self) -> usize
        ensures { (text : List ℕ) → self.now ≡ excerpt text → result ≡ length text }
    {
        self.length
    }
}

impl Display for Excerpt {
    fn fmt<W: fmt::Write>(&self, f: &mut Formatter<W>) -> fmt::Result {
        let kept = self.kept().escape_ascii();
        if self.length > MOST {
            write!(f, "`{kept}..`")
        } else {
            write!(f, "`{kept}`")
        }
    }
}
