//! Whether a batch that a hart has run by itself fits the machine as it stands.

ghost use Rattle.std.specs.Prelude.{◌≡◌, ◌↔◌, IsTrue};
ghost use Rattle.coherent_machine.specs.Adopting.{IsCurrent, have_words};

use elf_loader::Image;
use hart::{Batch, Retired};
use machine_parts::Parts;

/// Whether the hart stands where the batch begins, and the batch's words are the image's.
pub(crate) fn is_current(parts: &Parts, hart: u8, batch: &Batch) -> bool
    ensures { IsTrue result ↔ IsCurrent hart batch.now parts.now.state }
{
    if usize::from(hart) >= parts.nodes.len() {
        return false;
    }
    if parts.nodes[hart as usize].hart != *batch.first() {
        return false;
    }
    have_words(parts.trace.image(), batch.entries())
}

// Whether each entry's word is the image's.
fn have_words(image: &Image, entries: &[Retired]) -> bool
    ensures { result ≡ have_words image.now entries.now }
{
    let mut rest = entries;
    while let [entry, tail @ ..] = rest {
        if !image.has_word(entry.pc) || entry.word != image.word(entry.pc) {
            return false;
        }
        rest = tail;
    }
    true
}
