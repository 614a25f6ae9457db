//! Which words of memory an end can show.
ghost use Rattle.std.specs.Prelude.{◌↔◌, IsTrue};
ghost use Rattle.performed_words.specs.Words.{CanShow};

use elf_loader::Image;

/// Whether an aligned word of the image's memory lies at this address.
pub fn can_show(image: &Image, address: u32) -> bool
    ensures { IsTrue result ↔ CanShow image.now address }
{
    address % 4 == 0 && image.has_word(address)
}
