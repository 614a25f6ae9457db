//! An image with words replaced.
ghost use Rattle.std.specs.Prelude.{◌≡◌, All, IfOk, length};
ghost use Rattle.elf_loader.specs.Image.{HasWord};
ghost use Rattle.image_orderings.specs.Replaced.{patched, replaced};

use elf_loader::{BASE, Image};
use std::alloc::{AllocError, Global};

/// A word that is to stand at an address.
#[derive(Clone, Copy, Debug, PartialEq, Eq)]
pub struct Patch {
    pub address: u32,
    pub word: u32,
}

/// The image with the word of each patch at its address, where a word of memory lies.
pub fn patched(alloc: Global, image: &Image, patches: &[Patch]) -> Result<Image, AllocError>
    requires inside { All (λ p. HasWord image.now p.address) patches.now }
    ensures made { IfOk result (λ made. made ≡ patched image.now patches.now) }
    ensures size { IfOk result (λ made. length made.bytes ≡ length image.now.bytes) }
{
    let mut made = image.try_copy(alloc)?;
    let mut rest = patches;
    while let [first, tail @ ..] = rest {
        made = replaced(alloc, &made, *first)?;
        rest = tail;
    }
    Ok(made)
}

/// The image with the patch's word at its address.
fn replaced(alloc: Global, image: &Image, patch: Patch) -> Result<Image, AllocError>
    requires inside { HasWord image.now patch.address }
    ensures made { IfOk result (λ made. made ≡ replaced image.now patch.address patch.word) }
    ensures size { IfOk result (λ made. length made.bytes ≡ length image.now.bytes) }
{
    let entry = image.entry();
    let place = (patch.address - BASE) as usize;
    let old = image.bytes();
    let mut bytes = Vec::with_capacity(alloc, old.len())?;
    bytes.extend_from_slice(&old[..place])?;
    bytes.extend_from_slice(&patch.word.to_le_bytes())?;
    bytes.extend_from_slice(&old[place + 4..])?;
    Ok(Image::new(bytes, entry))
}
