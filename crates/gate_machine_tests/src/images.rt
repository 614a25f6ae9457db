//! Images of bare words.

use elf_loader::{Image, raw, size_of_kib};
use std::alloc::Global;
use std::test::Fail;

/// Words at the beginning of a memory of 4 KiB.
pub fn image_of(alloc: Global, words: &[u32]) -> Result<Image, Fail> {
    let size = size_of_kib(4).ok_or("a size")?;
    let mut bytes = Vec::new(alloc);
    for word in words {
        bytes.extend_from_slice(&word.to_le_bytes())?;
    }
    Ok(raw(alloc, &bytes, size)?)
}
