//! Images by their words, as text.

use anyhow::{Context, Result, bail};
use elf_loader::{Image, raw, size_of_kib};
use std::alloc::Global;
use std::str::Split;

/// A memory of 4 KiB that begins with these words, in hexadecimal digits.
pub fn image_of_digits(alloc: Global, words: Split<'_, char>) -> Result<Image> {
    let mut bytes = Vec::new(alloc);
    for digits in words {
        let word = u32::from_str_radix(digits, 16)?;
        bytes.extend_from_slice(&word.to_le_bytes())?;
    }
    let size = size_of_kib(4).context("a memory size")?;
    match raw(alloc, &bytes, size) {
        Ok(image) => Ok(image),
        Err(error) => bail!("image fault {error}"),
    }
}
