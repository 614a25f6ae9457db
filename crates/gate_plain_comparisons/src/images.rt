//! Images that machines are made of.

use anyhow::{Context, Result, bail};
use elf_loader::{Image, load, raw, size_of_kib};
use std::alloc::Global;

#[derive(Clone, Copy)]
pub enum ImageKind {
    /// Bare words.
    Raw,
    Elf,
}

pub fn image_of(alloc: Global, kind: ImageKind, bytes: &[u8], kib: u32) -> Result<Image> {
    let size = size_of_kib(kib).context("a memory size")?;
    let image = match kind {
        ImageKind::Raw => raw(alloc, bytes, size),
        ImageKind::Elf => load(alloc, bytes, size),
    };
    match image {
        Ok(image) => Ok(image),
        Err(error) => bail!("image fault {error}"),
    }
}
