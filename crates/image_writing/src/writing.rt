//! The file of a program with words replaced.
ghost use Rattle.std.specs.Prelude.{◌≡◌, ◌≢◌, ◌≤◌, ◌↔◌, All, IfOk, IfSome, IsErrOf, IsNone, IsTrue, Ok, length};
ghost use Rattle.elf_loader.specs.Image.{HasWord};
ghost use Rattle.elf_loader.specs.Size.{IsMemorySize, base};
ghost use Rattle.image_orderings.specs.Replaced.{patched};
ghost use Rattle.image_writing.specs.Written as spec;

use crate::places::{Format, place_of};
use elf_loader::{Image, LoadError, load, raw};
use image_orderings::{Patch, patched};
use std::alloc::{AllocError, Global};

/// The file's bytes, but at the place of each of these words that word: if that is loaded as the image with these words,
/// and nothing else. It isn't where the file has no bytes for a word, or the same bytes for two addresses, or where they
/// are bytes of its header. The error is that there was no memory.
pub fn written(
    alloc: Global,
    format: Format,
    file: &[u8],
    image: &Image,
    patches: &[Patch],
) -> Result<Option<Vec<u8>>, AllocError>
    ensures bytes { IfOk result (λ made. IfSome made (λ bytes. bytes.items ≡ spec.written format file.now patches.now)) }
    ensures loads { IfOk result (λ made. IfSome made (λ bytes. spec.loaded_as format bytes.items (length image.now.bytes) ≡ Ok (patched image.now patches.now))) }
    ensures none { IfOk result (λ made. IsNone made → All (λ p. HasWord image.now p.address) patches.now → spec.loaded_as format (spec.written format file.now patches.now) (length image.now.bytes) ≢ Ok (patched image.now patches.now)) }
{
    if !are_inside(image, patches) {
        return Ok(None);
    }
    let bytes = with_words(alloc, format, file, patches)?;
    let wanted = patched(alloc, image, patches)?;
    if is_loaded_as(alloc, format, &bytes, &wanted)? {
        Ok(Some(bytes))
    } else {
        Ok(None)
    }
}

/// Whether a word of memory lies where each of these is to stand.
fn are_inside(image: &Image, patches: &[Patch]) -> bool
    ensures { IsTrue result ↔ All (λ p. HasWord image.now p.address) patches.now }
{
    let mut rest = patches;
    while let [first, tail @ ..] = rest {
        if !image.has_word(first.address) {
            return false;
        }
        rest = tail;
    }
    true
}

/// Whether the file is loaded as this image.
fn is_loaded_as(
    alloc: Global,
    format: Format,
    file: &[u8],
    image: &Image,
) -> Result<bool, AllocError>
    ensures { IfOk result (spec.TellsLoaded (spec.loaded_as format file.now (length image.now.bytes)) image.now) }
{
    match loaded_as(alloc, format, file, image.size()) {
        Ok(made) => Ok(made.entry() == image.entry() && made.bytes() == image.bytes()),
        Err(LoadError::NoMemory) => Err(AllocError),
        Err(_) => Ok(false),
    }
}

fn loaded_as(alloc: Global, format: Format, file: &[u8], size: u32) -> Result<Image, LoadError>
    requires { IsMemorySize size }
    ensures { ¬ IsErrOf result LoadError.NoMemory → result ≡ spec.loaded_as format file.now size }
{
    match format {
        Format::Elf => load(alloc, file, size),
        Format::Words => raw(alloc, file, size),
    }
}

/// The file's bytes, but at the place of each of these words that word.
fn with_words(
    alloc: Global,
    format: Format,
    file: &[u8],
    patches: &[Patch],
) -> Result<Vec<u8>, AllocError>
    requires { All (λ p. base ≤ p.address) patches.now }
    ensures { IfOk result (λ bytes. bytes.items ≡ spec.written format file.now patches.now) }
{
    let mut bytes = file.to_vec(alloc)?;
    let mut rest = patches;
    while let [first, tail @ ..] = rest {
        bytes = with_word(bytes, place_of(format, file, first.address), first.word);
        rest = tail;
    }
    Ok(bytes)
}

/// The bytes with a word at a place, where all of it has room.
fn with_word(mut bytes: Vec<u8>, place: Option<usize>, word: u32) -> Vec<u8>
    ensures { result.items ≡ spec.with_word bytes.items place word }
{
    put_word(&mut bytes, place, word);
    bytes
}

fn put_word(bytes: &mut [u8], place: Option<usize>, word: u32)
    ensures { bytes.new ≡ spec.with_word bytes.old place word }
{
    let Some(place) = place else {
        return;
    };
    if let Some(end) = place.checked_add(4) {
        if end <= bytes.len() {
            bytes[place..end].copy_from_slice(&word.to_le_bytes());
        }
    }
}
