//! Main memory at reset.
ghost use Rattle.std.specs.Prelude.{◌≡◌, ◌+◌, ◌%◌, ◌<◌, ◌≤◌, ◌↔◌, IsTrue, IsErrOf, IsOk, OnOk, IfOk, length, slice_index};
ghost use Rattle.elf_loader.specs.Image.{HasWord, IsImage, byte_at, end_of, word_at};
ghost use Rattle.elf_loader.specs.Raw.{raw_answer};
ghost use Rattle.elf_loader.specs.Size.{IsMemorySize, base};

use crate::error::LoadError;
use byteorder::{ByteOrder, LittleEndian};
use machine_types::BASE;
use std::alloc::{AllocError, Global};
use std::marker::Model;

/// The bytes of main memory at reset, from 0x80000000 on, and the address of the first instruction.
#[derive(Drop)]
pub struct Image {
    bytes: Vec<u8>,
    entry: u32,
}

impl Model for Image {
    ghost use Rattle.elf_loader.specs.Image.{Initial, IsImage};

    ghost Value = { Initial };

    ghost view = { λ image. record { bytes = image.bytes.items; entry = image.entry } };

    ghost invariant = { λ image. IsImage (record { bytes = image.bytes.items; entry = image.entry }) };
}

impl Image {
    /// The image of these bytes. Their number is memory's size, a multiple of 4 KiB from 4 KiB to
    /// 1 MiB; the entry is a multiple of 4 at which a word of memory lies.
    pub fn new(bytes: Vec<u8>, entry: u32) -> Image
        requires size { IsMemorySize (length bytes.items) }
        requires aligned { entry % 4 ≡ 0 }
        requires inside { (base ≤ entry) × (entry + 4 ≤ base + length bytes.items) }
        ensures bytes { result.bytes ≡ bytes.items }
        ensures entry { result.entry ≡ entry }
    {
        Image { bytes, entry }
    }

    /// The address of the first instruction.
    pub fn entry(&self) -> u32
        ensures exact { result ≡ self.now.entry }
        ensures image { IsImage self.now }
    {
        self.entry
    }

    /// How many bytes memory has.
    pub fn size(&self) -> u32
        ensures exact { result ≡ length self.now.bytes }
        ensures image { IsImage self.now }
    {
        self.bytes.len() as u32
    }

    /// Memory's bytes, the one at 0x80000000 first.
    pub fn bytes(&self) -> &[u8]
        ensures exact { result.now ≡ self.now.bytes }
        ensures image { IsImage self.now }
    {
        &self.bytes
    }

    /// Whether a whole word of memory lies at this address.
    pub fn has_word(&self, address: u32) -> bool
        ensures { IsTrue result ↔ HasWord self.now address }
    {
        address >= BASE && address - BASE <= self.size() - 4
    }

    /// The word at an address where one lies, the byte at the lowest address its lowest.
    pub fn word(&self, address: u32) -> u32
        requires { HasWord self.now address }
        ensures { result ≡ word_at self.now address }
    {
        LittleEndian::read_u32(&self.bytes[(address - BASE) as usize..])
    }

    /// The byte at an address inside memory.
    pub fn byte(&self, address: u32) -> u8
        requires from { base ≤ address }
        requires below { address < end_of self.now }
        ensures { result ≡ byte_at self.now address }
    {
        self.bytes[(address - BASE) as usize]
    }

    /// An equal image, where there is memory for it.
    pub fn try_copy(&self, alloc: Global) -> Result<Image, AllocError>
        ensures { IfOk result (λ copy. copy ≡ self.now) }
    {
        let bytes = self.bytes.to_vec(alloc)?;
        Ok(Image {
            bytes,
            entry: self.entry,
        })
    }
}

/// The image that bare words give: they stand from 0x80000000 on, which is also the entry, with
/// zeros behind them up to `size`. Answers `Short` where the bytes are no whole number of words,
/// else `SegmentOutside` where they are more than `size`, else `NoMemory` where memory is refused.
pub fn raw(alloc: Global, words: &[u8], size: u32) -> Result<Image, LoadError>
    requires { IsMemorySize size }
    ensures answer { ¬ IsErrOf result LoadError.NoMemory → result ≡ raw_answer words.now size }
    ensures no_memory { IsErrOf result LoadError.NoMemory → IsOk (raw_answer words.now size) }
{
    if words.len() % 4 != 0 {
        return Err(LoadError::Short);
    }
    if words.len() > size as usize {
        return Err(LoadError::SegmentOutside);
    }
    let mut bytes = Vec::with_capacity(alloc, size as usize)?;
    bytes.extend_from_slice(words)?;
    bytes.resize(size as usize, 0)?;
    Ok(Image::new(bytes, BASE))
}
