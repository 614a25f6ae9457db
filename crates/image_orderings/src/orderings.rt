//! Where an image orders memory operations.
ghost use Rattle.std.specs.Prelude.{◌≡◌, ◌++◌, All, IfOk, OnOk, map};
ghost use Rattle.elf_loader.specs.Image.{HasWord};
ghost use Rattle.image_orderings.specs.Orderings.{at, orderings_at, orderings_of, parts_of_bits};

use elf_loader::{BASE, Image};
use rv32_decode::{Annotations, Instr, decode};
use std::alloc::{AllocError, Global};

/// What of an instruction orders memory operations.
#[derive(Clone, Copy, Debug, PartialEq, Eq)]
pub enum Part {
    /// A FENCE as a whole.
    Fence,
    /// The bit aq.
    Acquire,
    /// The bit rl.
    Release,
}

/// What orders memory operations in an image.
#[derive(Clone, Copy, Debug, PartialEq, Eq)]
pub struct ImageOrdering {
    /// Of the instruction.
    pub address: u32,
    pub part: Part,
}

/// All that orders memory operations in the image, by addresses, and at one aq before rl. A word of data that looks
/// like such an instruction counts as one.
pub fn orderings_of(alloc: Global, image: &Image) -> Result<Vec<ImageOrdering>, AllocError>
    ensures found { IfOk result (λ found. found.items ≡ orderings_of image.now) }
    ensures inside { IfOk result (λ found. All (λ o. HasWord image.now o.address) found.items) }
{
    let mut found = Vec::new(alloc);
    let mut address = BASE;
    let mut left = image.size() / 4;
    while left > 0 {
        add_at(&mut found, image, address)?;
        address += 4;
        left -= 1;
    }
    Ok(found)
}

/// Adds what orders memory operations at an address.
fn add_at(found: &mut Vec<ImageOrdering>, image: &Image, address: u32) -> Result<(), AllocError>
    requires { HasWord image.now address }
    ensures { OnOk result (found.new.items ≡ found.old.items ++ orderings_at image.now address) }
{
    let Some(instr) = decode(image.word(address)) else {
        return Ok(());
    };
    match instr {
        Instr::Fence(_) | Instr::FenceTso => {
            found.push(ImageOrdering {
                address,
                part: Part::Fence,
            })?;
            Ok(())
        }
        Instr::Lr { bits, .. } | Instr::Sc { bits, .. } | Instr::Amo { bits, .. } => {
            add_bits(found, address, bits)
        }
        _ => Ok(()),
    }
}

/// Adds the bits that are set of an instruction at an address.
fn add_bits(
    found: &mut Vec<ImageOrdering>,
    address: u32,
    bits: Annotations,
) -> Result<(), AllocError>
    ensures { OnOk result (found.new.items ≡ found.old.items ++ map (at address) (parts_of_bits bits)) }
{
    if bits.acquire {
        found.push(ImageOrdering {
            address,
            part: Part::Acquire,
        })?;
    }
    if bits.release {
        found.push(ImageOrdering {
            address,
            part: Part::Release,
        })?;
    }
    Ok(())
}
