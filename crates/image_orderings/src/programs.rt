//! Programs that are an image with words replaced where it orders memory operations.
ghost use Rattle.std.specs.Prelude.{◌≡◌, All, IfOk, IfSome, length};
ghost use Rattle.elf_loader.specs.Image.{HasWord, Initial, word_at};
ghost use Rattle.image_orderings.specs.Forms.{IsVariant};
ghost use Rattle.image_orderings.specs.Programs as spec;
ghost use Rattle.image_orderings.specs.Replaced.{IsPatchOf, addresses_of};

use crate::forms::without;
use crate::orderings::ImageOrdering;
use crate::replacing::Patch;
use elf_loader::Image;
use std::alloc::{AllocError, Global};

/// The word where each of these stands, as it is in the image.
pub fn own_patches(
    alloc: Global,
    image: &Image,
    orderings: &[ImageOrdering],
) -> Result<Vec<Patch>, AllocError>
    requires inside { All (λ o. HasWord image.now o.address) orderings.now }
    ensures made { IfOk result (λ made. made.items ≡ spec.own_patches image.now orderings.now) }
    ensures of_image { IfOk result (λ made. All (IsPatchOf image.now) made.items) }
{
    let mut made = Vec::new(alloc);
    let mut rest = orderings;
    while let [first, tail @ ..] = rest {
        made.push(own_patch(image, *first))?;
        rest = tail;
    }
    Ok(made)
}

fn own_patch(image: &Image, ordering: ImageOrdering) -> Patch
    requires { HasWord image.now ordering.address }
    ensures { result ≡ spec.own_patch image.now ordering }
{
    Patch {
        address: ordering.address,
        word: image.word(ordering.address),
    }
}

/// The program without what orders there.
pub fn patches_without(
    alloc: Global,
    patches: &[Patch],
    ordering: ImageOrdering,
) -> Result<Vec<Patch>, AllocError>
    ensures made { IfOk result (λ made. made.items ≡ spec.patches_without ordering patches.now) }
    ensures of_image { (image : Initial) → All (IsPatchOf image) patches.now → IfOk result (λ made. All (IsPatchOf image) made.items) }
    ensures places { IfOk result (λ made. addresses_of made.items ≡ addresses_of patches.now) }
{
    each_without(alloc, patches, ordering)
}

fn each_without(
    alloc: Global,
    patches: &[Patch],
    ordering: ImageOrdering,
) -> Result<Vec<Patch>, AllocError>
    ensures { IfOk result (λ made. made.items ≡ spec.patches_without ordering patches.now) }
{
    let each = patches.iter().map(|patch| patch_without(*patch, ordering));
    each.collect(alloc)
}

fn patch_without(patch: Patch, ordering: ImageOrdering) -> Patch
    ensures made { result ≡ spec.patch_without ordering patch }
    ensures place { result.address ≡ patch.address }
{
    if patch.address != ordering.address {
        return patch;
    }
    Patch {
        address: patch.address,
        word: without(ordering.part, patch.word),
    }
}

/// The program with another word at an address.
pub fn patches_with(
    alloc: Global,
    patches: &[Patch],
    address: u32,
    word: u32,
) -> Result<Vec<Patch>, AllocError>
    ensures made { IfOk result (λ made. made.items ≡ spec.patches_with address word patches.now) }
    ensures of_image { (image : Initial) → IsVariant (word_at image address) word → All (IsPatchOf image) patches.now → IfOk result (λ made. All (IsPatchOf image) made.items) }
    ensures places { IfOk result (λ made. addresses_of made.items ≡ addresses_of patches.now) }
{
    each_with(alloc, patches, address, word)
}

fn each_with(
    alloc: Global,
    patches: &[Patch],
    address: u32,
    word: u32,
) -> Result<Vec<Patch>, AllocError>
    ensures { IfOk result (λ made. made.items ≡ spec.patches_with address word patches.now) }
{
    let each = patches
        .iter()
        .map(|patch| patch_with(*patch, address, word));
    each.collect(alloc)
}

fn patch_with(patch: Patch, address: u32, word: u32) -> Patch
    ensures made { result ≡ spec.patch_with address word patch }
    ensures place { result.address ≡ patch.address }
{
    if patch.address != address {
        return patch;
    }
    Patch { address, word }
}

/// The word at an address, where one is replaced.
pub fn word_in(patches: &[Patch], address: u32) -> Option<u32>
    ensures word { result ≡ spec.word_in patches.now address }
    ensures of_image { (image : Initial) → All (IsPatchOf image) patches.now → IfSome result (IsVariant (word_at image address)) }
{
    let mut rest = patches;
    while let [first, tail @ ..] = rest {
        if first.address == address {
            return Some(first.word);
        }
        rest = tail;
    }
    None
}

/// Whether the program still orders there what this ordering does.
pub fn is_kept(patches: &[Patch], ordering: ImageOrdering) -> bool
    ensures { result ≡ spec.is_kept patches.now ordering }
{
    match word_in(patches, ordering.address) {
        Some(word) => without(ordering.part, word) != word,
        None => false,
    }
}
