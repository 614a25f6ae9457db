//! Where an image may order more than it does, and programs in which it does.
ghost use Rattle.std.specs.Prelude.{◌≡◌, ◌++◌, All, IfOk, OnOk};
ghost use Rattle.elf_loader.specs.Image.{HasWord, Initial};
ghost use Rattle.image_orderings.specs.Adding as spec;
ghost use Rattle.image_orderings.specs.Forms.{IsVariant};
ghost use Rattle.image_orderings.specs.Replaced.{IsPatchOf, addresses_of};

use crate::forms::{is_weaker, strengthened, weaker_words, without};
use crate::orderings::Part;
use crate::replacing::Patch;
use elf_loader::{BASE, Image};
use std::alloc::{AllocError, Global};

/// The words of the image that may order more than they do, as they are, by addresses: FENCEs, LRs, SCs, AMOs and
/// `addi x0, x0, 0`. A word of data that looks like one counts as one.
pub fn places_of(alloc: Global, image: &Image) -> Result<Vec<Patch>, AllocError>
    ensures found { IfOk result (λ found. found.items ≡ spec.places_of image.now) }
    ensures of_image { IfOk result (λ found. All (IsPatchOf image.now) found.items) }
{
    let mut found = Vec::new(alloc);
    let mut address = BASE;
    let mut left = image.size() / 4;
    while left > 0 {
        add_place(&mut found, image, address)?;
        address += 4;
        left -= 1;
    }
    Ok(found)
}

/// Adds the word at an address, if it may order more.
fn add_place(found: &mut Vec<Patch>, image: &Image, address: u32) -> Result<(), AllocError>
    requires { HasWord image.now address }
    ensures { OnOk result (found.new.items ≡ found.old.items ++ spec.places_at image.now address) }
{
    let word = image.word(address);
    if !may_be_more(word) {
        return Ok(());
    }
    found.push(Patch { address, word })?;
    Ok(())
}

/// Whether the word isn't all that it may be.
fn may_be_more(word: u32) -> bool
    ensures { result ≡ spec.may_be_more word }
{
    strengthened(word) != word
}

/// The program in which each of these words orders all that it may.
pub fn patches_strengthened(alloc: Global, patches: &[Patch]) -> Result<Vec<Patch>, AllocError>
    ensures made { IfOk result (λ made. made.items ≡ spec.patches_strengthened patches.now) }
    ensures of_image { (image : Initial) → All (IsPatchOf image) patches.now → IfOk result (λ made. All (IsPatchOf image) made.items) }
    ensures places { IfOk result (λ made. addresses_of made.items ≡ addresses_of patches.now) }
{
    each_strengthened(alloc, patches)
}

fn each_strengthened(alloc: Global, patches: &[Patch]) -> Result<Vec<Patch>, AllocError>
    ensures { IfOk result (λ made. made.items ≡ spec.patches_strengthened patches.now) }
{
    let each = patches.iter().map(|patch| patch_strengthened(*patch));
    each.collect(alloc)
}

fn patch_strengthened(patch: Patch) -> Patch
    ensures made { result ≡ spec.patch_strengthened patch }
    ensures place { result.address ≡ patch.address }
{
    Patch {
        address: patch.address,
        word: strengthened(patch.word),
    }
}

/// Words that order less than this one, and more than the word in whose place it stands: FENCEs, those of fewer pairs
/// first, or the word without rl and without aq.
#[tactic(auto, using(crate::proofs::Variants::milder_variants))]
pub fn milder_words(alloc: Global, own: u32, word: u32) -> Result<Vec<u32>, AllocError>
    ensures words { IfOk result (λ words. words.items ≡ spec.milder_words own word) }
    ensures variants { IfOk result (λ words. All (IsVariant word) words.items) }
{
    let mut words = fences_between(alloc, own, word)?;
    add_milder(&mut words, Part::Release, own, word)?;
    add_milder(&mut words, Part::Acquire, own, word)?;
    Ok(words)
}

/// The FENCEs that order less than this word, and more than its own.
fn fences_between(alloc: Global, own: u32, word: u32) -> Result<Vec<u32>, AllocError>
    ensures { IfOk result (λ words. words.items ≡ spec.fences_between own word) }
{
    let weaker = weaker_words(alloc, word)?;
    let forms = weaker.iter().copied();
    forms.filter(|form| is_weaker(own, *form)).collect(alloc)
}

/// Adds the word without what orders, if it has that and its own word hasn't.
fn add_milder(words: &mut Vec<u32>, part: Part, own: u32, word: u32) -> Result<(), AllocError>
    ensures { OnOk result (words.new.items ≡ words.old.items ++ spec.milder_by part own word) }
{
    if !may_be_less(part, own, word) {
        return Ok(());
    }
    words.push(without(part, word))?;
    Ok(())
}

/// Whether the word has what orders, and its own word hasn't.
fn may_be_less(part: Part, own: u32, word: u32) -> bool
    ensures { result ≡ spec.may_be_less part own word }
{
    orders_by(part, word) && !orders_by(part, own)
}

fn orders_by(part: Part, word: u32) -> bool
    ensures { result ≡ spec.orders_by part word }
{
    without(part, word) != word
}
