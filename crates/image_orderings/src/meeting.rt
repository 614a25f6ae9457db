//! What of an image a hart may come to.
ghost use Rattle.std.specs.Prelude.{◌≡◌, All, IfOk, filter};
ghost use Rattle.elf_loader.specs.Image.{HasWord};
ghost use Rattle.image_orderings.specs.Flow.{comes_by};
ghost use Rattle.image_orderings.specs.Meeting as spec;
ghost use Rattle.image_orderings.specs.Replaced.{IsPatchOf};

use crate::flow::{Flow, none_comes};
use crate::orderings::ImageOrdering;
use crate::replacing::Patch;
use elf_loader::Image;
use std::alloc::{AllocError, Global};

/// Those of the orderings to which a hart may come, as far as the image's words tell. To the others none ever comes.
pub fn met_orderings(
    alloc: Global,
    image: &Image,
    orderings: &[ImageOrdering],
) -> Result<Vec<ImageOrdering>, AllocError>
    requires inside { All (λ o. HasWord image.now o.address) orderings.now }
    ensures met { IfOk result (λ met. met.items ≡ spec.met_orderings image.now orderings.now) }
    ensures inside { IfOk result (λ met. All (λ o. HasWord image.now o.address) met.items) }
    ensures never { All (λ o. spec.IsMetOrNever image.now o.address) orderings.now }
{
    none_comes();
    let flow = Flow::of_image(alloc, image)?;
    orderings_by(alloc, &flow, orderings)
}

fn orderings_by(
    alloc: Global,
    flow: &Flow,
    orderings: &[ImageOrdering],
) -> Result<Vec<ImageOrdering>, AllocError>
    ensures { IfOk result (λ met. met.items ≡ filter (λ o. comes_by flow.now.table.items o.address) orderings.now) }
{
    let each = orderings.iter().copied();
    each.filter(|ordering| flow.may_come_to(ordering.address))
        .collect(alloc)
}

/// Those of the words to which a hart may come, as far as the image's words tell. To the others none ever comes.
pub fn met_places(alloc: Global, image: &Image, places: &[Patch]) -> Result<Vec<Patch>, AllocError>
    requires of_image { All (IsPatchOf image.now) places.now }
    ensures met { IfOk result (λ met. met.items ≡ spec.met_places image.now places.now) }
    ensures of_image { IfOk result (λ met. All (IsPatchOf image.now) met.items) }
    ensures never { All (λ p. spec.IsMetOrNever image.now p.address) places.now }
{
    none_comes();
    let flow = Flow::of_image(alloc, image)?;
    places_by(alloc, &flow, places)
}

fn places_by(alloc: Global, flow: &Flow, places: &[Patch]) -> Result<Vec<Patch>, AllocError>
    ensures { IfOk result (λ met. met.items ≡ filter (λ p. comes_by flow.now.table.items p.address) places.now) }
{
    let each = places.iter().copied();
    each.filter(|place| flow.may_come_to(place.address))
        .collect(alloc)
}
