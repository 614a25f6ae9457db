//! The stores that bytes of loads come from, by walks over the whole order as they are defined (chapter
//! 14.1, load value axiom).
ghost use Rattle.std.specs.Prelude.{◌≡◌};
ghost use Rattle.memory_model.specs.Order as spec;
ghost use Rattle.memory_model.specs.Rules as rules;
ghost use Rattle.elf_loader.specs.Image.{byte_at};

use elf_loader::Image;
use memory_model::Operation;
use trace_operations::accesses::{end_of, image_byte, is_same, precedes, stores_to, written_at};

/// The last of the stores that byte `x` of a load may come from; none where it is the image's byte. The
/// load itself is never one, also where it is an AMO.
pub fn source(order: &[Operation], load: &Operation, x: u64) -> Option<Operation>
    ensures { result ≡ spec.source order.now load.now x }
{
    let mut last = None;
    let mut is_behind = false;
    let mut rest = order;
    while let [store, tail @ ..] = rest {
        if !is_behind && is_same(store, load) {
            is_behind = true;
        } else if stores_to(x, store) && (!is_behind || precedes(store, load)) {
            last = Some(*store);
        }
        rest = tail;
    }
    last
}

/// The byte that a source gives.
pub(crate) fn byte_from(image: &Image, x: u64, source: Option<Operation>) -> u32
    ensures { result ≡ spec.byte_from (byte_at image.now) x source }
{
    match source {
        Some(store) => written_at(&store, x),
        None => image_byte(image, x),
    }
}

/// Whether two sources are the same; the image is one.
pub(crate) fn is_same_source(a: Option<Operation>, b: Option<Operation>) -> bool
    ensures { result ≡ spec.same_source a b }
{
    match (a, b) {
        (Some(a), Some(b)) => is_same(&a, &b),
        (None, None) => true,
        _ => false,
    }
}

/// Whether a byte of `b` comes from the store `a`.
pub(crate) fn returns_from(order: &[Operation], b: &Operation, a: &Operation) -> bool
    ensures { result ≡ rules.returns_from order.now b.now a.now }
{
    (u64::from(b.address)..end_of(b)).any(|x| is_same_source(source(order, b, x), Some(*a)))
}
