//! The stores that bytes of loads come from (chapter 14.1, load value axiom).
ghost use Rattle.std.specs.Prelude.{◌≡◌, ◌-◌, Some, slice_index_or, true};
ghost use Rattle.std.specs.List.{list_any};
ghost use Rattle.memory_model.specs.Operations as operations;
ghost use Rattle.memory_model.specs.Order as spec;
ghost use Rattle.memory_model.specs.Rules as rules;
ghost use Rattle.elf_loader.specs.Image.{byte_at};
ghost use Rattle.rvwmo_order.specs.Ranks.{IsIn, ranked};

use crate::ranking::Ranking;
use elf_loader::Image;
use memory_model::Operation;
use trace_operations::accesses::{end_of, image_byte, is_same, written_at};

/// Whether two bytes come from the same store, or both from the image.
pub(crate) fn is_same_source(a: Option<Operation>, b: Option<Operation>) -> bool
    ensures { result ≡ spec.same_source a b }
{
    match (a, b) {
        (None, None) => true,
        (Some(a), Some(b)) => is_same(&a, &b),
        _ => false,
    }
}

/// The byte that a source gives.
pub(crate) fn byte_from(image: &Image, x: u64, source: Option<Operation>) -> u32
    ensures { result ≡ spec.byte_from (byte_at image.now) x source }
{
    match source {
        Some(store) => written_at(&store, x),
        None => image_byte(image, x),
    }
}

/// Whether a byte of the load `b` comes from the store `a`.
pub(crate) fn returns_from(ranking: &Ranking, b: &Operation, a: &Operation) -> bool
    requires there { IsIn ranking.now b.now }
    requires reads { operations.reads b.now.kind ≡ true }
    ensures { result ≡ rules.returns_from ranking.now b.now a.now }
{
    is_any_from(ranking, &ranking.ranks_of(b), b, a)
}

// Whether a byte of `b` has the store `a`, by the ranks of its bytes' stores.
fn is_any_from(ranking: &Ranking, ranks: &[usize; 4], b: &Operation, a: &Operation) -> bool
    ensures { result ≡ list_any (λ x. spec.same_source (ranked ranking.now (slice_index_or ranks.now (x - b.now.address) 0)) (Some a.now)) (operations.addresses_of b.now) }
{
    (u64::from(b.address)..end_of(b)).any(|x| is_same_source(
        ranking.source_at(ranks, b, x),
        Some(*a),
    ))
}
