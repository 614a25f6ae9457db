//! Relations between places and values.
ghost use Rattle.std.specs.Prelude.{◌≡◌};
ghost use Rattle.std.specs.Option.{option_map};
ghost use Rattle.litmus_text.specs.Propositions as propositions;
ghost use Rattle.litmus_parts.specs.Stops.{seen};

use litmus_parts::{Cause, Place, Relation, Section, Step, Stop, keyword_at, place_at, value_at};
use text_words::symbol_at;

/// What a place is compared with.
#[tactic(auto, unfolding(crate::specs::Propositions::relation_at))]
fn relation_at(place: Place, bytes: &[u8]) -> Result<(Step, &[u8]), Stop>
    ensures { seen (λ x. (x.0, x.1.now)) result ≡ propositions.relation_at place bytes.now }
{
    match (symbol_at(b"=", bytes), symbol_at(b"<>", bytes)) {
        (Some(rest), _) => match value_at(Section::Condition, rest) {
            Ok((value, rest)) => Ok((Step::Equal(Relation { place, value }), rest)),
            Err(stop) => Err(stop),
        },
        (None, Some(rest)) => match value_at(Section::Condition, rest) {
            Ok((value, rest)) => Ok((Step::Differs(Relation { place, value }), rest)),
            Err(stop) => Err(stop),
        },
        (None, None) => Err(Stop::at(Cause::Relation, bytes)),
    }
}

fn place_and_value_at(harts: u8, bytes: &[u8]) -> Result<(Step, &[u8]), Stop>
    ensures { seen (λ x. (x.0, x.1.now)) result ≡ propositions.place_and_value_at harts bytes.now }
{
    match place_at(Section::Condition, harts, bytes) {
        Ok((place, rest)) => relation_at(place, rest),
        Err(stop) => Err(stop),
    }
}

/// `true`, `false`, or a place and a value.
#[tactic(auto, unfolding(crate::specs::Propositions::atom_at))]
pub(crate) fn atom_at(harts: u8, bytes: &[u8]) -> Result<(Step, &[u8]), Stop>
    ensures { seen (λ x. (x.0, x.1.now)) result ≡ propositions.atom_at harts bytes.now }
{
    match (keyword_at(b"true", bytes), keyword_at(b"false", bytes)) {
        (Some(rest), _) => Ok((Step::True, rest)),
        (None, Some(rest)) => Ok((Step::False, rest)),
        (None, None) => place_and_value_at(harts, bytes),
    }
}

/// What stands behind a negation, if one stands here.
pub(crate) fn negation_at(bytes: &[u8]) -> Option<&[u8]>
    ensures { option_map (λ x. x.now) result ≡ propositions.negation_at bytes.now }
{
    match symbol_at(b"~", bytes) {
        Some(rest) => Some(rest),
        None => keyword_at(b"not", bytes),
    }
}
