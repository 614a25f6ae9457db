//! Whether two logs have the same of a test.
ghost use Rattle.std.specs.Prelude.{◌≡◌};
ghost use Rattle.litmus_answers.specs.Entries.{plain_states, said};
ghost use Rattle.litmus_answers.specs.Logs as logs;
ghost use Rattle.litmus_answers.specs.Naming.{plain};

use crate::reading::Entry;
use litmus_parts::is_same;

/// Whether a state has this place with this value.
fn has_item(state: &[Vec<u8>], item: &[u8]) -> bool
    ensures { result ≡ logs.has_item (plain state.now) item.now }
{
    let mut rest = state;
    while let [first, tail @ ..] = rest {
        if is_same(first, item) {
            return true;
        }
        rest = tail;
    }
    false
}

/// Whether each place of one state has its value in the other.
fn is_part(one: &[Vec<u8>], other: &[Vec<u8>]) -> bool
    ensures { result ≡ logs.is_part (plain one.now) (plain other.now) }
{
    let mut rest = one;
    while let [first, tail @ ..] = rest {
        if !has_item(other, first) {
            return false;
        }
        rest = tail;
    }
    true
}

fn is_same_state(one: &[Vec<u8>], other: &[Vec<u8>]) -> bool
    ensures { result ≡ logs.is_same_state (plain one.now) (plain other.now) }
{
    is_part(one, other) && is_part(other, one)
}

/// Whether one of these states is this one.
fn has_state(states: &[Vec<Vec<u8>>], state: &[Vec<u8>]) -> bool
    ensures { result ≡ logs.has_state (plain_states states.now) (plain state.now) }
{
    let mut rest = states;
    while let [first, tail @ ..] = rest {
        if is_same_state(state, first) {
            return true;
        }
        rest = tail;
    }
    false
}

/// Whether each of one's states is one of the other's.
fn has_states(one: &[Vec<Vec<u8>>], other: &[Vec<Vec<u8>>]) -> bool
    ensures { result ≡ logs.has_states (plain_states one.now) (plain_states other.now) }
{
    let mut rest = one;
    while let [first, tail @ ..] = rest {
        if !has_state(other, first) {
            return false;
        }
        rest = tail;
    }
    true
}

/// Whether two answers are told, and the same.
fn is_same_answer(one: Option<bool>, other: Option<bool>) -> bool
    ensures { result ≡ logs.is_same_answer one other }
{
    match (one, other) {
        (Some(one), Some(other)) => one == other,
        _ => false,
    }
}

/// Whether both have the same states, in whatever order and however often, and the same answer; one that isn't told is
/// the same as none.
pub fn agrees(one: &Entry, other: &Entry) -> bool
    ensures { result ≡ logs.agrees (said one.now) (said other.now) }
{
    is_same_answer(one.answer, other.answer)
        && has_states(&one.states, &other.states)
        && has_states(&other.states, &one.states)
}

/// Whether each state that one has is among those of the other.
pub fn is_within(one: &Entry, other: &Entry) -> bool
    ensures { result ≡ logs.is_within (said one.now) (said other.now) }
{
    has_states(&one.states, &other.states)
}
