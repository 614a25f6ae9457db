//! The answer to a test's question.
ghost use Rattle.std.specs.Prelude.{◌≡◌, ◌≤◌, ◌<◌, ◌+◌, ◌^◌, length, IfOk};
ghost use Rattle.litmus_answers.specs.Answers as answers;

use crate::holding::{Scene, holds};
use litmus_parts::{Step, Told};
use litmus_text::Kind;
use std::alloc::{AllocError, Global};

/// Of how many states a proposition holds, and of how many it doesn't.
#[derive(Clone, Copy)]
pub struct Tally {
    pub positive: usize,
    pub negative: usize,
}

/// The answer to a question.
#[derive(Clone, Copy)]
pub enum Answer {
    /// It is so.
    Ok,
    /// It isn't so.
    No,
    /// The states that were found don't settle it, and there may be others.
    Undecided,
    /// No run ends.
    NoRun,
}

/// Counts one more state.
fn counted(truth: bool, tally: Tally) -> Tally
    requires { tally.positive + tally.negative + 1 < 2 ^ 64 }
    ensures value { result ≡ answers.counted truth tally }
    ensures total { result.positive + result.negative ≡ tally.positive + tally.negative + 1 }
{
    let Tally { positive, negative } = tally;
    if truth {
        Tally {
            positive: positive + 1,
            negative,
        }
    } else {
        Tally {
            positive,
            negative: negative + 1,
        }
    }
}

/// Of how many of these states a proposition holds.
pub fn tally_of(
    alloc: Global,
    names: &[Vec<u8>],
    told: &[Told],
    steps: &[Step],
    states: &[Vec<u32>],
) -> Result<Tally, AllocError>
    requires { length names.now ≤ 64 }
    ensures { IfOk result (λ t. t ≡ answers.tally_on names.now told.now steps.now answers.none states.now) }
{
    let mut tally = Tally {
        positive: 0,
        negative: 0,
    };
    let mut rest = states;
    while let [state, tail @ ..] = rest {
        let scene = Scene { names, told, state };
        let truth = holds(alloc, scene, steps)?;
        tally = counted(truth, tally);
        rest = tail;
    }
    Ok(tally)
}

/// Where not all states were found, nothing is known of the others.
fn unless_whole(is_whole: bool, answer: Answer) -> Answer
    ensures { result ≡ answers.unless_whole is_whole answer }
{
    if is_whole { answer } else { Answer::Undecided }
}

fn settled(kind: Kind, is_whole: bool, tally: Tally) -> Answer
    ensures { result ≡ answers.settled kind is_whole tally }
{
    match kind {
        Kind::Exists if tally.positive == 0 => unless_whole(is_whole, Answer::No),
        Kind::Exists => Answer::Ok,
        Kind::NotExists if tally.positive == 0 => unless_whole(is_whole, Answer::Ok),
        Kind::NotExists => Answer::No,
        Kind::Forall if tally.negative == 0 => unless_whole(is_whole, Answer::Ok),
        Kind::Forall => Answer::No,
    }
}

/// The answer to a question of this kind by the states that were found, which are all or not.
pub fn answer_of(kind: Kind, is_whole: bool, tally: Tally) -> Answer
    ensures { result ≡ answers.answer_of kind is_whole tally }
{
    if tally.positive == 0 && tally.negative == 0 {
        unless_whole(is_whole, Answer::NoRun)
    } else {
        settled(kind, is_whole, tally)
    }
}
