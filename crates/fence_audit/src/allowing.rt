//! Whether a program has outcomes that aren't allowed, and then what it lacks; or else what it needs.
ghost use Rattle.std.specs.Prelude.{◌≡◌, IfOk, None, Some};
ghost use Rattle.fence_audit.specs.Adding.{IsAllowance, IsMissing};
ghost use Rattle.allowed_outcomes.specs.Known.{allows_line};
ghost use Rattle.fence_audit.specs.Answers.{IsSearchIn, answer_of, answer_within, refused_place};
ghost use Rattle.fence_audit.specs.Searches.{IsReady};

use crate::adding::Added;
use crate::answers::{Standard, answer_of, is_whole, refused_place};
use crate::auditing::{Audit, audit_with, parts_of};
use crate::searches::{Asking, Question, Search, Steps, World, explore};
use allowed_outcomes::Allowed;
use architecture_outcomes::Architecture;
use exploration_text::WordName;
use image_orderings::{Patch, met_places, patches_strengthened, places_of};
use std::alloc::{AllocError, Global};
use std::thread::Threads;

/// What a program lacks that has outcomes that aren't allowed. What is known of it stands at `audit_allowed`.
#[derive(Drop)]
pub struct Missing {
    /// Whose outcomes were asked for.
    pub world: World,
    /// What was found of the program as it is.
    pub known: Architecture,
    /// Of the first of its outcomes that isn't allowed.
    pub place: usize,
    /// The words of it that may order more and to which a hart may come, by addresses.
    pub own: Vec<Patch>,
    /// The same with all that they may order.
    pub most: Vec<Patch>,
    /// In the order in which they were made, none of them twice.
    pub searches: Vec<Search>,
    /// The words there of a program with fewer changes.
    pub last: Vec<Patch>,
}

/// What a program needs, or lacks.
#[derive(Drop)]
pub enum Allowance {
    /// Each outcome that was found is allowed.
    Kept(Audit),
    /// One isn't.
    Broken(Missing),
}

/// Searches the program as it is. Where its outcomes are allowed and that search is whole, it is audited as by
/// `audit_program`, but for outcomes that are allowed in place of the same ones. Where one isn't allowed, the program with
/// all orderings that it may have is searched; where that is enough, each of its own words is put back in turn, by
/// addresses, and then words that order less, where that is enough. The error is that there was no memory.
pub fn audit_allowed<R: Threads + Sync, W: Steps + Sync>(
    rt: &R,
    alloc: Global,
    question: Question<'_>,
    names: &[WordName<'_>],
    allowed: &Allowed<'_>,
    watch: &W,
) -> Result<Allowance, AllocError>
    requires { IsReady question }
    ensures { IfOk result (IsAllowance question.entry.world question.entry.image.now question.entry.config question.entry.addresses.now question.entry.window question.entry.limit (answer_within (allows_line allowed.now) names.now)) }
{
    let known = explore(alloc, question, &[], watch)?;
    let standard = Standard::Within(names, allowed);
    let answer = answer_of(alloc, standard, &known)?;
    match refused_place(answer) {
        Some(place) => broken(rt, alloc, question, standard, known, place, watch),
        None => kept(rt, alloc, question, standard, known, watch),
    }
}

/// What the program needs, of which this is known: no outcome that isn't allowed.
fn kept<R: Threads + Sync, W: Steps + Sync>(
    rt: &R,
    alloc: Global,
    question: Question<'_>,
    standard: Standard<'_>,
    known: Architecture,
    watch: &W,
) -> Result<Allowance, AllocError>
    requires ready { IsReady question }
    requires known { IsSearchIn question.world question.image.now question.config question.addresses.now question.window question.limit known }
    requires allowed { refused_place (answer_of standard known) ≡ None }
    ensures { IfOk result (IsAllowance question.entry.world question.entry.image.now question.entry.config question.entry.addresses.now question.entry.window question.entry.limit (answer_of standard.entry)) }
{
    let parts = parts_of(rt, alloc, question, standard, is_whole(&known), watch)?;
    Ok(Allowance::Kept(audit_with(question.world, known, parts)))
}

/// What the program lacks, of which this is known: at this place an outcome that isn't allowed.
fn broken<R: Threads + Sync, W: Steps + Sync>(
    rt: &R,
    alloc: Global,
    question: Question<'_>,
    standard: Standard<'_>,
    known: Architecture,
    place: usize,
    watch: &W,
) -> Result<Allowance, AllocError>
    requires ready { IsReady question }
    requires known { IsSearchIn question.world question.image.now question.config question.addresses.now question.window question.limit known }
    requires refused { refused_place (answer_of standard known) ≡ Some place }
    ensures { IfOk result (IsAllowance question.entry.world question.entry.image.now question.entry.config question.entry.addresses.now question.entry.window question.entry.limit (answer_of standard.entry)) }
{
    let missing = missing_of(rt, alloc, question, standard, known, place, watch)?;
    Ok(Allowance::Broken(missing))
}

/// What the program lacks, of which this is known.
fn missing_of<R: Threads + Sync, W: Steps + Sync>(
    rt: &R,
    alloc: Global,
    question: Question<'_>,
    standard: Standard<'_>,
    known: Architecture,
    place: usize,
    watch: &W,
) -> Result<Missing, AllocError>
    requires { IsReady question }
    ensures { IfOk result (IsMissing question.entry.world question.entry.image.now question.entry.config question.entry.addresses.now question.entry.window question.entry.limit (answer_of standard.entry) known place) }
{
    let places = places_of(alloc, question.image)?;
    let own = met_places(alloc, question.image, &places)?;
    let most = patches_strengthened(alloc, &own)?;
    let asking = Asking {
        alloc,
        question,
        standard,
    };
    let Added { searches, last } = asking.addition(rt, &own, &most, watch)?;
    Ok(Missing {
        world: question.world,
        known,
        place,
        own,
        most,
        searches,
        last,
    })
}
