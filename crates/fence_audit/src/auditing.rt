//! Which of a program's orderings it needs.
ghost use Rattle.std.specs.Prelude.{◌≡◌, All, IfOk, OnOk};
ghost use Rattle.std.specs.Option.{option_copied};
ghost use Rattle.elf_loader.specs.Image.{HasWord};
ghost use Rattle.fence_audit.specs.Answers.{answer_of};
ghost use Rattle.fence_audit.specs.Auditing.{ArePartsOf, IsAudit, IsLeftOut, IsReduction, audit_with, shown_by, shown_without, way_to, way_to_stop};
ghost use Rattle.fence_audit.specs.Searches.{ArePatchesOf, AreSearched, Grows, IsReady};

use crate::answers::{Answer, Standard, is_whole};
use crate::searches::{Asking, Question, Search, Steps, Want, World, explore, search_in};
use architecture_outcomes::{Architecture, Failing, Outcome, Way};
use image_orderings::{
    ImageOrdering, Part, Patch, met_orderings, orderings_of, own_patches, patches_without,
};
use std::alloc::{AllocError, Global};
use std::thread::Threads;

/// Which of a program's orderings it needs. What is known of it stands at `audit_program`.
#[derive(Drop)]
pub struct Audit {
    /// Whose outcomes were asked for.
    pub world: World,
    /// What was found of the program as it is.
    pub known: Architecture,
    /// By addresses, and at one aq before rl.
    pub orderings: Vec<ImageOrdering>,
    /// Those of them to which a hart may come; to the others none ever does.
    pub met: Vec<ImageOrdering>,
    /// The words where they stand.
    pub own: Vec<Patch>,
    /// In the order in which they were made, none of them twice.
    pub searches: Vec<Search>,
    /// The words there of a program with fewer orderings.
    pub last: Vec<Patch>,
}

/// Searches the program as it is, and where that search is whole without each of its orderings to which a hart may come,
/// with weaker FENCEs in place of those that are needed, and with ever fewer orderings: each is left out in turn, by
/// addresses, and then each FENCE made weaker, where the outcomes stay the same, and no other hart stops. Programs that are
/// known beforehand are searched side by side. Meanwhile `watch` is told how far it is. The error is that there was no
/// memory.
pub fn audit_program<R: Threads + Sync, W: Steps + Sync>(
    rt: &R,
    alloc: Global,
    question: Question<'_>,
    watch: &W,
) -> Result<Audit, AllocError>
    requires { IsReady question }
    ensures { IfOk result (IsAudit question.entry.world question.entry.image.now question.entry.config question.entry.addresses.now question.entry.window question.entry.limit) }
{
    let known = explore(alloc, question, &[], watch)?;
    let standard = Standard::AsItIs(&known);
    let parts = parts_of(rt, alloc, question, standard, is_whole(&known), watch)?;
    Ok(audit_with(question.world, known, parts))
}

/// What an audit has beside what was found of the program as it is.
#[derive(Drop)]
pub(crate) struct Parts {
    orderings: Vec<ImageOrdering>,
    met: Vec<ImageOrdering>,
    own: Vec<Patch>,
    searches: Vec<Search>,
    last: Vec<Patch>,
}

pub(crate) fn audit_with(world: World, known: Architecture, parts: Parts) -> Audit
    ensures { result ≡ audit_with world known parts }
{
    let Parts {
        orderings,
        met,
        own,
        searches,
        last,
    } = parts;
    Audit {
        world,
        known,
        orderings,
        met,
        own,
        searches,
        last,
    }
}

/// The searches of programs with fewer orderings, if the program as it is has been searched whole.
pub(crate) fn parts_of<R: Threads + Sync, W: Steps + Sync>(
    rt: &R,
    alloc: Global,
    question: Question<'_>,
    standard: Standard<'_>,
    whole: bool,
    watch: &W,
) -> Result<Parts, AllocError>
    requires { IsReady question }
    ensures { IfOk result (ArePartsOf question.entry.world question.entry.image.now question.entry.config question.entry.addresses.now question.entry.window question.entry.limit (answer_of standard.entry) whole) }
{
    let orderings = orderings_of(alloc, question.image)?;
    let own = own_patches(alloc, question.image, &orderings)?;
    let met = met_orderings(alloc, question.image, &orderings)?;
    if !whole {
        let searches = Vec::new(alloc);
        let last = own.as_slice().to_vec(alloc)?;
        return Ok(Parts {
            orderings,
            met,
            own,
            searches,
            last,
        });
    }
    let asking = Asking {
        alloc,
        question,
        standard,
    };
    let Reduced { searches, last } = asking.reduction(rt, &met, &own, watch)?;
    Ok(Parts {
        orderings,
        met,
        own,
        searches,
        last,
    })
}

/// How many programs are searched at most: as it is, twice without each ordering and once with ever fewer, and twice with
/// each of the 9 weaker ones in place of a FENCE.
fn most_searched(orderings: &[ImageOrdering]) -> u64 {
    let fences = orderings.iter().filter(|each| each.part == Part::Fence);
    let weaker = (fences.count() as u64).saturating_mul(18);
    let without = (orderings.len() as u64).saturating_mul(3);
    without.saturating_add(weaker).saturating_add(1)
}

/// The searches of an audit, and the program with fewer orderings that they lead to.
#[derive(Drop)]
struct Reduced {
    searches: Vec<Search>,
    last: Vec<Patch>,
}

impl Asking<'_> {
    /// Searches without each of the orderings, with weaker FENCEs in place of those that are needed, and with ever fewer
    /// orderings.
    fn reduction<R: Threads + Sync, W: Steps + Sync>(
        &self,
        rt: &R,
        orderings: &[ImageOrdering],
        own: &[Patch],
        watch: &W,
    ) -> Result<Reduced, AllocError>
        requires ready { IsReady self.now.question }
        requires of_image { ArePatchesOf self.now.question own.now }
        requires places { All (λ o. HasWord self.now.question.image.now o.address) orderings.now }
        ensures { IfOk result (λ r. IsReduction self.now orderings.now own.now r.searches.items r.last.items) }
    {
        watch.expects(most_searched(orderings));
        let mut searches = Vec::new(self.alloc);
        self.prepare(rt, &mut searches, orderings, own, Want::First, watch)?;
        self.ask_each(&mut searches, orderings, own, watch)?;
        self.prepare_forms(rt, &mut searches, orderings, own, watch)?;
        self.weigh_each(&mut searches, orderings, own, watch)?;
        let last = self.reduced(&mut searches, orderings, own, watch)?;
        self.prepare(rt, &mut searches, orderings, &last, Want::Any, watch)?;
        self.ask_each(&mut searches, orderings, &last, watch)?;
        Ok(Reduced { searches, last })
    }

    /// Asks for the program without each of the orderings in turn.
    fn ask_each<W: Steps + Sync>(
        &self,
        searches: &mut Vec<Search>,
        orderings: &[ImageOrdering],
        patches: &[Patch],
        watch: &W,
    ) -> Result<(), AllocError>
        requires ready { IsReady self.now.question }
        requires of_image { ArePatchesOf self.now.question patches.now }
        ensures asked { OnOk result (All (IsLeftOut searches.new.items patches.now) orderings.now) }
        ensures grown { OnOk result (Grows searches.old.items searches.new.items) }
        ensures searched { OnOk result (AreSearched self.now searches.old.items → AreSearched self.now searches.new.items) }
    {
        for ordering in orderings {
            self.ask_without(searches, *ordering, patches, watch)?;
        }
        Ok(())
    }

    /// Asks for the program without one of its orderings.
    fn ask_without<W: Steps + Sync>(
        &self,
        searches: &mut Vec<Search>,
        ordering: ImageOrdering,
        patches: &[Patch],
        watch: &W,
    ) -> Result<(), AllocError>
        requires ready { IsReady self.now.question }
        requires of_image { ArePatchesOf self.now.question patches.now }
        ensures asked { OnOk result (IsLeftOut searches.new.items patches.now ordering) }
        ensures grown { OnOk result (Grows searches.old.items searches.new.items) }
        ensures searched { OnOk result (AreSearched self.now searches.old.items → AreSearched self.now searches.new.items) }
    {
        let tried = patches_without(self.alloc, patches, ordering)?;
        let _answer = self.ask(searches, &tried, watch)?;
        Ok(())
    }
}

/// What shows that an ordering is needed, where a search without the ordering told it: the events or the trace of an outcome
/// that isn't one of those that there are to be, or else of a hart that stops as none is to. The error is that there was no
/// memory.
pub fn shown_without<'s>(
    alloc: Global,
    audit: &'s Audit,
    ordering: ImageOrdering,
) -> Result<Option<&'s Way>, AllocError>
    ensures { IfOk result (λ shown. option_copied shown ≡ shown_without audit.now ordering) }
{
    let without = patches_without(alloc, &audit.own, ordering)?;
    Ok(match search_in(&audit.searches, &without) {
        Some(search) => shown_by(search),
        None => None,
    })
}

/// What shows what a search told that isn't to be.
fn shown_by(search: &Search) -> Option<&Way>
    ensures { option_copied result ≡ shown_by search.now }
{
    let found = &search.found;
    match search.answer {
        Answer::Other(place) => way_to(found.outcomes.get(place)),
        Answer::Stops(place) => way_to_stop(found.failures.get(place)),
        Answer::Same | Answer::Fewer(_) | Answer::Bounded => None,
    }
}

fn way_to(outcome: Option<&Outcome>) -> Option<&Way>
    ensures { option_copied result ≡ way_to (option_copied outcome.entry) }
{
    match outcome {
        Some(outcome) => Some(&outcome.way),
        None => None,
    }
}

fn way_to_stop(failing: Option<&Failing>) -> Option<&Way>
    ensures { option_copied result ≡ way_to_stop (option_copied failing.entry) }
{
    match failing {
        Some(failing) => Some(&failing.way),
        None => None,
    }
}
