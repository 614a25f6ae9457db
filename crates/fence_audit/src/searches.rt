//! The searches of an audit, of each program one.
ghost use Rattle.std.specs.Prelude.{◌<◌, ◌≡◌, ◌≤◌, IfOk, OnOk, Some, option_map};
ghost use Rattle.architecture_outcomes.specs.Words.{CanShowEach};
ghost use Rattle.fence_audit.specs.Answers.{IsSearchIn, IsSearchOf};
ghost use Rattle.fence_audit.specs.Searches.{ArePatchesOf, AreSearched, Grows, IsReady, IsSearchedBy, answer_in, is_of, search_in};
ghost use Rattle.image_orderings.specs.Replaced.{patched};

use crate::answers::{Answer, Standard, answer_of};
use crate::machine::search_machine;
use architecture_outcomes::window_search::Reach;
use architecture_outcomes::{Architecture, explore_architecture};
use elf_loader::Image;
use exploration_text::explorer::Exploring;
use image_orderings::{Patch, patched};
use machine_types::Config;
use state_search::{Extent, Throughout, Unwatched, Watch};
use std::alloc::{AllocError, Global};

/// Is told how far an audit is, beside how far each of its searches is.
pub trait Steps: Watch {
    /// No more than so many programs will be searched.
    fn expects(&self, most: u64);

    /// So many were searched so far.
    fn searched(&self, programs: u64);
}

impl Steps for Unwatched {
    fn expects(&self, _most: u64) {}

    fn searched(&self, _programs: u64) {}
}

/// A search of an image with words replaced.
#[derive(Drop)]
pub struct Search {
    /// The words that stand in it.
    pub patches: Vec<Patch>,
    pub found: Architecture,
    /// Beside the outcomes that it is to have.
    pub answer: Answer,
}

/// Whose outcomes are asked for.
#[derive(Clone, Copy, Debug, PartialEq, Eq)]
pub enum World {
    /// All that the memory model allows.
    Model,
    /// Those to which this machine comes, whatever its schedule.
    Machine,
}

/// What all searches of an audit have in common.
#[derive(Clone, Copy)]
pub struct Question<'a> {
    /// The program as it is.
    pub image: &'a Image,
    pub config: Config,
    /// Of the words of memory that outcomes show.
    pub addresses: &'a [u32],
    /// How many operations of a hart may wait at a time.
    pub window: u32,
    /// How many states each search may find.
    pub limit: u32,
    pub world: World,
    /// How many searches may go side by side: one at a time where it is 0.
    pub threads: usize,
}

/// The search of the image with these words replaced, if it was made.
pub fn search_in<'s>(searches: &'s [Search], patches: &[Patch]) -> Option<&'s Search>
    ensures { option_map (λ s. s.now) result ≡ search_in searches.now patches.now }
{
    let mut rest = searches;
    while let [first, tail @ ..] = rest {
        if is_of(first, patches) {
            return Some(first);
        }
        rest = tail;
    }
    None
}

/// Whether it is of the image with these words replaced.
fn is_of(search: &Search, patches: &[Patch]) -> bool
    ensures { result ≡ is_of patches.now search.now }
{
    search.patches.as_slice() == patches
}

/// What is wanted of a search whose program has outcomes that it may not have, or harts that may not stop so.
#[derive(Clone, Copy)]
pub(crate) enum Want {
    /// The first of these outcomes, which is told: of all that there are, unless there are very many states.
    First,
    /// Whether there is one, or such a hart.
    Any,
}

impl Want {
    /// How many states a first look may find. Where that shows what is wanted there are no more looks.
    fn few(self) -> u32
        ensures { 0 < result }
    {
        match self {
            Want::First => 65_536,
            Want::Any => 4_096,
        }
    }

    /// Whether a search that answers so shows it.
    fn is_shown_by(self, answer: Answer) -> bool {
        match (self, answer) {
            (_, Answer::Other(_)) | (Want::Any, Answer::Stops(_)) => true,
            _ => false,
        }
    }
}

/// Searches of a program with words replaced, beside the outcomes that it is to have.
#[derive(Clone, Copy)]
pub(crate) struct Asking<'a> {
    pub alloc: Global,
    pub question: Question<'a>,
    pub standard: Standard<'a>,
}

/// What is found of the image with these words replaced.
pub(crate) fn explore<W: Watch>(
    alloc: Global,
    question: Question<'_>,
    patches: &[Patch],
    watch: &W,
) -> Result<Architecture, AllocError>
    requires ready { IsReady question }
    requires of_image { ArePatchesOf question patches.now }
    ensures { IfOk result (IsSearchIn question.entry.world (patched question.entry.image.now patches.now) question.entry.config question.entry.addresses.now question.entry.window question.entry.limit) }
{
    explore_within(alloc, question, question.limit, patches, watch)
}

/// The same within so many states, which are no more than there may be.
fn explore_within<W: Watch>(
    alloc: Global,
    question: Question<'_>,
    limit: u32,
    patches: &[Patch],
    watch: &W,
) -> Result<Architecture, AllocError>
    requires ready { IsReady question }
    requires room { 0 < limit }
    requires few { limit ≤ question.limit }
    requires of_image { ArePatchesOf question patches.now }
    ensures { IfOk result (IsSearchIn question.entry.world (patched question.entry.image.now patches.now) question.entry.config question.entry.addresses.now question.entry.window question.entry.limit) }
{
    let image = patched(alloc, question.image, patches)?;
    let exploring = Exploring {
        limit,
        shortened: false,
    };
    search_world(alloc, &image, question, exploring, watch)
}

/// What is found of an image.
fn search_world<W: Watch>(
    alloc: Global,
    image: &Image,
    question: Question<'_>,
    exploring: Exploring,
    watch: &W,
) -> Result<Architecture, AllocError>
    requires room { 0 < exploring.limit }
    requires words { CanShowEach image.now question.addresses.now }
    ensures { IfOk result (IsSearchIn question.entry.world image.now question.entry.config question.entry.addresses.now question.entry.window exploring.limit) }
{
    let Question {
        config,
        addresses,
        window,
        ..
    } = question;
    match question.world {
        World::Model => search_model(alloc, image, config, addresses, window, exploring, watch),
        World::Machine => search_machine(alloc, image, config, addresses, window, exploring, watch),
    }
}

/// What the memory model allows.
fn search_model<W: Watch>(
    alloc: Global,
    image: &Image,
    config: Config,
    addresses: &[u32],
    window: u32,
    exploring: Exploring,
    watch: &W,
) -> Result<Architecture, AllocError>
    requires room { 0 < exploring.limit }
    requires words { CanShowEach image.now addresses.now }
    ensures { IfOk result (IsSearchOf image.now config addresses.now window exploring.limit) }
{
    explore_architecture(
        alloc,
        image,
        config,
        addresses,
        window,
        exploring,
        watch,
        &Throughout,
        &Throughout,
    )
}

/// Tells how many programs were searched, with the one as it is.
pub(crate) fn tell<W: Steps>(searches: &[Search], watch: &W) {
    watch.searched((searches.len() as u64).saturating_add(1));
}

/// Whether more states may show more.
fn met_limit(found: &Architecture) -> bool {
    // Where few numbers were tried for loads a last pass finds more, and trying all of them takes more states.
    matches!(found.reach, Reach::LimitMet | Reach::Unclosed)
        || matches!(found.machine, Extent::LimitMet)
}

impl Asking<'_> {
    /// What a search of the program with these words replaced answers. It is made unless it was already.
    pub(crate) fn ask<W: Steps + Sync>(
        &self,
        searches: &mut Vec<Search>,
        patches: &[Patch],
        watch: &W,
    ) -> Result<Answer, AllocError>
        requires ready { IsReady self.now.question }
        requires of_image { ArePatchesOf self.now.question patches.now }
        ensures asked { IfOk result (λ answer. answer_in searches.new.items patches.now ≡ Some answer) }
        ensures grown { OnOk result (Grows searches.old.items searches.new.items) }
        ensures searched { OnOk result (AreSearched self.now searches.old.items → AreSearched self.now searches.new.items) }
    {
        self.ask_for(searches, patches, Want::Any, watch)
    }

    /// The same, where this is wanted of a search that is made.
    pub(crate) fn ask_for<W: Steps + Sync>(
        &self,
        searches: &mut Vec<Search>,
        patches: &[Patch],
        want: Want,
        watch: &W,
    ) -> Result<Answer, AllocError>
        requires ready { IsReady self.now.question }
        requires of_image { ArePatchesOf self.now.question patches.now }
        ensures asked { IfOk result (λ answer. answer_in searches.new.items patches.now ≡ Some answer) }
        ensures grown { OnOk result (Grows searches.old.items searches.new.items) }
        ensures searched { OnOk result (AreSearched self.now searches.old.items → AreSearched self.now searches.new.items) }
    {
        if let Some(search) = search_in(searches.as_slice(), patches) {
            return Ok(search.answer);
        }
        let search = self.search(patches, want, watch)?;
        let answer = search.answer;
        searches.push(search)?;
        tell(searches, watch);
        Ok(answer)
    }

    /// A search of the program with these words replaced: with few states first, which mostly suffice to show an outcome that
    /// it may not have, and else with as many as there may be.
    pub(crate) fn search<W: Steps + Sync>(
        &self,
        patches: &[Patch],
        want: Want,
        watch: &W,
    ) -> Result<Search, AllocError>
        requires ready { IsReady self.now.question }
        requires of_image { ArePatchesOf self.now.question patches.now }
        ensures patches { IfOk result (λ search. search.patches.items ≡ patches.now) }
        ensures searched { IfOk result (IsSearchedBy self.now) }
    {
        let limit = self.question.limit;
        let few = want.few();
        if few < limit {
            let search = self.search_within(patches, few, watch)?;
            if want.is_shown_by(search.answer) || !met_limit(&search.found) {
                return Ok(search);
            }
        }
        self.search_within(patches, limit, watch)
    }

    /// A search of the program with these words replaced, within so many states.
    fn search_within<W: Steps + Sync>(
        &self,
        patches: &[Patch],
        limit: u32,
        watch: &W,
    ) -> Result<Search, AllocError>
        requires ready { IsReady self.now.question }
        requires room { 0 < limit }
        requires few { limit ≤ self.now.question.limit }
        requires of_image { ArePatchesOf self.now.question patches.now }
        ensures patches { IfOk result (λ search. search.patches.items ≡ patches.now) }
        ensures searched { IfOk result (IsSearchedBy self.now) }
    {
        let found = explore_within(self.alloc, self.question, limit, patches, watch)?;
        let answer = answer_of(self.alloc, self.standard, &found)?;
        let patches = patches.to_vec(self.alloc)?;
        Ok(Search {
            patches,
            found,
            answer,
        })
    }
}
