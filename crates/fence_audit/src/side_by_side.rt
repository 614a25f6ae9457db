//! Searches of programs that are known beforehand, several at a time.
ghost use Rattle.std.specs.Prelude.{◌≡◌, ◌<◌, All, IfOk, OnOk, length};
ghost use Rattle.elf_loader.specs.Image.{HasWord, word_at};
ghost use Rattle.fence_audit.specs.Searches.{ArePatchesOf, AreSearched, Grows, IsReady, IsSearchedBy};
ghost use Rattle.fence_audit.specs.SideBySide.{ArePrograms};
ghost use Rattle.image_orderings.specs.Forms.{IsVariant};

use crate::answers::Answer;
use crate::searches::{Asking, Search, Steps, Want, search_in, tell};
use image_orderings::{
    ImageOrdering, Part, Patch, is_weaker, patches_with, patches_without, weaker_words,
};
use std::alloc::AllocError;
use std::thread::{self, Threads};

/// So many FENCEs at most are each weaker than the next, and than another one.
const ROUNDS: u32 = 3;

/// Programs that are to be searched, each as the words that stand in it.
type Programs = Vec<Vec<Patch>>;

impl Asking<'_> {
    /// Searches the programs without each of the orderings, where this is wanted of each.
    pub(crate) fn prepare<R: Threads + Sync, W: Steps + Sync>(
        &self,
        rt: &R,
        searches: &mut Vec<Search>,
        orderings: &[ImageOrdering],
        patches: &[Patch],
        want: Want,
        watch: &W,
    ) -> Result<(), AllocError>
        requires ready { IsReady self.now.question }
        requires of_image { ArePatchesOf self.now.question patches.now }
        ensures grown { OnOk result (Grows searches.old.items searches.new.items) }
        ensures searched { OnOk result (AreSearched self.now searches.old.items → AreSearched self.now searches.new.items) }
    {
        let mut programs = Vec::new(self.alloc);
        for ordering in orderings {
            let program = patches_without(self.alloc, patches, *ordering)?;
            self.add_new(&mut programs, searches, program)?;
        }
        self.search_all(rt, searches, programs.as_slice(), want, watch)
    }

    /// Searches the programs with each of its own words again.
    pub(crate) fn prepare_reverted<R: Threads + Sync, W: Steps + Sync>(
        &self,
        rt: &R,
        searches: &mut Vec<Search>,
        own: &[Patch],
        patches: &[Patch],
        watch: &W,
    ) -> Result<(), AllocError>
        requires ready { IsReady self.now.question }
        requires own { ArePatchesOf self.now.question own.now }
        requires of_image { ArePatchesOf self.now.question patches.now }
        ensures grown { OnOk result (Grows searches.old.items searches.new.items) }
        ensures searched { OnOk result (AreSearched self.now searches.old.items → AreSearched self.now searches.new.items) }
    {
        let mut programs = Vec::new(self.alloc);
        for patch in own {
            let program = patches_with(self.alloc, patches, patch.address, patch.word)?;
            self.add_new(&mut programs, searches, program)?;
        }
        self.search_all(rt, searches, programs.as_slice(), Want::Any, watch)
    }

    /// Searches the programs with weaker ones in place of each FENCE that is needed, those of fewer pairs first, as far as
    /// none weaker is enough.
    pub(crate) fn prepare_forms<R: Threads + Sync, W: Steps + Sync>(
        &self,
        rt: &R,
        searches: &mut Vec<Search>,
        orderings: &[ImageOrdering],
        own: &[Patch],
        watch: &W,
    ) -> Result<(), AllocError>
        requires ready { IsReady self.now.question }
        requires of_image { ArePatchesOf self.now.question own.now }
        requires places { All (λ o. HasWord self.now.question.image.now o.address) orderings.now }
        ensures grown { OnOk result (Grows searches.old.items searches.new.items) }
        ensures searched { OnOk result (AreSearched self.now searches.old.items → AreSearched self.now searches.new.items) }
    {
        for _round in 0..ROUNDS {
            let programs = self.next_forms(searches, orderings, own)?;
            self.search_all(rt, searches, programs.as_slice(), Want::Any, watch)?;
        }
        Ok(())
    }

    /// The programs with weaker FENCEs whose turn it is.
    fn next_forms(
        &self,
        searches: &[Search],
        orderings: &[ImageOrdering],
        own: &[Patch],
    ) -> Result<Programs, AllocError>
        requires of_image { ArePatchesOf self.now.question own.now }
        requires places { All (λ o. HasWord self.now.question.image.now o.address) orderings.now }
        ensures { IfOk result (λ programs. ArePrograms self.now.question programs.items) }
    {
        let mut programs = Vec::new(self.alloc);
        for ordering in orderings {
            self.add_forms_of(&mut programs, searches, *ordering, own)?;
        }
        Ok(programs)
    }

    /// Adds those of one ordering, where it is a FENCE that is needed.
    fn add_forms_of(
        &self,
        programs: &mut Programs,
        searches: &[Search],
        ordering: ImageOrdering,
        own: &[Patch],
    ) -> Result<(), AllocError>
        requires place { HasWord self.now.question.image.now ordering.address }
        requires of_image { ArePatchesOf self.now.question own.now }
        requires programs { ArePrograms self.now.question programs.old.items }
        ensures { OnOk result (ArePrograms self.now.question programs.new.items) }
    {
        if ordering.part != Part::Fence || !self.is_needed(searches, ordering, own)? {
            return Ok(());
        }
        let fence = self.question.image.word(ordering.address);
        self.add_forms(programs, searches, ordering.address, fence, own)
    }

    /// Whether the program without the ordering was searched, and has other outcomes.
    fn is_needed(
        &self,
        searches: &[Search],
        ordering: ImageOrdering,
        own: &[Patch],
    ) -> Result<bool, AllocError> {
        let without = patches_without(self.alloc, own, ordering)?;
        Ok(is_not_enough(searches, &without))
    }

    /// Adds the programs with the FENCEs that order less than the one of this word whose turn it is.
    fn add_forms(
        &self,
        programs: &mut Programs,
        searches: &[Search],
        address: u32,
        word: u32,
        own: &[Patch],
    ) -> Result<(), AllocError>
        requires word { word ≡ word_at self.now.question.image.now address }
        requires of_image { ArePatchesOf self.now.question own.now }
        requires programs { ArePrograms self.now.question programs.old.items }
        ensures { OnOk result (ArePrograms self.now.question programs.new.items) }
    {
        let words = weaker_words(self.alloc, word)?;
        for form in words.as_slice() {
            self.add_form(programs, searches, &words, address, *form, own)?;
        }
        Ok(())
    }

    /// Adds the program with the FENCE of this word at an address, if it is its turn.
    fn add_form(
        &self,
        programs: &mut Programs,
        searches: &[Search],
        words: &[u32],
        address: u32,
        form: u32,
        own: &[Patch],
    ) -> Result<(), AllocError>
        requires variant { IsVariant (word_at self.now.question.image.now address) form }
        requires of_image { ArePatchesOf self.now.question own.now }
        requires programs { ArePrograms self.now.question programs.old.items }
        ensures { OnOk result (ArePrograms self.now.question programs.new.items) }
    {
        if !self.is_next(searches, words, address, form, own)? {
            return Ok(());
        }
        let program = patches_with(self.alloc, own, address, form)?;
        self.add_new(programs, searches, program)
    }

    /// Whether each of the words that orders less than this one was searched, and isn't enough.
    fn is_next(
        &self,
        searches: &[Search],
        words: &[u32],
        address: u32,
        form: u32,
        own: &[Patch],
    ) -> Result<bool, AllocError> {
        for word in words {
            if is_weaker(*word, form) {
                let weaker = patches_with(self.alloc, own, address, *word)?;
                if !is_not_enough(searches, &weaker) {
                    return Ok(false);
                }
            }
        }
        Ok(true)
    }

    /// Adds the program, unless it was searched or is one of these.
    fn add_new(
        &self,
        programs: &mut Programs,
        searches: &[Search],
        program: Vec<Patch>,
    ) -> Result<(), AllocError>
        requires of_image { ArePatchesOf self.now.question program.items }
        requires programs { ArePrograms self.now.question programs.old.items }
        ensures { OnOk result (ArePrograms self.now.question programs.new.items) }
    {
        if search_in(searches, &program).is_some() || programs.iter().any(|each| *each == program) {
            return Ok(());
        }
        programs.push(program)?;
        Ok(())
    }

    /// Searches these programs, a batch after the other, those of a batch side by side.
    fn search_all<R: Threads + Sync, W: Steps + Sync>(
        &self,
        rt: &R,
        searches: &mut Vec<Search>,
        programs: &[Vec<Patch>],
        want: Want,
        watch: &W,
    ) -> Result<(), AllocError>
        requires ready { IsReady self.now.question }
        requires of_image { ArePrograms self.now.question programs.now }
        ensures grown { OnOk result (Grows searches.old.items searches.new.items) }
        ensures searched { OnOk result (AreSearched self.now searches.old.items → AreSearched self.now searches.new.items) }
    {
        let size = self.question.threads.max(1);
        let mut rest = programs;
        while !rest.is_empty() {
            let (batch, later) = rest.split_at(size.min(rest.len()));
            self.search_batch(rt, searches, batch, want, watch)?;
            rest = later;
        }
        Ok(())
    }

    /// Searches these programs side by side.
    fn search_batch<R: Threads + Sync, W: Steps + Sync>(
        &self,
        rt: &R,
        searches: &mut Vec<Search>,
        batch: &[Vec<Patch>],
        want: Want,
        watch: &W,
    ) -> Result<(), AllocError>
        requires ready { IsReady self.now.question }
        requires of_image { ArePrograms self.now.question batch.now }
        ensures grown { OnOk result (Grows searches.old.items searches.new.items) }
        ensures searched { OnOk result (AreSearched self.now searches.old.items → AreSearched self.now searches.new.items) }
    {
        let mut made = self.made_of(rt, batch, want, watch)?;
        while let Some(one) = made.pop() {
            let Ok(search) = one else {
                return Err(AllocError);
            };
            searches.push(search)?;
            tell(searches, watch);
        }
        Ok(())
    }

    /// Searches of these programs, made side by side.
    fn made_of<R: Threads + Sync, W: Steps + Sync>(
        &self,
        rt: &R,
        batch: &[Vec<Patch>],
        want: Want,
        watch: &W,
    ) -> Result<Vec<Result<Search, AllocError>>, AllocError>
        requires ready { IsReady self.now.question }
        requires of_image { ArePrograms self.now.question batch.now }
        ensures { IfOk result (λ made. All (λ r. IfOk r (IsSearchedBy self.now)) made.items) }
    {
        let search = |i: usize| -> Result<Search, AllocError>
            requires { (i < length batch.now) × IsReady self.now.question × ArePrograms self.now.question batch.now }
            ensures { IfOk result (IsSearchedBy self.entry.now) }
        { self.search(&batch[i], want, watch) };
        thread::map_indices(rt, self.alloc, batch.len(), &search)
    }
}

/// Whether the program with these words was searched, and has other outcomes, or met a bound.
fn is_not_enough(searches: &[Search], patches: &[Patch]) -> bool {
    match search_in(searches, patches) {
        Some(search) => search.answer != Answer::Same,
        None => false,
    }
}
