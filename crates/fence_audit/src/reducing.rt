//! A program with fewer orderings and the same outcomes.
ghost use Rattle.std.specs.Prelude.{◌≡◌, All, IfOk, OnOk};
ghost use Rattle.elf_loader.specs.Image.{word_at};
ghost use Rattle.fence_audit.specs.Auditing.{IsEnough};
ghost use Rattle.fence_audit.specs.Searches.{ArePatchesOf, AreSearched, Grows, IsReady};
ghost use Rattle.image_orderings.specs.Forms.{IsVariant};

use crate::answers::Answer;
use crate::searches::{Asking, Search, Steps};
use image_orderings::{
    ImageOrdering, Part, Patch, patches_with, patches_without, weaker_words, word_in,
};
use std::alloc::AllocError;

impl Asking<'_> {
    /// The program with each ordering left out in turn, and then each FENCE made weaker, where the outcomes stay the
    /// same.
    pub(crate) fn reduced<W: Steps + Sync>(
        &self,
        searches: &mut Vec<Search>,
        orderings: &[ImageOrdering],
        own: &[Patch],
        watch: &W,
    ) -> Result<Vec<Patch>, AllocError>
        requires ready { IsReady self.now.question }
        requires of_image { ArePatchesOf self.now.question own.now }
        ensures enough { IfOk result (λ last. IsEnough own.now searches.new.items last.items) }
        ensures of_image { IfOk result (λ last. ArePatchesOf self.now.question last.items) }
        ensures grown { OnOk result (Grows searches.old.items searches.new.items) }
        ensures searched { OnOk result (AreSearched self.now searches.old.items → AreSearched self.now searches.new.items) }
    {
        let mut last = own.to_vec(self.alloc)?;
        for ordering in orderings {
            last = self.reduced_by(searches, *ordering, own, last, watch)?;
        }
        self.weakened(searches, orderings, own, last, watch)
    }

    /// The program without an ordering, where the outcomes stay the same, or else as it was.
    fn reduced_by<W: Steps + Sync>(
        &self,
        searches: &mut Vec<Search>,
        ordering: ImageOrdering,
        own: &[Patch],
        last: Vec<Patch>,
        watch: &W,
    ) -> Result<Vec<Patch>, AllocError>
        requires ready { IsReady self.now.question }
        requires of_image { ArePatchesOf self.now.question last.items }
        requires enough { IsEnough own.now searches.old.items last.items }
        ensures enough { IfOk result (λ made. IsEnough own.now searches.new.items made.items) }
        ensures of_image { IfOk result (λ made. ArePatchesOf self.now.question made.items) }
        ensures grown { OnOk result (Grows searches.old.items searches.new.items) }
        ensures searched { OnOk result (AreSearched self.now searches.old.items → AreSearched self.now searches.new.items) }
    {
        let tried = patches_without(self.alloc, &last, ordering)?;
        match self.ask(searches, &tried, watch)? {
            Answer::Same => Ok(tried),
            Answer::Other(_) | Answer::Stops(_) | Answer::Fewer(_) | Answer::Bounded => Ok(last),
        }
    }

    /// The program with each FENCE made weaker, where the outcomes stay the same.
    fn weakened<W: Steps + Sync>(
        &self,
        searches: &mut Vec<Search>,
        orderings: &[ImageOrdering],
        own: &[Patch],
        last: Vec<Patch>,
        watch: &W,
    ) -> Result<Vec<Patch>, AllocError>
        requires ready { IsReady self.now.question }
        requires of_image { ArePatchesOf self.now.question last.items }
        requires enough { IsEnough own.now searches.old.items last.items }
        ensures enough { IfOk result (λ made. IsEnough own.now searches.new.items made.items) }
        ensures of_image { IfOk result (λ made. ArePatchesOf self.now.question made.items) }
        ensures grown { OnOk result (Grows searches.old.items searches.new.items) }
        ensures searched { OnOk result (AreSearched self.now searches.old.items → AreSearched self.now searches.new.items) }
    {
        let mut last = last;
        for ordering in orderings {
            if ordering.part == Part::Fence {
                last = self.weakened_at(searches, ordering.address, own, last, watch)?;
            }
        }
        Ok(last)
    }

    /// The program with the first FENCE at an address that is enough, of those that order less than the one there and
    /// begin with those of fewest pairs.
    fn weakened_at<W: Steps + Sync>(
        &self,
        searches: &mut Vec<Search>,
        address: u32,
        own: &[Patch],
        last: Vec<Patch>,
        watch: &W,
    ) -> Result<Vec<Patch>, AllocError>
        requires ready { IsReady self.now.question }
        requires of_image { ArePatchesOf self.now.question last.items }
        requires enough { IsEnough own.now searches.old.items last.items }
        ensures enough { IfOk result (λ made. IsEnough own.now searches.new.items made.items) }
        ensures of_image { IfOk result (λ made. ArePatchesOf self.now.question made.items) }
        ensures grown { OnOk result (Grows searches.old.items searches.new.items) }
        ensures searched { OnOk result (AreSearched self.now searches.old.items → AreSearched self.now searches.new.items) }
    {
        let Some(word) = word_in(&last, address) else {
            return Ok(last);
        };
        let words = weaker_words(self.alloc, word)?;
        self.replaced_at(searches, address, &words, own, last, watch)
    }

    /// The program with the first of these words at an address that is enough, or else as it was.
    pub(crate) fn replaced_at<W: Steps + Sync>(
        &self,
        searches: &mut Vec<Search>,
        address: u32,
        words: &[u32],
        own: &[Patch],
        last: Vec<Patch>,
        watch: &W,
    ) -> Result<Vec<Patch>, AllocError>
        requires ready { IsReady self.now.question }
        requires variants { All (IsVariant (word_at self.now.question.image.now address)) words.now }
        requires of_image { ArePatchesOf self.now.question last.items }
        requires enough { IsEnough own.now searches.old.items last.items }
        ensures enough { IfOk result (λ made. IsEnough own.now searches.new.items made.items) }
        ensures of_image { IfOk result (λ made. ArePatchesOf self.now.question made.items) }
        ensures grown { OnOk result (Grows searches.old.items searches.new.items) }
        ensures searched { OnOk result (AreSearched self.now searches.old.items → AreSearched self.now searches.new.items) }
    {
        for form in words {
            let tried = patches_with(self.alloc, &last, address, *form)?;
            let answer = self.ask(searches, &tried, watch)?;
            if let Answer::Same = answer {
                return Ok(tried);
            }
        }
        Ok(last)
    }
}
