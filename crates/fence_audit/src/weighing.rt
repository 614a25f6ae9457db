//! The weakest FENCEs that are enough in place of each that is needed.
ghost use Rattle.std.specs.Prelude.{◌≡◌, All, OnOk};
ghost use Rattle.std.specs.List.{list_any};
ghost use Rattle.elf_loader.specs.Image.{HasWord, word_at};
ghost use Rattle.fence_audit.specs.Auditing.{AreWeighed, IsSame, IsWeighed, is_below};
ghost use Rattle.fence_audit.specs.Searches.{ArePatchesOf, AreSearched, Grows, IsReady};
ghost use Rattle.image_orderings.specs.Forms.{IsVariant, weaker_words};

use crate::answers::Answer;
use crate::searches::{Asking, Search, Steps};
use image_orderings::{
    ImageOrdering, Part, Patch, is_weaker, patches_with, patches_without, weaker_words,
};
use std::alloc::AllocError;

impl Asking<'_> {
    /// Asks of each FENCE without which the program has other outcomes for weaker ones in its place.
    pub(crate) fn weigh_each<W: Steps + Sync>(
        &self,
        searches: &mut Vec<Search>,
        orderings: &[ImageOrdering],
        own: &[Patch],
        watch: &W,
    ) -> Result<(), AllocError>
        requires ready { IsReady self.now.question }
        requires of_image { ArePatchesOf self.now.question own.now }
        requires places { All (λ o. HasWord self.now.question.image.now o.address) orderings.now }
        ensures weighed { OnOk result (All (AreWeighed self.now.question.image.now searches.new.items own.now) orderings.now) }
        ensures grown { OnOk result (Grows searches.old.items searches.new.items) }
        ensures searched { OnOk result (AreSearched self.now searches.old.items → AreSearched self.now searches.new.items) }
    {
        for ordering in orderings {
            self.weigh(searches, *ordering, own, watch)?;
        }
        Ok(())
    }

    /// The same of one ordering.
    fn weigh<W: Steps + Sync>(
        &self,
        searches: &mut Vec<Search>,
        ordering: ImageOrdering,
        own: &[Patch],
        watch: &W,
    ) -> Result<(), AllocError>
        requires ready { IsReady self.now.question }
        requires of_image { ArePatchesOf self.now.question own.now }
        requires place { HasWord self.now.question.image.now ordering.address }
        ensures weighed { OnOk result (AreWeighed self.now.question.image.now searches.new.items own.now ordering) }
        ensures grown { OnOk result (Grows searches.old.items searches.new.items) }
        ensures searched { OnOk result (AreSearched self.now searches.old.items → AreSearched self.now searches.new.items) }
    {
        let without = patches_without(self.alloc, own, ordering)?;
        let answer = self.ask(searches, &without, watch)?;
        if let Answer::Same = answer {
            return Ok(());
        }
        let fence = self.question.image.word(ordering.address);
        match ordering.part {
            Part::Fence => self.weigh_fence(searches, ordering.address, fence, own, watch),
            Part::Acquire | Part::Release => Ok(()),
        }
    }

    /// Asks for the FENCEs that order less than the one of this word, those of fewer pairs first, unless a weaker one is
    /// enough.
    fn weigh_fence<W: Steps + Sync>(
        &self,
        searches: &mut Vec<Search>,
        address: u32,
        word: u32,
        own: &[Patch],
        watch: &W,
    ) -> Result<(), AllocError>
        requires ready { IsReady self.now.question }
        requires word { word ≡ word_at self.now.question.image.now address }
        requires of_image { ArePatchesOf self.now.question own.now }
        ensures weighed { OnOk result (All (IsWeighed searches.new.items own.now address) (weaker_words word)) }
        ensures grown { OnOk result (Grows searches.old.items searches.new.items) }
        ensures searched { OnOk result (AreSearched self.now searches.old.items → AreSearched self.now searches.new.items) }
    {
        let words = weaker_words(self.alloc, word)?;
        let mut enough = Vec::new(self.alloc);
        for form in words.as_slice() {
            self.weigh_form(searches, &mut enough, address, *form, own, watch)?;
        }
        Ok(())
    }

    /// Asks for the FENCE of this word at an address, unless one of those that are enough is weaker, and adds it to them
    /// where it is enough.
    fn weigh_form<W: Steps + Sync>(
        &self,
        searches: &mut Vec<Search>,
        enough: &mut Vec<u32>,
        address: u32,
        form: u32,
        own: &[Patch],
        watch: &W,
    ) -> Result<(), AllocError>
        requires ready { IsReady self.now.question }
        requires variant { IsVariant (word_at self.now.question.image.now address) form }
        requires of_image { ArePatchesOf self.now.question own.now }
        requires same { All (IsSame searches.old.items own.now address) enough.old.items }
        ensures weighed { OnOk result (IsWeighed searches.new.items own.now address form) }
        ensures same { OnOk result (All (IsSame searches.new.items own.now address) enough.new.items) }
        ensures grown { OnOk result (Grows searches.old.items searches.new.items) }
        ensures searched { OnOk result (AreSearched self.now searches.old.items → AreSearched self.now searches.new.items) }
    {
        if has_weaker(enough, form) {
            return Ok(());
        }
        let tried = patches_with(self.alloc, own, address, form)?;
        match self.ask(searches, &tried, watch)? {
            Answer::Same => {
                enough.push(form)?;
                Ok(())
            }
            Answer::Other(_) | Answer::Stops(_) | Answer::Fewer(_) | Answer::Bounded => Ok(()),
        }
    }
}

/// Whether one of the words orders less than this one.
fn has_weaker(words: &[u32], word: u32) -> bool
    ensures { result ≡ list_any (is_below word) words.now }
{
    words.iter().any(|each| is_weaker(*each, word))
}
