//! What a program lacks that has outcomes that aren't allowed: with which orderings added it has none.
ghost use Rattle.std.specs.Prelude.{All, IfOk, OnOk};
ghost use Rattle.fence_audit.specs.Adding.{IsAddition, IsReverted};
ghost use Rattle.fence_audit.specs.Auditing.{IsEnough};
ghost use Rattle.fence_audit.specs.Searches.{ArePatchesOf, AreSearched, Grows, IsReady};
ghost use Rattle.image_orderings.specs.Replaced.{IsPatchOf};

use crate::answers::is_enough;
use crate::searches::{Asking, Search, Steps, Want};
use image_orderings::{Patch, milder_words, patches_with, word_in};
use std::alloc::AllocError;
use std::thread::Threads;

/// The searches of programs with more orderings, and the one that they lead to.
#[derive(Drop)]
pub(crate) struct Added {
    pub searches: Vec<Search>,
    pub last: Vec<Patch>,
}

/// How many programs are searched at most: as it is, with all that it may order, twice with each of its own words, and with
/// the at most 11 words between the two.
fn most_added(own: &[Patch]) -> u64 {
    (own.len() as u64).saturating_mul(13).saturating_add(2)
}

impl Asking<'_> {
    /// Asks for the program with all of these orderings; where they are enough, for ever fewer of them, and at last for
    /// the program that is left without each.
    pub(crate) fn addition<R: Threads + Sync, W: Steps + Sync>(
        &self,
        rt: &R,
        own: &[Patch],
        most: &[Patch],
        watch: &W,
    ) -> Result<Added, AllocError>
        requires ready { IsReady self.now.question }
        requires own { ArePatchesOf self.now.question own.now }
        requires of_image { ArePatchesOf self.now.question most.now }
        ensures { IfOk result (λ r. IsAddition self.now own.now most.now r.searches.items r.last.items) }
    {
        watch.expects(most_added(own));
        let mut searches = Vec::new(self.alloc);
        let last = most.to_vec(self.alloc)?;
        let answer = self.ask_for(&mut searches, most, Want::First, watch)?;
        if !is_enough(answer) {
            return Ok(Added { searches, last });
        }
        let last = self.trimmed(rt, &mut searches, own, most, last, watch)?;
        Ok(Added { searches, last })
    }

    /// The program with each of its own words again in turn, and then with words that order less, where that is enough.
    fn trimmed<R: Threads + Sync, W: Steps + Sync>(
        &self,
        rt: &R,
        searches: &mut Vec<Search>,
        own: &[Patch],
        most: &[Patch],
        last: Vec<Patch>,
        watch: &W,
    ) -> Result<Vec<Patch>, AllocError>
        requires ready { IsReady self.now.question }
        requires own { ArePatchesOf self.now.question own.now }
        requires of_image { ArePatchesOf self.now.question last.items }
        requires enough { IsEnough most.now searches.old.items last.items }
        ensures enough { IfOk result (λ made. IsEnough most.now searches.new.items made.items) }
        ensures each { IfOk result (λ made. All (IsReverted searches.new.items made.items) own.now) }
        ensures grown { OnOk result (Grows searches.old.items searches.new.items) }
        ensures searched { OnOk result (AreSearched self.now searches.old.items → AreSearched self.now searches.new.items) }
    {
        let last = self.reverted(searches, own, most, last, watch)?;
        let last = self.milder(searches, own, most, last, watch)?;
        self.prepare_reverted(rt, searches, own, &last, watch)?;
        self.ask_reverted(searches, own, &last, watch)?;
        Ok(last)
    }

    /// The program with each of its own words again in turn, where that is enough.
    fn reverted<W: Steps + Sync>(
        &self,
        searches: &mut Vec<Search>,
        own: &[Patch],
        most: &[Patch],
        last: Vec<Patch>,
        watch: &W,
    ) -> Result<Vec<Patch>, AllocError>
        requires ready { IsReady self.now.question }
        requires own { ArePatchesOf self.now.question own.now }
        requires of_image { ArePatchesOf self.now.question last.items }
        requires enough { IsEnough most.now searches.old.items last.items }
        ensures enough { IfOk result (λ made. IsEnough most.now searches.new.items made.items) }
        ensures of_image { IfOk result (λ made. ArePatchesOf self.now.question made.items) }
        ensures grown { OnOk result (Grows searches.old.items searches.new.items) }
        ensures searched { OnOk result (AreSearched self.now searches.old.items → AreSearched self.now searches.new.items) }
    {
        let mut last = last;
        for patch in own {
            let words = [patch.word];
            last = self.replaced_at(searches, patch.address, &words, most, last, watch)?;
        }
        Ok(last)
    }

    /// The program with words that order less where its own are replaced, where that is enough.
    fn milder<W: Steps + Sync>(
        &self,
        searches: &mut Vec<Search>,
        own: &[Patch],
        most: &[Patch],
        last: Vec<Patch>,
        watch: &W,
    ) -> Result<Vec<Patch>, AllocError>
        requires ready { IsReady self.now.question }
        requires of_image { ArePatchesOf self.now.question last.items }
        requires enough { IsEnough most.now searches.old.items last.items }
        ensures enough { IfOk result (λ made. IsEnough most.now searches.new.items made.items) }
        ensures of_image { IfOk result (λ made. ArePatchesOf self.now.question made.items) }
        ensures grown { OnOk result (Grows searches.old.items searches.new.items) }
        ensures searched { OnOk result (AreSearched self.now searches.old.items → AreSearched self.now searches.new.items) }
    {
        let mut last = last;
        for patch in own {
            last = self.milder_at(searches, *patch, most, last, watch)?;
        }
        Ok(last)
    }

    /// The program with the first word that is enough of those that order less than the one at an address, unless that is
    /// its own.
    fn milder_at<W: Steps + Sync>(
        &self,
        searches: &mut Vec<Search>,
        own: Patch,
        most: &[Patch],
        last: Vec<Patch>,
        watch: &W,
    ) -> Result<Vec<Patch>, AllocError>
        requires ready { IsReady self.now.question }
        requires of_image { ArePatchesOf self.now.question last.items }
        requires enough { IsEnough most.now searches.old.items last.items }
        ensures enough { IfOk result (λ made. IsEnough most.now searches.new.items made.items) }
        ensures of_image { IfOk result (λ made. ArePatchesOf self.now.question made.items) }
        ensures grown { OnOk result (Grows searches.old.items searches.new.items) }
        ensures searched { OnOk result (AreSearched self.now searches.old.items → AreSearched self.now searches.new.items) }
    {
        let Some(word) = word_in(&last, own.address) else {
            return Ok(last);
        };
        if word == own.word {
            return Ok(last);
        }
        let words = milder_words(self.alloc, own.word, word)?;
        self.replaced_at(searches, own.address, &words, most, last, watch)
    }

    /// Asks for the program with each of its own words again.
    fn ask_reverted<W: Steps + Sync>(
        &self,
        searches: &mut Vec<Search>,
        own: &[Patch],
        patches: &[Patch],
        watch: &W,
    ) -> Result<(), AllocError>
        requires ready { IsReady self.now.question }
        requires own { ArePatchesOf self.now.question own.now }
        requires of_image { ArePatchesOf self.now.question patches.now }
        ensures asked { OnOk result (All (IsReverted searches.new.items patches.now) own.now) }
        ensures grown { OnOk result (Grows searches.old.items searches.new.items) }
        ensures searched { OnOk result (AreSearched self.now searches.old.items → AreSearched self.now searches.new.items) }
    {
        for patch in own {
            self.ask_with(searches, *patch, patches, watch)?;
        }
        Ok(())
    }

    /// Asks for the program with one of its own words again.
    fn ask_with<W: Steps + Sync>(
        &self,
        searches: &mut Vec<Search>,
        own: Patch,
        patches: &[Patch],
        watch: &W,
    ) -> Result<(), AllocError>
        requires ready { IsReady self.now.question }
        requires own { IsPatchOf self.now.question.image.now own }
        requires of_image { ArePatchesOf self.now.question patches.now }
        ensures asked { OnOk result (IsReverted searches.new.items patches.now own) }
        ensures grown { OnOk result (Grows searches.old.items searches.new.items) }
        ensures searched { OnOk result (AreSearched self.now searches.old.items → AreSearched self.now searches.new.items) }
    {
        let tried = patches_with(self.alloc, patches, own.address, own.word)?;
        let _answer = self.ask(searches, &tried, watch)?;
        Ok(())
    }
}
