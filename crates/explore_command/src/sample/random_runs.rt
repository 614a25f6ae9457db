//! Random runs, as they are told, judged and kept.

ghost use Rattle.std.specs.Prelude.{◌≡◌, ◌≤◌, false, length, true};
ghost use Rattle.exploration_text.specs.Sampling.{sampled_text};
ghost use Rattle.exploration_text.specs.Text.{harts_text};
ghost use Rattle.explore_command.specs.Keeping.{AreKeptFrom, IsOutcomeScript};
ghost use Rattle.explorer.specs.Ends.{outcome_of};
ghost use Rattle.flat_model.specs.Shown.{told};

use crate::findings::Findings;
use crate::keeping::{Folder, Keepable, keep_outcomes};
use command_files::{Fault, Files};
use exploration_text::{harts_text, sampled_text};
use explorer::{Found, Sampled};
use flat_model::HartResult;
use std::alloc::{AllocError, Global};

/// What random runs came to.
#[derive(Drop)]
pub(crate) struct Runs {
    pub(crate) sampled: Sampled,
    /// How many runs were asked for.
    pub(crate) asked: u32,
}

impl Findings for Runs {
    type Outcome = Found;

    ghost text = { λ r. sampled_text r.sampled };

    ghost outcomes = { λ r. r.sampled.ends.items };

    ghost line = { λ r f. harts_text 0 (outcome_of f).results };

    ghost harts = { λ f. (outcome_of f).results };

    ghost has_failures = { λ r. false };

    ghost is_stuck = { λ r. false };

    ghost is_incomplete = { λ r. true };

    ghost IsWhole = { λ r. r.asked ≤ r.sampled.runs };

    fn text(&self, alloc: Global) -> Result<Vec<u8>, AllocError> {
        sampled_text(alloc, &self.sampled)
    }

    fn outcomes(&self) -> &[Found] {
        &self.sampled.ends
    }

    fn line(&self, alloc: Global, outcome: &Found) -> Result<Vec<u8>, AllocError> {
        harts_text(alloc, &outcome.harts)
    }

    fn harts(outcome: &Found) -> &[HartResult]
        ensures { told result.now ≡ (outcome_of outcome.now).results }
    {
        &outcome.harts
    }

    // Runs are counted by their ends alone, and don't show that no schedule ends, nor that there is no other end.

    fn has_failures(&self) -> bool {
        false
    }

    fn is_stuck(&self) -> bool {
        false
    }

    fn is_incomplete(&self) -> bool {
        true
    }

    fn is_whole(&self) -> bool {
        self.sampled.runs >= u64::from(self.asked)
    }
}

impl Keepable for Runs {
    ghost HasTexts = { λ r. Unit {0} };

    ghost AreKept = { λ r left config kib folder. AreKeptFrom left config kib folder 1 r.sampled.ends.items };

    ghost IsFileOf = { λ r. IsOutcomeScript (length r.sampled.ends.items) };

    fn keep_in<'a, F: Files>(&self, folder: Folder<'a>, files: &mut F) -> Result<(), Fault<'a>> {
        keep_outcomes(folder, files, &self.sampled.ends)
    }
}
