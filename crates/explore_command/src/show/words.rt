//! An exploration that shows words of memory, as it is told and judged.

ghost use Rattle.std.specs.Prelude.{◌≡◌, ◌≢◌, is_some, length, not};
ghost use Rattle.explore_command.specs.Exploring.{tells_failures};
ghost use Rattle.explore_command.specs.Judging.{is_complete};
ghost use Rattle.explore_command.specs.Keeping.{AreKept, IsScriptOf};
ghost use Rattle.exploration_text.specs.Words.{end_text, exploration_text};
ghost use Rattle.state_search.specs.declared.findings.Extent.TheVariants as extent;
ghost use Rattle.explorer.specs.Ends.{outcome_of};
ghost use Rattle.flat_model.specs.Shown.{told};

use crate::findings::Findings;
use crate::keeping::{Folder, Keepable, keep_exploration};
use command_files::{Fault, Files};
use elf_symbols::Symbols;
use exploration_text::{WordName, end_text, text_of};
use explorer::{Exploration, Found};
use flat_model::HartResult;
use state_search::Extent;
use std::alloc::{AllocError, Global};

/// What was found, what lines call the words, and the names that the image's file has.
#[derive(Drop)]
pub(crate) struct Shown<'a> {
    pub(crate) names: Vec<WordName<'a>>,
    pub(crate) symbols: Symbols,
    pub(crate) exploration: Exploration,
}

impl Findings for Shown<'_> {
    type Outcome = Found;

    ghost text = { λ s. exploration_text s.names.items s.symbols s.exploration };

    ghost outcomes = { λ s. s.exploration.outcomes.items };

    ghost line = { λ s f. end_text s.names.items (outcome_of f) };

    ghost harts = { λ f. (outcome_of f).results };

    ghost has_failures = { λ s. tells_failures s.exploration };

    ghost is_stuck = { λ s. is_some s.exploration.stuck };

    ghost is_incomplete = { λ s. not (is_complete s.exploration.extent) };

    ghost IsWhole = { λ s. s.exploration.extent ≢ extent.OutOfMemory };

    fn text(&self, alloc: Global) -> Result<Vec<u8>, AllocError> {
        text_of(alloc, &self.names, &self.symbols, &self.exploration)
    }

    fn outcomes(&self) -> &[Found] {
        &self.exploration.outcomes
    }

    fn line(&self, alloc: Global, outcome: &Found) -> Result<Vec<u8>, AllocError> {
        end_text(alloc, &self.names, &outcome.harts, &outcome.words)
    }

    fn harts(outcome: &Found) -> &[HartResult]
        ensures { told result.now ≡ (outcome_of outcome.now).results }
    {
        &outcome.harts
    }

    fn has_failures(&self) -> bool {
        !self.exploration.failures.is_empty()
    }

    fn is_stuck(&self) -> bool {
        self.exploration.stuck.is_some()
    }

    fn is_incomplete(&self) -> bool {
        self.exploration.extent != Extent::Complete
    }

    fn is_whole(&self) -> bool {
        self.exploration.extent != Extent::OutOfMemory
    }
}

impl Keepable for Shown<'_> {
    ghost HasTexts = { λ s. Unit {0} };

    ghost AreKept = { λ s left config kib folder. AreKept left config kib folder s.exploration };

    ghost IsFileOf = { λ s. IsScriptOf (length s.exploration.outcomes.items) (length s.exploration.failures.items) s.exploration.stuck };

    fn keep_in<'a, F: Files>(&self, folder: Folder<'a>, files: &mut F) -> Result<(), Fault<'a>> {
        keep_exploration(folder, files, &self.exploration)
    }
}
