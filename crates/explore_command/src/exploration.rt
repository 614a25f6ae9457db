//! An exploration, as it is told, judged and kept.

ghost use Rattle.std.specs.Prelude.{◌≡◌, ◌≢◌, [], is_some, length, not};
ghost use Rattle.explore_command.specs.Exploring.{tells_failures};
ghost use Rattle.explore_command.specs.Judging.{is_complete};
ghost use Rattle.explore_command.specs.Keeping.{AreKept, IsScriptOf};
ghost use Rattle.exploration_text.specs.Words.{end_text, exploration_text};
ghost use Rattle.explorer.specs.Ends.{outcome_of};
ghost use Rattle.flat_model.specs.Shown.{told};
ghost use Rattle.state_search.specs.declared.findings.Extent.TheVariants as extent;

use crate::findings::Findings;
use crate::keeping::{Folder, Keepable, keep_exploration};
use command_files::{Fault, Files};
use elf_symbols::Symbols;
use exploration_text::{end_text, text_of};
use explorer::{Exploration, Found};
use flat_model::HartResult;
use state_search::Extent;
use std::alloc::{AllocError, Global};

/// What was found, and the names that the image's file has.
#[derive(Drop)]
pub(crate) struct Explored<'a> {
    pub(crate) symbols: &'a Symbols,
    pub(crate) exploration: Exploration,
}

impl Findings for Explored<'_> {
    type Outcome = Found;

    ghost text = { λ e. exploration_text [] e.symbols.now e.exploration };

    ghost outcomes = { λ e. e.exploration.outcomes.items };

    ghost line = { λ e f. end_text [] (outcome_of f) };

    ghost harts = { λ f. (outcome_of f).results };

    ghost has_failures = { λ e. tells_failures e.exploration };

    ghost is_stuck = { λ e. is_some e.exploration.stuck };

    ghost is_incomplete = { λ e. not (is_complete e.exploration.extent) };

    ghost IsWhole = { λ e. e.exploration.extent ≢ extent.OutOfMemory };

    fn text(&self, alloc: Global) -> Result<Vec<u8>, AllocError> {
        text_of(alloc, &[], self.symbols, &self.exploration)
    }

    fn outcomes(&self) -> &[Found] {
        &self.exploration.outcomes
    }

    fn line(&self, alloc: Global, outcome: &Found) -> Result<Vec<u8>, AllocError> {
        end_text(alloc, &[], &outcome.harts, &outcome.words)
    }

    fn harts(outcome: &Found) -> &[HartResult]
        ensures { told result.now ≡ (outcome_of outcome.now).results }
    {
        &outcome.harts
    }

    fn has_failures(&self) -> bool {
        !self.exploration.failures.is_empty()
    }

    fn is_stuck(&self) -> bool {
        self.exploration.stuck.is_some()
    }

    fn is_incomplete(&self) -> bool {
        self.exploration.extent != Extent::Complete
    }

    fn is_whole(&self) -> bool {
        self.exploration.extent != Extent::OutOfMemory
    }
}

impl Keepable for Explored<'_> {
    ghost HasTexts = { λ e. Unit {0} };

    ghost AreKept = { λ e left config kib folder. AreKept left config kib folder e.exploration };

    ghost IsFileOf = { λ e. IsScriptOf (length e.exploration.outcomes.items) (length e.exploration.failures.items) e.exploration.stuck };

    fn keep_in<'a, F: Files>(&self, folder: Folder<'a>, files: &mut F) -> Result<(), Fault<'a>> {
        keep_exploration(folder, files, &self.exploration)
    }
}
