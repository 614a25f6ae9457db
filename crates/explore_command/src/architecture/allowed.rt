//! What a memory model was found to allow, as it is told, judged and kept.

ghost use Rattle.std.specs.Prelude.{◌≡◌, ◌≢◌, false, not};
ghost use Rattle.explore_command.specs.Searching.{is_whole, tells_stops};
ghost use Rattle.explore_command.specs.ModelKeeping.{AreKeptOf, HaveTexts, IsFileOf};
ghost use Rattle.architecture_outcomes.specs.Outcomes.{end_of};
ghost use Rattle.architecture_outcomes.specs.Text.{architecture_text};
ghost use Rattle.exploration_text.specs.Words.{end_text};
ghost use Rattle.flat_model.specs.Shown.{told};
ghost use Rattle.state_search.specs.declared.findings.Extent.TheVariants as extent;
ghost use Rattle.architecture_outcomes.specs.TheVariants as reach;

use crate::architecture::keeping::keep_found;
use crate::findings::Findings;
use crate::keeping::{Folder, Keepable};
use architecture_outcomes::window_search::Reach;
use architecture_outcomes::{Architecture, Outcome, text_of};
use command_files::{Fault, Files};
use elf_symbols::Symbols;
use exploration_text::{WordName, end_text};
use flat_model::HartResult;
use state_search::Extent;
use std::alloc::{AllocError, Global};

/// What a search under a memory model found, what lines call the words of memory, and the names that the image's file has.
#[derive(Drop)]
pub(crate) struct Searched<'a> {
    pub(crate) names: Vec<WordName<'a>>,
    pub(crate) symbols: Symbols,
    pub(crate) architecture: Architecture,
}

impl Findings for Searched<'_> {
    type Outcome = Outcome;

    ghost text = { λ s. architecture_text s.names.items s.symbols s.architecture };

    ghost outcomes = { λ s. s.architecture.outcomes.items };

    ghost line = { λ s o. end_text s.names.items (end_of o) };

    ghost harts = { λ o. (end_of o).results };

    ghost has_failures = { λ s. tells_stops s.architecture };

    ghost is_stuck = { λ s. false };

    ghost is_incomplete = { λ s. not (is_whole s.architecture.reach s.architecture.machine) };

    ghost IsWhole = { λ s. (s.architecture.machine ≢ extent.OutOfMemory) × (s.architecture.reach ≢ reach.OutOfMemory) };

    fn text(&self, alloc: Global) -> Result<Vec<u8>, AllocError> {
        text_of(alloc, &self.names, &self.symbols, &self.architecture)
    }

    fn outcomes(&self) -> &[Outcome] {
        &self.architecture.outcomes
    }

    fn line(&self, alloc: Global, outcome: &Outcome) -> Result<Vec<u8>, AllocError> {
        end_text(alloc, &self.names, &outcome.harts, &outcome.words)
    }

    fn harts(outcome: &Outcome) -> &[HartResult]
        ensures { told result.now ≡ (end_of outcome.now).results }
    {
        &outcome.harts
    }

    fn has_failures(&self) -> bool {
        !self.architecture.failures.is_empty()
    }

    // It doesn't look for states from which no schedule ends.

    fn is_stuck(&self) -> bool {
        false
    }

    fn is_incomplete(&self) -> bool {
        let found = &self.architecture;
        found.reach != Reach::Whole || found.machine != Extent::Complete
    }

    fn is_whole(&self) -> bool {
        let found = &self.architecture;
        found.machine != Extent::OutOfMemory && found.reach != Reach::OutOfMemory
    }
}

impl Keepable for Searched<'_> {
    ghost HasTexts = { λ s. HaveTexts s.architecture };

    ghost AreKept = { λ s. AreKeptOf s.architecture };

    ghost IsFileOf = { λ s. IsFileOf s.architecture };

    fn keep_in<'a, F: Files>(&self, folder: Folder<'a>, files: &mut F) -> Result<(), Fault<'a>> {
        keep_found(folder, files, &self.architecture)
    }
}
