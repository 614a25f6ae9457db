//! Two machines of one image and configuration.

use super::views::is_same_view;
use crate::images::{ImageKind, image_of};
use crate::scripts::Playable;
use anyhow::{Context, Result, ensure};
use coherent_machine::Machine;
use elf_loader::Image;
use gate_plain_machine::PlainMachine;
use machine_types::{Config, Event, MemoryModel, Outcome};
use std::alloc::Global;
use tl_types::LineSize;
use trace_recorder::Trace;
use trace_text::write_trace;

/// Loads the word at 0x80000100 and stores 1 to it, for ever.
static PROGRAM: [u32; 5] = [
    0x8000_0637,
    0x0010_0693,
    0x1006_2703,
    0x10d6_2023,
    0xff9f_f06f,
];

/// Caches of one line of 16 bytes each.
fn config_of(model: MemoryModel) -> Result<Config> {
    Config::new(2, 1, 1, LineSize::Bytes16, model).context("a configuration")
}

/// A memory of 4 KiB.
pub fn image_of_words(alloc: Global, words: &[u32]) -> Result<Image> {
    let mut bytes = Vec::new(alloc);
    for word in words {
        bytes.extend_from_slice(&word.to_le_bytes())?;
    }
    image_of(alloc, ImageKind::Raw, &bytes, 4)
}

#[derive(Drop)]
pub struct Pair {
    plain: PlainMachine,
    coherent: Machine,
}

impl Pair {
    pub fn at_reset(alloc: Global, model: MemoryModel) -> Result<Pair> {
        let config = config_of(model)?;
        let plain = at_reset(alloc, config)?;
        let coherent = at_reset(alloc, config)?;
        Ok(Pair { plain, coherent })
    }

    /// The event's outcome, which is to be the same of both machines.
    pub fn apply(&mut self, event: Event) -> Result<Outcome> {
        let expected = self.plain.happen(event)?;
        let outcome = self.coherent.happen(event)?;
        ensure!(
            outcome == expected,
            "{event:?}: {outcome:?} for {expected:?}"
        );
        Ok(outcome)
    }

    /// Whether the machines are the same, as far as they can be asked of this word.
    pub fn is_alike(&self, word: u32) -> bool {
        let views = self.coherent.views();
        self.plain.changes() == views.changes()
            && is_same_view(&self.plain, &views, 0, word)
            && is_same_view(&self.plain, &views, 1, word)
    }

    /// The texts of both traces, and what the harts put out, are the same.
    pub fn end_alike(self, alloc: Global) -> Result<()> {
        let Pair { plain, coherent } = self;
        are_alike(alloc, &plain.ended()?, &coherent.ended()?)
    }
}

fn at_reset<M: Playable>(alloc: Global, config: Config) -> Result<M> {
    let image = image_of_words(alloc, &PROGRAM)?;
    M::at_reset(alloc, image, config)
}

/// A trace, and what the harts put out.
type Parts = (Trace, Vec<Vec<u32>>);

fn are_alike(alloc: Global, expected: &Parts, parts: &Parts) -> Result<()> {
    let has_one_text = has_one_text(alloc, &expected.0, &parts.0)?;
    ensure!(has_one_text && parts.1 == expected.1, "traces differ");
    Ok(())
}

fn text_of(alloc: Global, trace: &Trace) -> Result<Vec<u8>> {
    let mut text = Vec::new(alloc);
    write_trace(trace, &mut text)?;
    Ok(text)
}

fn has_one_text(alloc: Global, expected: &Trace, trace: &Trace) -> Result<bool> {
    Ok(text_of(alloc, trace)? == text_of(alloc, expected)?)
}
