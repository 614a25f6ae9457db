//! Litmus programs, whose answers are published.

use super::found::{allowed, config_of};
use crate::words::image_of_digits;
use anyhow::{Context, Result, bail, ensure};
use elf_loader::Image;
use hart::Status;
use machine_types::{Config, MemoryModel};
use std::alloc::Global;
use std::fs;
use std::rt::Files;
use witnesses::Witness;

/// Whether each model allows the outcome asked for.
#[derive(Clone, Copy)]
struct Answers {
    rvwmo: bool,
    ztso: bool,
}

/// How many programs were asked, and of how many each model allows the outcome.
#[derive(Clone, Copy)]
struct Asked {
    programs: usize,
    rvwmo: usize,
    ztso: usize,
}

impl Asked {
    fn add(&mut self, answers: Answers) {
        self.programs = self.programs.saturating_add(1);
        self.rvwmo = self.rvwmo.saturating_add(usize::from(answers.rvwmo));
        self.ztso = self.ztso.saturating_add(usize::from(answers.ztso));
    }
}

/// Whether it is the outcome asked for, in which all harts exit with 0.
fn is_asked_for(witness: &Witness) -> bool {
    for hart in &witness.harts {
        if hart.status != Status::Exited(0) {
            return false;
        }
    }
    true
}

/// Whether the outcome asked for is found.
fn is_found(alloc: Global, image: &Image, config: Config) -> Result<bool> {
    for witness in &allowed(alloc, image, config)? {
        if is_asked_for(witness) {
            return Ok(true);
        }
    }
    Ok(false)
}

fn answer_of(word: &str) -> Result<bool> {
    match word {
        "allowed" => Ok(true),
        "forbidden" => Ok(false),
        word => bail!("no answer: {word}"),
    }
}

/// Fails where what is found under a model isn't its answer.
fn is_as_published(
    alloc: Global,
    image: &Image,
    config: Config,
    name: &str,
    answer: bool,
) -> Result<()> {
    let found = is_found(alloc, image, config).context(name)?;
    let model = config.model;
    ensure!(found == answer, "{name}, {model:?}: not as published");
    Ok(())
}

/// Asks a program under each model.
fn ask_each(alloc: Global, image: &Image, harts: u32, name: &str, answers: Answers) -> Result<()> {
    let rvwmo = config_of(harts, MemoryModel::Rvwmo)?;
    let ztso = config_of(harts, MemoryModel::Ztso)?;
    is_as_published(alloc, image, rvwmo, name, answers.rvwmo)?;
    is_as_published(alloc, image, ztso, name, answers.ztso)
}

/// Asks the program of a line under each model, and gives the answers; it fails where what is found isn't an answer.
fn ask(alloc: Global, line: &str) -> Result<Answers> {
    let mut words = line.split(' ');
    let name = words.next().context("a name")?;
    let harts = u32::from_str_radix(words.next().context("a number of harts")?, 10)?;
    let answers = Answers {
        rvwmo: answer_of(words.next().context("an answer")?)?,
        ztso: answer_of(words.next().context("an answer")?)?,
    };
    let image = image_of_digits(alloc, words)?;
    ask_each(alloc, &image, harts, name, answers)?;
    Ok(answers)
}

/// Asks the program of each line.
fn count_allowed(alloc: Global, text: &str) -> Result<Asked> {
    let mut asked = Asked {
        programs: 0,
        rvwmo: 0,
        ztso: 0,
    };
    for line in text.lines() {
        asked.add(ask(alloc, line)?);
    }
    Ok(asked)
}

/// Asks each program under both models, and says how many outcomes are allowed.
pub fn ask_all<R: Files + Print + AllocGlobal>(rt: &R) -> Result<()> {
    let text = fs::read_to_string(rt, "machine/litmus")?;
    let Asked {
        programs,
        rvwmo,
        ztso,
    } = count_allowed(rt.alloc(), text.as_str())?;
    println!(rt; "litmus: of {programs} programs RVWMO allows {rvwmo}, Ztso {ztso}, as published")?;
    Ok(())
}
