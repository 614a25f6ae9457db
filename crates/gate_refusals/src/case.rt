//! The files of a case.

use anyhow::{Context, Result, bail};
use elf_loader::{Image, raw, size_of_kib};
use machine_types::{Config, MemoryModel};
use std::alloc::Global;
use std::rt::Files;
use std::{fs, io};
use trace_text::{Script, read_script};

/// The texts that a script is to give.
#[derive(Drop)]
pub struct Kept {
    /// A line for each event.
    pub outcomes: Vec<u8>,
    pub trace: Vec<u8>,
    /// A line for each hart.
    pub ends: Vec<u8>,
}

/// Bare words, a script, and what it is to give.
pub struct Case {
    words: Vec<u8>,
    pub config: Config,
    pub script: Script,
    pub kept: Kept,
}

// A call of its own: derived, it would stand field by field in each function that owns one.
impl Drop for Case {
    fn drop(self) {
        let Case {
            words: _,
            config: _,
            script: _,
            kept: _,
        } = self;
    }
}

/// The file of a case with this ending.
fn file<R: Files + AllocGlobal>(rt: &R, name: &str, ending: &str) -> io::Result<Vec<u8>> {
    let path = format!(in rt.alloc(); "machine/{name}.{ending}")?;
    fs::read(rt, path.as_str())
}

fn script_of<R: Files + AllocGlobal>(rt: &R, name: &str) -> Result<Script> {
    let text = file(rt, name, "script")?;
    match read_script(rt.alloc(), &text) {
        Ok(script) => Ok(script),
        Err(fault) => bail!("{fault:?}"),
    }
}

fn config_of(script: &Script) -> Result<Config> {
    let Script {
        harts,
        sets,
        ways,
        line,
        ..
    } = script;
    Config::new(*harts, *sets, *ways, *line, MemoryModel::Rvwmo).context("a configuration")
}

impl Kept {
    fn read<R: Files + AllocGlobal>(rt: &R, name: &str) -> io::Result<Kept> {
        let outcomes = file(rt, name, "outcomes")?;
        let trace = file(rt, name, "trace")?;
        let ends = file(rt, name, "err")?;
        Ok(Kept {
            outcomes,
            trace,
            ends,
        })
    }
}

impl Case {
    pub fn read<R: Files + AllocGlobal>(rt: &R, name: &str) -> Result<Case> {
        let script = script_of(rt, name)?;
        let config = config_of(&script)?;
        let words = file(rt, name, "bin")?;
        let kept = Kept::read(rt, name)?;
        Ok(Case {
            words,
            config,
            script,
            kept,
        })
    }

    /// The image, made once more where memory is refused at first: no machine has asked for it.
    pub fn image(&self, alloc: Global) -> Result<Image> {
        let size = size_of_kib(self.script.kib).context("a memory size")?;
        match raw(alloc, &self.words, size) {
            Ok(image) => Ok(image),
            Err(_) => Ok(raw(alloc, &self.words, size)?),
        }
    }
}
