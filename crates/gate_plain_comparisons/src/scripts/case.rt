//! A case of the file `cases`, and its files.

use crate::images::{ImageKind, image_of};
use anyhow::{Context, Result, bail};
use elf_loader::Image;
use machine_types::{Config, MemoryModel};
use std::alloc::Global;
use std::fs;
use std::rt::Files;
use trace_text::{Script, read_script};

/// The files of a case, by what their names end in behind its own.
pub struct Case {
    pub kind: ImageKind,
    pub model: MemoryModel,
    pub image_path: String,
    pub script_path: String,
    pub image: Vec<u8>,
    pub script: Vec<u8>,
    pub trace: Vec<u8>,
    /// Those of programs from ELF files aren't kept.
    pub outcomes: Vec<u8>,
    pub ends: Vec<u8>,
}

// A call of its own: derived, it would stand field by field in each function that owns one.
impl Drop for Case {
    fn drop(self) {
        let Case {
            kind: _,
            model: _,
            image_path: _,
            script_path: _,
            image: _,
            script: _,
            trace: _,
            outcomes: _,
            ends: _,
        } = self;
    }
}

impl Case {
    pub fn blank(alloc: Global) -> Case {
        Case {
            kind: ImageKind::Raw,
            model: MemoryModel::Rvwmo,
            image_path: String::new(alloc),
            script_path: String::new(alloc),
            image: Vec::new(alloc),
            script: Vec::new(alloc),
            trace: Vec::new(alloc),
            outcomes: Vec::new(alloc),
            ends: Vec::new(alloc),
        }
    }

    /// Takes what a line of `cases` says, and gives the case's name; none where it says no case.
    pub fn set<'a>(&mut self, line: &'a str) -> Option<&'a str> {
        let mut words = line.split(' ');
        let name = words.next()?;
        self.kind = match words.next()? {
            "raw" => ImageKind::Raw,
            "elf" => ImageKind::Elf,
            _ => return None,
        };
        self.model = match words.next()? {
            "rvwmo" => MemoryModel::Rvwmo,
            "ztso" => MemoryModel::Ztso,
            _ => return None,
        };
        Some(name)
    }

    /// Reads the image and the script.
    pub fn load<R: Files + AllocGlobal>(&mut self, rt: &R, name: &str) -> Result<()> {
        let ending = match self.kind {
            ImageKind::Raw => "bin",
            ImageKind::Elf => "elf",
        };
        self.image_path = format!(in rt.alloc(); "{name}.{ending}")?;
        self.script_path = format!(in rt.alloc(); "{name}.script")?;
        self.image = fs::read(rt, self.image_path.as_str())?;
        self.script = fs::read(rt, self.script_path.as_str())?;
        Ok(())
    }

    /// Reads what is kept of how it is played.
    pub fn load_texts<R: Files + AllocGlobal>(&mut self, rt: &R, name: &str) -> Result<()> {
        load_text(rt, name, "trace", &mut self.trace)?;
        load_text(rt, name, "err", &mut self.ends)?;
        match self.kind {
            ImageKind::Raw => load_text(rt, name, "outcomes", &mut self.outcomes),
            ImageKind::Elf => Ok(()),
        }
    }

    /// The script as it is read.
    pub fn read_script(&self, alloc: Global) -> Result<Script> {
        match read_script(alloc, &self.script) {
            Ok(script) => Ok(script),
            Err(_) => bail!("no script"),
        }
    }

    /// What machines are made of.
    pub fn opening(&self, alloc: Global, script: &Script) -> Result<(Image, Config)> {
        let config = Config::new(
            script.harts,
            script.sets,
            script.ways,
            script.line,
            self.model,
        )
        .context("a configuration")?;
        let image = image_of(alloc, self.kind, &self.image, script.kib)?;
        Ok((image, config))
    }

    pub fn model_name(&self) -> &str {
        match self.model {
            MemoryModel::Rvwmo => "rvwmo",
            MemoryModel::Ztso => "ztso",
        }
    }
}

fn load_text<R: Files + AllocGlobal>(
    rt: &R,
    name: &str,
    ending: &str,
    text: &mut Vec<u8>,
) -> Result<()> {
    let path = format!(in rt.alloc(); "{name}.{ending}")?;
    *text = fs::read(rt, path.as_str())?;
    Ok(())
}
