//! The folder into which goes what shows outcomes, as scripts and traces.

ghost use Rattle.std.specs.Prelude.{◌≡◌, ◌≢◌, [], IfErr, IfOk, List, OnOk, ℕ};
ghost use Rattle.command_files.specs.Contents.{HoldsBytes};
ghost use Rattle.command_files.specs.Files.{HoldsScript, HoldsTrace};
ghost use Rattle.command_files.specs.Sizes.{script_for};
ghost use Rattle.elf_loader.specs.Size.{IsMemoryKib};
ghost use Rattle.search_files.specs.Faults.{IsFolderFault};
ghost use Rattle.trace_text.specs.Scripts.{text};
ghost use Rattle.trace_text.specs.TraceLimits.{IsTrace};

use command_files::notes::FileNote;
use command_files::{Escaped, Fault, Files, remark, script_of};
use machine_types::{Config, Event};
use std::alloc::{AllocError, Global};
use std::fmt::Display;
use std::io::{self, ErrorKind};
use trace_recorder::Trace;
use trace_text::{Script, write_script, write_trace};

/// What is remarked where the folder's name is empty.
const NO_NAME: &str = "the folder's name is empty: name one that exists, or . for this one";

/// Where files are written, and for which machine scripts are.
#[derive(Clone, Copy)]
pub struct Folder<'a> {
    pub alloc: Global,
    pub name: &'a str,
    pub config: Config,
    /// How many KiB of memory it has.
    pub kib: u32,
}

impl<'a> Folder<'a> {
    /// Refuses a folder without a name, since its files would stand in the root folder, and one that can't have the file
    /// of this path.
    pub fn check<F: Files>(&self, files: &mut F, first: &str) -> Result<(), Fault<'a>>
        ensures named { OnOk result (self.now.name.now ≢ []) }
        ensures told { IfErr result (IsFolderFault self.now.name) }
        ensures stays { F.held files.new ≡ F.held files.old }
    {
        if self.name.is_empty() {
            remark(self.alloc, files, NO_NAME);
            return Err(Fault::CannotMake { file: self.name });
        }
        match files.check_writable(first) {
            Ok(()) => Ok(()),
            Err(error) => Err(self.without_file(files, first, error)),
        }
    }

    /// Refuses the folder where its file of this path is the one of this name, also by a link, which is told as this.
    pub fn spare<F: Files>(
        &self,
        files: &mut F,
        path: &str,
        name: &str,
        what: &str,
    ) -> Result<(), Fault<'a>>
        ensures apart { OnOk result (path.now ≢ name.now) }
        ensures two_files { OnOk result (¬ F.are_one name.now path.now) }
        ensures told { IfErr result (λ fault. fault ≡ Fault.CannotMake self.now.name) }
        ensures stays { F.held files.new ≡ F.held files.old }
    {
        if path != name && !files.are_same(name, path) {
            return Ok(());
        }
        let path = Escaped(path);
        remark(
            self.alloc,
            files,
            format_args!("{path}: this is {what}: name another folder for --scripts"),
        );
        Err(Fault::CannotMake { file: self.name })
    }

    /// Writes a file with the script of these events.
    pub fn write_script<F: Files>(
        &self,
        files: &mut F,
        path: &str,
        events: &[Event],
    ) -> Result<(), Fault<'a>>
        requires { IsMemoryKib self.now.kib }
        ensures kept { OnOk result (HoldsScript (F.held files.new) path.now (script_for self.now.config self.now.kib events.now)) }
        ensures told { IfErr result (IsFolderFault self.now.name) }
        ensures others { (other : List ℕ) → other ≢ path.now → F.held files.new other ≡ F.held files.old other }
    {
        let Ok(copy) = copied(self.alloc, events) else {
            return Err(Fault::OutOfMemory);
        };
        let script = script_of(self.config, self.kib, copy);
        self.put(files, path, &script)
    }

    fn put<F: Files>(&self, files: &mut F, path: &str, script: &Script) -> Result<(), Fault<'a>>
        ensures kept { OnOk result (HoldsBytes (F.held files.new) path.now (text script.now)) }
        ensures told { IfErr result (IsFolderFault self.now.name) }
        ensures others { (other : List ℕ) → other ≢ path.now → F.held files.new other ≡ F.held files.old other }
    {
        let mut bytes = Vec::new(self.alloc);
        // Only memory can be wanting.
        if let Err(error) = write_script(script, &mut bytes) {
            return Err(Fault::making(self.name, error));
        }
        self.write(files, path, bytes.as_slice())
    }

    /// Writes a file with this trace.
    pub fn write_trace<F: Files>(
        &self,
        files: &mut F,
        path: &str,
        trace: &Trace,
    ) -> Result<(), Fault<'a>>
        requires { IsTrace trace.now.history }
        ensures kept { OnOk result (HoldsTrace (F.held files.new) path.now trace.now.history) }
        ensures told { IfErr result (IsFolderFault self.now.name) }
        ensures others { (other : List ℕ) → other ≢ path.now → F.held files.new other ≡ F.held files.old other }
    {
        let mut bytes = Vec::new(self.alloc);
        // Only memory can be wanting.
        if let Err(error) = write_trace(trace, &mut bytes) {
            return Err(Fault::making(self.name, error));
        }
        self.write(files, path, bytes.as_slice())
    }

    /// Writes a file with these bytes.
    pub fn write<F: Files>(&self, files: &mut F, path: &str, bytes: &[u8]) -> Result<(), Fault<'a>>
        ensures kept { OnOk result (HoldsBytes (F.held files.new) path.now bytes.now) }
        ensures told { IfErr result (IsFolderFault self.now.name) }
        ensures others { (other : List ℕ) → other ≢ path.now → F.held files.new other ≡ F.held files.old other }
    {
        match files.write(path, bytes) {
            Ok(()) => Ok(()),
            Err(error) => Err(self.without_file(files, path, error)),
        }
    }

    /// The folder can't have a script that wasn't found, and that is remarked.
    pub fn without_script<F: Files, D: Display + Drop>(
        &self,
        files: &mut F,
        destination: D,
    ) -> Fault<'a>
        ensures told { result ≡ Fault.CannotMake self.now.name }
        ensures stays { F.held files.new ≡ F.held files.old }
    {
        remark(
            self.alloc,
            files,
            format_args!("no script was found that leads the machine to {destination}"),
        );
        Fault::CannotMake { file: self.name }
    }

    /// The folder didn't take the file of this path, and why is remarked with the path: the fault names the folder alone.
    fn without_file<F: Files>(&self, files: &mut F, path: &str, error: io::Error) -> Fault<'a>
        ensures told { IsFolderFault self.now.name result }
        ensures stays { F.held files.new ≡ F.held files.old }
    {
        if error.kind() != ErrorKind::OutOfMemory {
            let path = Escaped(path);
            let why = FileNote(error);
            remark(self.alloc, files, format_args!("{path}: {why}"));
        }
        Fault::making(self.name, error)
    }
}

fn copied(alloc: Global, events: &[Event]) -> Result<Vec<Event>, AllocError>
    ensures { IfOk result (λ copy. copy.items ≡ events.now) }
{
    let mut copy = Vec::new(alloc);
    copy.extend_from_slice(events)?;
    Ok(copy)
}
