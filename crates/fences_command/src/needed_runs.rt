//! The runs that show what is lost without each ordering that is needed, as files of a folder.

ghost use Rattle.std.specs.Prelude.{◌≡◌, ◌≢◌, ◌+◌, ◌<◌, ◌^◌, IfErr, IfOk, IfSome, List, OnOk, ℕ};
ghost use Rattle.std.specs.String.{string_bytes};
ghost use Rattle.command_files.specs.Allowing.{IsNamedBy};
ghost use Rattle.command_files.specs.Files.{HoldsTrace};
ghost use Rattle.elf_loader.specs.Size.{IsMemoryKib};
ghost use Rattle.fence_audit.specs.Auditing.{shown_without};
ghost use Rattle.fences_command.specs.Keeping.{IsWritten, format_of};
ghost use Rattle.fences_command.specs.Witnesses as spec;
ghost use Rattle.search_files.specs.Faults.{IsFolderFault};
ghost use Rattle.search_files.specs.Folders.{HasName, IsInNamed, SparesOthers};
ghost use Rattle.trace_text.specs.TraceLimits.{IsTrace};

use crate::keeping::{changed, format_of};
use architecture_outcomes::Way;
use command_files::{Fault, Files};
use command_settings::Fences;
use elf_loader::Image;
use explorer::Realisation;
use fence_audit::{Allowance, Audit, shown_without};
use image_orderings::{ImageOrdering, Patch, orderings_of, patches_without};
use machine_types::Config;
use search_files::Folder;
use std::alloc::{AllocError, Global};
use trace_recorder::Trace;

/// What the name of a trace ends with.
const TRACE: &str = "trace";

/// What the name of a script ends with.
const SCRIPT: &str = "script";

/// What the name of the program for a script ends with.
const IMAGE: &str = "image";

/// Where a script leads the machine.
const DESTINATION: &str = "what shows that an ordering is needed";

/// A file of the folder, by its number and what its name ends with.
fn path(folder: Folder<'_>, number: usize, ending: &str) -> Result<String, AllocError>
    ensures { IfOk result (λ path. string_bytes path ≡ spec.needed_path folder.entry.name.now number ending.now) }
{
    let name = folder.name;
    format!(in folder.alloc; "{name}/needed-{number}.{ending}")
}

/// Refuses the folder that was named for runs, if one was, where none could be written into it, or one over what the
/// search reads, or over the program that is to be written.
pub(crate) fn check_folder<'a, F: Files>(
    alloc: Global,
    files: &mut F,
    wanted: Fences<'a>,
    config: Config,
    image: &Image,
) -> Result<(), Fault<'a>>
    ensures named { OnOk result (HasName wanted.entry.scripts) }
    ensures spare { OnOk result (IfSome wanted.entry.scripts (λ folder. spec.AllSpare wanted.entry image.now folder.now)) }
    ensures told { IfErr result (IsNamedBy wanted.entry.scripts IsFolderFault) }
    ensures stays { F.held files.new ≡ F.held files.old }
{
    let Some(name) = wanted.scripts else {
        return Ok(());
    };
    let folder = Folder {
        alloc,
        name,
        config,
        kib: wanted.machine.memory,
    };
    let Ok(first) = path(folder, 1, TRACE) else {
        return Err(Fault::OutOfMemory);
    };
    folder.check(files, &first)?;
    let Ok(orderings) = orderings_of(alloc, image) else {
        return Err(Fault::OutOfMemory);
    };
    spare_each(folder, files, wanted, orderings.len())
}

/// Refuses the folder where one of so many numbers' files is another file of the command.
fn spare_each<'a, F: Files>(
    folder: Folder<'a>,
    files: &mut F,
    wanted: Fences<'_>,
    count: usize,
) -> Result<(), Fault<'a>>
    ensures spare { OnOk result (spec.AreSpareTo wanted.entry folder.entry.name.now count) }
    ensures told { IfErr result (IsFolderFault folder.entry.name) }
    ensures stays { F.held files.new ≡ F.held files.old }
{
    for index in 0..count {
        spare_number(folder, files, wanted, index + 1)?;
    }
    Ok(())
}

fn spare_number<'a, F: Files>(
    folder: Folder<'a>,
    files: &mut F,
    wanted: Fences<'_>,
    number: usize,
) -> Result<(), Fault<'a>>
    ensures spare { OnOk result (spec.AreSpare wanted.entry folder.entry.name.now number) }
    ensures told { IfErr result (IsFolderFault folder.entry.name) }
    ensures stays { F.held files.new ≡ F.held files.old }
{
    let _trace = spared(folder, files, wanted, number, TRACE)?;
    let _script = spared(folder, files, wanted, number, SCRIPT)?;
    let _image = spared(folder, files, wanted, number, IMAGE)?;
    Ok(())
}

/// The path of a file of the folder, unless it is another file of the command, by whatever name.
fn spared<'a, F: Files>(
    folder: Folder<'a>,
    files: &mut F,
    wanted: Fences<'_>,
    number: usize,
    ending: &str,
) -> Result<String, Fault<'a>>
    ensures path { IfOk result (λ path. string_bytes path ≡ spec.needed_path folder.entry.name.now number ending.now) }
    ensures spare { OnOk result (spec.IsSpare wanted.entry (spec.needed_path folder.entry.name.now number ending.now)) }
    ensures told { IfErr result (IsFolderFault folder.entry.name) }
    ensures stays { F.held files.new ≡ F.held files.old }
{
    let Ok(path) = path(folder, number, ending) else {
        return Err(Fault::OutOfMemory);
    };
    folder.spare(files, &path, wanted.image, "the program")?;
    spare_named(folder, files, &path, wanted.allow, "the file of --allow")?;
    spare_named(folder, files, &path, wanted.write, "the file of --write")?;
    Ok(path)
}

/// Refuses the folder where its file of this path is the one that was named, if one was, which is told as this.
fn spare_named<'a, F: Files>(
    folder: Folder<'a>,
    files: &mut F,
    path: &str,
    name: Option<&str>,
    what: &str,
) -> Result<(), Fault<'a>>
    ensures apart { OnOk result (IfSome name.entry (λ name. path.now ≢ name.now)) }
    ensures told { IfErr result (λ fault. fault ≡ Fault.CannotMake folder.entry.name) }
    ensures stays { F.held files.new ≡ F.held files.old }
{
    match name {
        Some(name) => folder.spare(files, path, name, what),
        None => Ok(()),
    }
}

/// Where runs go that show what is lost without an ordering, and what program they are of.
#[derive(Clone, Copy)]
struct Shelf<'a, 'i> {
    folder: Folder<'a>,
    wanted: Fences<'a>,
    image: &'i Image,
    /// The bytes of its file.
    file: &'i [u8],
}

/// Writes for each ordering that is needed, if a folder was named for it, a run that shows what is lost without it.
pub(crate) fn keep_witnesses<'a, F: Files>(
    alloc: Global,
    files: &mut F,
    wanted: Fences<'a>,
    config: Config,
    image: &Image,
    file: &[u8],
    allowance: &Allowance,
) -> Result<(), Fault<'a>>
    requires memory { IsMemoryKib wanted.machine.memory }
    requires readable { spec.AreReadable allowance.now }
    ensures kept { OnOk result (spec.AreShownFor (F.held files.new) wanted.entry config image.now file.now allowance.now wanted.entry.scripts) }
    ensures told { IfErr result (IsNamedBy wanted.entry.scripts IsFolderFault) }
    ensures spared { SparesOthers (IsInNamed wanted.entry.scripts spec.IsNeededFile) (F.held files.old) (F.held files.new) }
    ensures written { OnOk result (IfSome wanted.entry.write (λ write. F.held files.new write.now ≡ F.held files.old write.now)) }
{
    let Some(name) = wanted.scripts else {
        return Ok(());
    };
    let kib = wanted.machine.memory;
    let folder = Folder {
        alloc,
        name,
        config,
        kib,
    };
    let shelf = Shelf {
        folder,
        wanted,
        image,
        file,
    };
    match allowance {
        Allowance::Kept(audit) => shelf.keep_needed(files, audit),
        Allowance::Broken(_) => Ok(()),
    }
}

impl<'a> Shelf<'a, '_> {
    /// Writes the files of each ordering that is needed.
    fn keep_needed<F: Files>(&self, files: &mut F, audit: &Audit) -> Result<(), Fault<'a>>
        requires memory { IsMemoryKib self.now.folder.kib }
        requires readable { spec.AreReadableOf audit.now }
        ensures kept { OnOk result (spec.AreShown (F.held files.new) self.now.wanted self.now.folder.config self.now.folder.kib self.now.image.now self.now.file.now audit.now self.now.folder.name.now) }
        ensures told { IfErr result (IsFolderFault self.now.folder.name) }
        ensures spared { SparesOthers (spec.IsNeededFile self.now.folder.name.now) (F.held files.old) (F.held files.new) }
        ensures written { OnOk result (IfSome self.now.wanted.write (λ write. F.held files.new write.now ≡ F.held files.old write.now)) }
    {
        let mut number: usize = 0;
        let mut rest = audit.met.as_slice();
        while let [first, tail @ ..] = rest {
            number = self.keep_ordering(files, number, audit, *first)?;
            rest = tail;
        }
        Ok(())
    }

    /// Writes the files of the next number for this ordering, if an outcome or a hart that stops shows that it is needed, and
    /// gives the last number that has files then.
    fn keep_ordering<F: Files>(
        &self,
        files: &mut F,
        number: usize,
        audit: &Audit,
        ordering: ImageOrdering,
    ) -> Result<usize, Fault<'a>>
        requires memory { IsMemoryKib self.now.folder.kib }
        requires readable { spec.AreReadableOf audit.now }
        requires room { number + 1 < 2 ^ 64 }
        ensures kept { IfOk result (λ next. spec.IsPassed (F.held files.old) (F.held files.new) self.now.wanted self.now.folder.config self.now.folder.kib self.now.image.now self.now.file.now audit.now self.now.folder.name.now number next ordering (shown_without audit.now ordering)) }
        ensures told { IfErr result (IsFolderFault self.now.folder.name) }
        ensures spared { SparesOthers (spec.IsFileOf self.now.folder.name.now (number + 1)) (F.held files.old) (F.held files.new) }
        ensures written { OnOk result (IfSome self.now.wanted.write (λ write. F.held files.new write.now ≡ F.held files.old write.now)) }
    {
        let Ok(shown) = shown_without(self.folder.alloc, audit, ordering) else {
            return Err(Fault::OutOfMemory);
        };
        let Some(way) = shown else {
            return Ok(number);
        };
        let next = number + 1;
        self.keep_way(files, next, audit, ordering, way)?;
        Ok(next)
    }

    /// Writes the files of a number for an ordering and what shows that it is needed.
    fn keep_way<F: Files>(
        &self,
        files: &mut F,
        number: usize,
        audit: &Audit,
        ordering: ImageOrdering,
        way: &Way,
    ) -> Result<(), Fault<'a>>
        requires memory { IsMemoryKib self.now.folder.kib }
        requires readable { spec.HasText way.now }
        ensures kept { OnOk result (spec.IsShownWithout (F.held files.new) self.now.wanted self.now.folder.config self.now.folder.kib self.now.image.now self.now.file.now audit.now self.now.folder.name.now number (ordering, way.now)) }
        ensures told { IfErr result (IsFolderFault self.now.folder.name) }
        ensures spared { SparesOthers (spec.IsFileOf self.now.folder.name.now number) (F.held files.old) (F.held files.new) }
        ensures written { OnOk result (IfSome self.now.wanted.write (λ write. F.held files.new write.now ≡ F.held files.old write.now)) }
    {
        let Ok(words) = patches_without(self.folder.alloc, &audit.own, ordering) else {
            return Err(Fault::OutOfMemory);
        };
        match way {
            Way::Machine(script) => self.keep_run(files, number, &words, script),
            Way::ModelAlone(trace) | Way::Model(trace) => self.keep_trace(files, number, trace),
        }
    }

    /// Writes the program with these words, and the script for it.
    fn keep_run<F: Files>(
        &self,
        files: &mut F,
        number: usize,
        words: &[Patch],
        script: &Realisation,
    ) -> Result<(), Fault<'a>>
        requires { IsMemoryKib self.now.folder.kib }
        ensures kept { OnOk result (spec.IsShownAt (F.held files.new) self.now.wanted self.now.folder.config self.now.folder.kib self.now.image.now self.now.file.now words.now self.now.folder.name.now number (Way.Machine script.now)) }
        ensures told { IfErr result (IsFolderFault self.now.folder.name) }
        ensures spared { SparesOthers (spec.IsFileOf self.now.folder.name.now number) (F.held files.old) (F.held files.new) }
        ensures written { OnOk result (IfSome self.now.wanted.write (λ write. F.held files.new write.now ≡ F.held files.old write.now)) }
    {
        self.keep_image(files, number, words)?;
        self.keep_script(files, number, script)
    }

    /// Writes the program with these words.
    fn keep_image<F: Files>(
        &self,
        files: &mut F,
        number: usize,
        words: &[Patch],
    ) -> Result<(), Fault<'a>>
        ensures kept { OnOk result (IsWritten (F.held files.new) (format_of self.now.wanted.raw) self.now.file.now self.now.image.now words.now (spec.image_path self.now.folder.name.now number)) }
        ensures told { IfErr result (IsFolderFault self.now.folder.name) }
        ensures others { (other : List ℕ) → other ≢ spec.image_path self.now.folder.name.now number → F.held files.new other ≡ F.held files.old other }
        ensures apart { OnOk result (spec.IsSpare self.now.wanted (spec.image_path self.now.folder.name.now number)) }
    {
        let Shelf {
            folder,
            wanted,
            image,
            file,
        } = *self;
        let path = spared(folder, files, wanted, number, IMAGE)?;
        let format = format_of(wanted.raw);
        let made = changed(folder.alloc, files, format, folder.name, file, image, words)?;
        folder.write(files, &path, &made)
    }

    /// Writes the script that leads the machine there, if one was found.
    fn keep_script<F: Files>(
        &self,
        files: &mut F,
        number: usize,
        script: &Realisation,
    ) -> Result<(), Fault<'a>>
        requires { IsMemoryKib self.now.folder.kib }
        ensures kept { OnOk result (spec.IsScriptAt (F.held files.new) self.now.folder.config self.now.folder.kib (spec.script_path self.now.folder.name.now number) script.now) }
        ensures told { IfErr result (IsFolderFault self.now.folder.name) }
        ensures others { (other : List ℕ) → other ≢ spec.script_path self.now.folder.name.now number → F.held files.new other ≡ F.held files.old other }
        ensures apart { OnOk result (spec.IsSpare self.now.wanted (spec.script_path self.now.folder.name.now number)) }
    {
        let path = spared(self.folder, files, self.wanted, number, SCRIPT)?;
        match script {
            Realisation::Events(events) => self.folder.write_script(files, &path, events),
            Realisation::NoMemory => Err(Fault::OutOfMemory),
            Realisation::Limit | Realisation::Unrealised => {
                Err(self.folder.without_script(files, DESTINATION))
            }
        }
    }

    /// Writes the trace.
    fn keep_trace<F: Files>(
        &self,
        files: &mut F,
        number: usize,
        trace: &Trace,
    ) -> Result<(), Fault<'a>>
        requires { IsTrace trace.now.history }
        ensures kept { OnOk result (HoldsTrace (F.held files.new) (spec.trace_path self.now.folder.name.now number) trace.now.history) }
        ensures told { IfErr result (IsFolderFault self.now.folder.name) }
        ensures spared { SparesOthers (spec.IsFileOf self.now.folder.name.now number) (F.held files.old) (F.held files.new) }
        ensures written { OnOk result (IfSome self.now.wanted.write (λ write. F.held files.new write.now ≡ F.held files.old write.now)) }
    {
        let path = spared(self.folder, files, self.wanted, number, TRACE)?;
        self.folder.write_trace(files, &path, trace)
    }
}
