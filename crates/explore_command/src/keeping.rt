//! The scripts of what was found, as files of a folder.

ghost use Rattle.std.specs.Prelude.{◌≡◌, ◌≢◌, IfErr, IfOk, IfSome, List, OnOk, length, ℕ};
ghost use Rattle.std.specs.String.{string_bytes};
ghost use Rattle.command_files.specs.Contents.{Contents};
ghost use Rattle.elf_loader.specs.Size.{IsMemoryKib};
ghost use Rattle.command_files.specs.Allowing.{IsNamedBy};
ghost use Rattle.explore_command.specs.Exploring.{IsFolderFault};
ghost use Rattle.explore_command.specs.Keeping.{AreFailuresKept, AreKept, AreKeptFrom, FileName, HasName, IsFailureScript, IsInNamed, IsKeptAt, IsOutcomeScript, IsScriptOf, SparesOthers, failure_path, outcome_path, stuck_path};
ghost use Rattle.machine_types.specs.declared.config.Config.{Config};

use crate::sparing::spare_what_is_read;
use command_files::{Fault, Files};
use command_settings::Explore;
use explorer::{Exploration, Found, FoundFailure, Realisation};
use machine_types::Config;
pub(crate) use search_files::Folder;
use std::alloc::{AllocError, Global};
use std::fmt::{self, Display, Formatter};

/// Where a script leads the machine.
#[derive(Clone, Copy, Debug)]
pub(crate) enum Destination {
    /// The outcome of this number.
    Outcome(usize),
    /// The failure of this number.
    Failure(usize),
    /// A state from which no schedule ends.
    Stuck,
}

impl Display for Destination {
    fn fmt<W: fmt::Write>(&self, f: &mut Formatter<W>) -> fmt::Result {
        match *self {
            Destination::Outcome(number) => write!(f, "outcome {number}"),
            Destination::Failure(number) => write!(f, "failure {number}"),
            Destination::Stuck => f.write_str("a state from which no schedule ends"),
        }
    }
}

/// What a folder may have of what was found.
pub(crate) trait Keepable {
    // All of it has a text.
    ghost HasTexts: { Self → Type 0 };

    // The folder has it, for this machine with so many KiB of memory.
    ghost AreKept: { Self → Contents → Config → ℕ → FileName → Type 0 };

    // The file is one of those that have it in this folder.
    ghost IsFileOf: { Self → FileName → FileName → Type 0 };

    /// Writes it into the folder.
    fn keep_in<'a, F: Files>(&self, folder: Folder<'a>, files: &mut F) -> Result<(), Fault<'a>>
        requires memory { IsMemoryKib folder.kib }
        requires readable { HasTexts self.now }
        ensures kept { OnOk result (AreKept self.now (F.held files.new) folder.entry.config folder.entry.kib folder.entry.name.now) }
        ensures told { IfErr result (IsFolderFault folder.entry.name) }
        ensures spared { SparesOthers (IsFileOf self.now folder.entry.name.now) (F.held files.old) (F.held files.new) };
}

/// Writes what was found into the folder that was named, if one was.
pub(crate) fn keep<'a, T: Keepable, F: Files>(
    alloc: Global,
    files: &mut F,
    wanted: Explore<'a>,
    config: Config,
    found: &T,
) -> Result<(), Fault<'a>>
    requires memory { IsMemoryKib wanted.machine.memory }
    requires readable { T.HasTexts found.now }
    ensures kept { OnOk result (IfSome wanted.entry.scripts (λ folder. T.AreKept found.now (F.held files.new) config wanted.entry.machine.memory folder.now)) }
    ensures told { IfErr result (IsNamedBy wanted.entry.scripts IsFolderFault) }
    ensures spared { SparesOthers (IsInNamed wanted.entry.scripts (T.IsFileOf found.now)) (F.held files.old) (F.held files.new) }
{
    let Some(name) = wanted.scripts else {
        return Ok(());
    };
    let folder = Folder {
        alloc,
        name,
        config,
        kib: wanted.machine.memory,
    };
    found.keep_in(folder, files)
}

/// Refuses the folder that was named, if one was, where no script could be written into it, or one over what the search
/// reads, as far as that shows before a search, which may be long.
pub(crate) fn check_folder<'a, F: Files>(
    alloc: Global,
    files: &mut F,
    wanted: Explore<'a>,
    config: Config,
) -> Result<(), Fault<'a>>
    ensures named { OnOk result (HasName wanted.entry.scripts) }
    ensures told { IfErr result (IsNamedBy wanted.entry.scripts IsFolderFault) }
    ensures stays { F.held files.new ≡ F.held files.old }
{
    let Some(name) = wanted.scripts else {
        return Ok(());
    };
    let folder = Folder {
        alloc,
        name,
        config,
        kib: wanted.machine.memory,
    };
    let first = outcome_path(folder, 1)?;
    folder.check(files, &first)?;
    spare_what_is_read(folder, files, wanted)
}

/// Writes a script for each outcome, one for each failure, and one that gets stuck. One that has none can't be written.
#[tactic(auto, using(crate::proofs::Kept::outcome_spared))]
pub(crate) fn keep_exploration<'a, F: Files>(
    folder: Folder<'a>,
    files: &mut F,
    found: &Exploration,
) -> Result<(), Fault<'a>>
    requires { IsMemoryKib folder.kib }
    ensures kept { OnOk result (AreKept (F.held files.new) folder.entry.config folder.entry.kib folder.entry.name.now found.now) }
    ensures told { IfErr result (IsFolderFault folder.entry.name) }
    ensures spared { SparesOthers (IsScriptOf (length found.now.outcomes.items) (length found.now.failures.items) found.now.stuck folder.entry.name.now) (F.held files.old) (F.held files.new) }
{
    keep_outcomes(folder, files, &found.outcomes)?;
    keep_failures(folder, files, &found.failures)?;
    let Some(stuck) = &found.stuck else {
        return Ok(());
    };
    let Ok(path) = stuck_path(folder) else {
        return Err(Fault::OutOfMemory);
    };
    keep_at(folder, files, &path, &stuck.script, Destination::Stuck)
}

/// Writes a script for each outcome, the last one first.
pub(crate) fn keep_outcomes<'a, F: Files>(
    folder: Folder<'a>,
    files: &mut F,
    outcomes: &[Found],
) -> Result<(), Fault<'a>>
    requires { IsMemoryKib folder.kib }
    ensures kept { OnOk result (AreKeptFrom (F.held files.new) folder.entry.config folder.entry.kib folder.entry.name.now 1 outcomes.now) }
    ensures told { IfErr result (IsFolderFault folder.entry.name) }
    ensures spared { SparesOthers (IsOutcomeScript (length outcomes.now) folder.entry.name.now) (F.held files.old) (F.held files.new) }
{
    let mut rest = outcomes;
    while let [front @ .., last] = rest {
        let number = rest.len();
        let Ok(path) = outcome_path(folder, number) else {
            return Err(Fault::OutOfMemory);
        };
        let destination = Destination::Outcome(number);
        keep_at(folder, files, &path, &last.script, destination)?;
        rest = front;
    }
    Ok(())
}

/// Writes a script for each failure, the last one first.
fn keep_failures<'a, F: Files>(
    folder: Folder<'a>,
    files: &mut F,
    failures: &[FoundFailure],
) -> Result<(), Fault<'a>>
    requires { IsMemoryKib folder.kib }
    ensures kept { OnOk result (AreFailuresKept (F.held files.new) folder.entry.config folder.entry.kib folder.entry.name.now 1 failures.now) }
    ensures told { IfErr result (IsFolderFault folder.entry.name) }
    ensures spared { SparesOthers (IsFailureScript (length failures.now) folder.entry.name.now) (F.held files.old) (F.held files.new) }
{
    let mut rest = failures;
    while let [front @ .., last] = rest {
        let number = rest.len();
        let Ok(path) = failure_path(folder, number) else {
            return Err(Fault::OutOfMemory);
        };
        let destination = Destination::Failure(number);
        keep_at(folder, files, &path, &last.script, destination)?;
        rest = front;
    }
    Ok(())
}

pub(crate) fn outcome_path(folder: Folder<'_>, number: usize) -> Result<String, AllocError>
    ensures { IfOk result (λ path. string_bytes path ≡ outcome_path folder.entry.name.now number) }
{
    let name = folder.name;
    format!(in folder.alloc; "{name}/outcome-{number}.script")
}

pub(crate) fn failure_path(folder: Folder<'_>, number: usize) -> Result<String, AllocError>
    ensures { IfOk result (λ path. string_bytes path ≡ failure_path folder.entry.name.now number) }
{
    let name = folder.name;
    format!(in folder.alloc; "{name}/failure-{number}.script")
}

pub(crate) fn stuck_path(folder: Folder<'_>) -> Result<String, AllocError>
    ensures { IfOk result (λ path. string_bytes path ≡ stuck_path folder.entry.name.now) }
{
    let name = folder.name;
    format!(in folder.alloc; "{name}/stuck.script")
}

/// Writes the file of this path, if there are events to write. Where none were found, that is remarked.
fn keep_at<'a, F: Files>(
    folder: Folder<'a>,
    files: &mut F,
    path: &str,
    way: &Realisation,
    destination: Destination,
) -> Result<(), Fault<'a>>
    requires { IsMemoryKib folder.kib }
    ensures kept { OnOk result (IsKeptAt (F.held files.new) folder.entry.config folder.entry.kib path.now way.now) }
    ensures told { IfErr result (IsFolderFault folder.entry.name) }
    ensures others { (other : List ℕ) → other ≢ path.now → F.held files.new other ≡ F.held files.old other }
{
    match way {
        Realisation::Events(events) => folder.write_script(files, path, events),
        Realisation::NoMemory => Err(Fault::OutOfMemory),
        Realisation::Limit | Realisation::Unrealised => {
            Err(folder.without_script(files, destination))
        }
    }
}
