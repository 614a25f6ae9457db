//! What shows the outcomes and the harts that stop, as files of a folder: the machine's scripts, and traces of what only
//! the memory model allows.

ghost use Rattle.std.specs.Prelude.{◌≡◌, ◌≢◌, All, IfErr, IfOk, List, OnOk, ℕ};
ghost use Rattle.std.specs.String.{string_bytes};
ghost use Rattle.explore_command.specs.ModelKeeping.{AreKeptOf, AreWaysKept, HasText, HaveTexts, IsFileOf, IsWayFile, IsWayKeptAt, failing_way, failure_stem, file_path, outcome_stem, outcome_way};
ghost use Rattle.elf_loader.specs.Size.{IsMemoryKib};
ghost use Rattle.explore_command.specs.Exploring.{IsFolderFault};
ghost use Rattle.explore_command.specs.Keeping.{SparesOthers};

use crate::keeping::{Destination, Folder};
use architecture_outcomes::{Architecture, Failing, Outcome, Way};
use command_files::{Fault, Files};
use explorer::Realisation;
use std::alloc::AllocError;

/// Writes a file for each outcome and one for each hart that stops. What the machine comes to without a script can't be
/// written.
pub(crate) fn keep_found<'a, F: Files>(
    folder: Folder<'a>,
    files: &mut F,
    found: &Architecture,
) -> Result<(), Fault<'a>>
    requires memory { IsMemoryKib folder.kib }
    requires readable { HaveTexts found.now }
    ensures kept { OnOk result (AreKeptOf found.now (F.held files.new) folder.entry.config folder.entry.kib folder.entry.name.now) }
    ensures told { IfErr result (IsFolderFault folder.entry.name) }
    ensures spared { SparesOthers (IsFileOf found.now folder.entry.name.now) (F.held files.old) (F.held files.new) }
{
    keep_outcomes(folder, files, &found.outcomes)?;
    keep_stops(folder, files, &found.failures)
}

/// Writes a file for each outcome, the last one first.
fn keep_outcomes<'a, F: Files>(
    folder: Folder<'a>,
    files: &mut F,
    outcomes: &[Outcome],
) -> Result<(), Fault<'a>>
    requires memory { IsMemoryKib folder.kib }
    requires readable { All (λ o. HasText o.way) outcomes.now }
    ensures kept { OnOk result (AreWaysKept outcome_stem outcome_way (F.held files.new) folder.entry.config folder.entry.kib folder.entry.name.now 1 outcomes.now) }
    ensures told { IfErr result (IsFolderFault folder.entry.name) }
    ensures spared { SparesOthers (IsWayFile outcome_stem outcome_way 1 outcomes.now folder.entry.name.now) (F.held files.old) (F.held files.new) }
{
    let mut rest = outcomes;
    while let [front @ .., last] = rest {
        let number = rest.len();
        let Ok(path) = outcome_path(folder, number, &last.way) else {
            return Err(Fault::OutOfMemory);
        };
        keep_at(
            folder,
            files,
            &path,
            Destination::Outcome(number),
            &last.way,
        )?;
        rest = front;
    }
    Ok(())
}

/// Writes a file for each hart that stops, the last one first.
fn keep_stops<'a, F: Files>(
    folder: Folder<'a>,
    files: &mut F,
    failings: &[Failing],
) -> Result<(), Fault<'a>>
    requires memory { IsMemoryKib folder.kib }
    requires readable { All (λ f. HasText f.way) failings.now }
    ensures kept { OnOk result (AreWaysKept failure_stem failing_way (F.held files.new) folder.entry.config folder.entry.kib folder.entry.name.now 1 failings.now) }
    ensures told { IfErr result (IsFolderFault folder.entry.name) }
    ensures spared { SparesOthers (IsWayFile failure_stem failing_way 1 failings.now folder.entry.name.now) (F.held files.old) (F.held files.new) }
{
    let mut rest = failings;
    while let [front @ .., last] = rest {
        let number = rest.len();
        let Ok(path) = stop_path(folder, number, &last.way) else {
            return Err(Fault::OutOfMemory);
        };
        keep_at(
            folder,
            files,
            &path,
            Destination::Failure(number),
            &last.way,
        )?;
        rest = front;
    }
    Ok(())
}

/// The file of the outcome of this number.
fn outcome_path(folder: Folder<'_>, number: usize, way: &Way) -> Result<String, AllocError>
    ensures { IfOk result (λ path. string_bytes path ≡ file_path folder.entry.name.now outcome_stem number way.now) }
{
    let name = folder.name;
    match way {
        Way::Machine(_) => format!(in folder.alloc; "{name}/outcome-{number}.script"),
        Way::ModelAlone(_) | Way::Model(_) => {
            format!(in folder.alloc; "{name}/outcome-{number}.trace")
        }
    }
}

/// The file of the hart that stops of this number.
fn stop_path(folder: Folder<'_>, number: usize, way: &Way) -> Result<String, AllocError>
    ensures { IfOk result (λ path. string_bytes path ≡ file_path folder.entry.name.now failure_stem number way.now) }
{
    let name = folder.name;
    match way {
        Way::Machine(_) => format!(in folder.alloc; "{name}/failure-{number}.script"),
        Way::ModelAlone(_) | Way::Model(_) => {
            format!(in folder.alloc; "{name}/failure-{number}.trace")
        }
    }
}

/// Writes the file of this path for what has this number, if there is anything to write.
fn keep_at<'a, F: Files>(
    folder: Folder<'a>,
    files: &mut F,
    path: &str,
    destination: Destination,
    way: &Way,
) -> Result<(), Fault<'a>>
    requires memory { IsMemoryKib folder.kib }
    requires readable { HasText way.now }
    ensures kept { OnOk result (IsWayKeptAt (F.held files.new) folder.entry.config folder.entry.kib path.now way.now) }
    ensures told { IfErr result (IsFolderFault folder.entry.name) }
    ensures others { (other : List ℕ) → other ≢ path.now → F.held files.new other ≡ F.held files.old other }
{
    match way {
        Way::Machine(Realisation::Events(events)) => folder.write_script(files, path, events),
        Way::Machine(Realisation::NoMemory) => Err(Fault::OutOfMemory),
        Way::Machine(Realisation::Limit | Realisation::Unrealised) => {
            Err(folder.without_script(files, destination))
        }
        Way::ModelAlone(trace) | Way::Model(trace) => folder.write_trace(files, path, trace),
    }
}
