//! What a search reads, and doesn't write over.

ghost use Rattle.std.specs.Prelude.{◌≡◌, IfErr, OnOk};
ghost use Rattle.explore_command.specs.Exploring.{IsFolderFault};
ghost use Rattle.explore_command.specs.Keeping.{failure_path, outcome_path};
ghost use Rattle.explore_command.specs.Sparing.{AreOthers, IsOther};

use crate::keeping::{Folder, failure_path, outcome_path, stuck_path};
use command_files::{Fault, Files};
use command_settings::Explore;

/// Before which number of an outcome or a failure a folder is looked at.
const NUMBERS: usize = 1_001;

/// Refuses a folder where a script or a trace would be written over the program, or over the file of what is allowed,
/// also by a link: as far as the first 1,000 outcomes and failures and what gets stuck go.
pub(crate) fn spare_what_is_read<'a, F: Files>(
    folder: Folder<'a>,
    files: &mut F,
    wanted: Explore<'_>,
) -> Result<(), Fault<'a>>
    ensures apart { OnOk result (AreOthers wanted.entry folder.entry.name.now) }
    ensures told { IfErr result (IsFolderFault folder.entry.name) }
    ensures stays { F.held files.new ≡ F.held files.old }
{
    let Ok(stuck) = stuck_path(folder) else {
        return Err(Fault::OutOfMemory);
    };
    spare_path(folder, files, &stuck, wanted)?;
    for number in 1..NUMBERS {
        spare_outcome(folder, files, number, wanted)?;
        spare_failure(folder, files, number, wanted)?;
    }
    Ok(())
}

/// Refuses the folder where the script or the trace of this outcome would be written over what is read.
fn spare_outcome<'a, F: Files>(
    folder: Folder<'a>,
    files: &mut F,
    number: usize,
    wanted: Explore<'_>,
) -> Result<(), Fault<'a>>
    ensures apart { OnOk result (IsOther wanted.entry (outcome_path folder.entry.name.now number)) }
    ensures told { IfErr result (IsFolderFault folder.entry.name) }
    ensures stays { F.held files.new ≡ F.held files.old }
{
    let Ok(script) = outcome_path(folder, number) else {
        return Err(Fault::OutOfMemory);
    };
    spare_path(folder, files, &script, wanted)?;
    spare_trace(folder, files, "outcome", number, wanted)
}

/// Refuses the folder where the script or the trace of this failure would be written over what is read.
fn spare_failure<'a, F: Files>(
    folder: Folder<'a>,
    files: &mut F,
    number: usize,
    wanted: Explore<'_>,
) -> Result<(), Fault<'a>>
    ensures apart { OnOk result (IsOther wanted.entry (failure_path folder.entry.name.now number)) }
    ensures told { IfErr result (IsFolderFault folder.entry.name) }
    ensures stays { F.held files.new ≡ F.held files.old }
{
    let Ok(script) = failure_path(folder, number) else {
        return Err(Fault::OutOfMemory);
    };
    spare_path(folder, files, &script, wanted)?;
    spare_trace(folder, files, "failure", number, wanted)
}

/// Refuses the folder where the trace of this outcome or failure would be written over what is read: without
/// `--architecture` there are none.
fn spare_trace<'a, F: Files>(
    folder: Folder<'a>,
    files: &mut F,
    kind: &str,
    number: usize,
    wanted: Explore<'_>,
) -> Result<(), Fault<'a>>
    ensures told { IfErr result (IsFolderFault folder.entry.name) }
    ensures stays { F.held files.new ≡ F.held files.old }
{
    if !wanted.architecture {
        return Ok(());
    }
    let name = folder.name;
    let Ok(trace) = format!(in folder.alloc; "{name}/{kind}-{number}.trace") else {
        return Err(Fault::OutOfMemory);
    };
    spare_path(folder, files, &trace, wanted)
}

/// Refuses the folder where its file of this path is one that is read.
fn spare_path<'a, F: Files>(
    folder: Folder<'a>,
    files: &mut F,
    path: &str,
    wanted: Explore<'_>,
) -> Result<(), Fault<'a>>
    ensures apart { OnOk result (IsOther wanted.entry path.now) }
    ensures told { IfErr result (λ fault. fault ≡ Fault.CannotMake folder.entry.name) }
    ensures stays { F.held files.new ≡ F.held files.old }
{
    folder.spare(files, path, wanted.image, "the program")?;
    match wanted.allow {
        Some(allow) => folder.spare(files, path, allow, "the file of --allow"),
        None => Ok(()),
    }
}
