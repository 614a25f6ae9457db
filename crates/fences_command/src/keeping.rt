//! The program with the orderings that are enough, as a file.

ghost use Rattle.std.specs.Prelude.{◌≡◌, ◌≢◌, IfErr, IfOk, IfSome, List, OnOk, Ok, option_map, ℕ};
ghost use Rattle.command_files.specs.Allowing.{IsNamedBy};
ghost use Rattle.fences_command.specs.Keeping as spec;
ghost use Rattle.search_files.specs.Faults.{IsFolderFault};
ghost use Rattle.search_files.specs.Folders.{SparesOthers};

use command_files::{Fault, Files, check_writable, remark, unmade};
use command_settings::Fences;
use elf_loader::Image;
use fence_audit::{Allowance, Answer, is_whole, search_in};
use image_orderings::Patch;
use image_writing::{Format, written};
use std::alloc::Global;

/// What is remarked where no program is known to be enough.
const UNDECIDED: &str = "nothing was written for --write: no search says what is enough";

/// What is remarked where the program's file has no room for the words.
const NO_ROOM: &str =
    "the program's file hasn't the bytes of these words, or has them for two addresses or in its headers";

/// Refuses the file that was named for the program, if one was, where it can't be made, or is the program's own, or the one
/// of what is allowed, by whatever name, or the one that standard output goes into.
pub(crate) fn check_target<'a, F: Files>(
    alloc: Global,
    files: &mut F,
    wanted: Fences<'a>,
) -> Result<(), Fault<'a>>
    ensures unread { OnOk result (IfSome wanted.entry.write (λ name. spec.IsUnread wanted.entry name.now)) }
    ensures told { IfErr result (IsNamedBy wanted.entry.write IsFolderFault) }
    ensures stays { F.held files.new ≡ F.held files.old }
{
    let Some(name) = wanted.write else {
        return Ok(());
    };
    spare(alloc, files, name, wanted.image)?;
    spare_allowed(alloc, files, name, wanted.allow)?;
    spare_output(alloc, files, name)?;
    check_writable(alloc, files, name)
}

/// Refuses the name of a file that is read, also by another name.
fn spare<'a, F: Files>(
    alloc: Global,
    files: &mut F,
    name: &'a str,
    read: &str,
) -> Result<(), Fault<'a>>
    ensures apart { OnOk result (name.entry.now ≢ read.now) }
    ensures two_files { OnOk result (¬ F.are_one read.now name.entry.now) }
    ensures told { IfErr result (λ fault. fault ≡ Fault.CannotMake name.entry) }
    ensures stays { F.held files.new ≡ F.held files.old }
{
    if name == read || files.are_same(read, name) {
        remark(
            alloc,
            files,
            "this file is read: name another one for --write",
        );
        return Err(Fault::CannotMake { file: name });
    }
    Ok(())
}

/// Refuses the name of the file with what is allowed, if there is one.
fn spare_allowed<'a, F: Files>(
    alloc: Global,
    files: &mut F,
    name: &'a str,
    allow: Option<&str>,
) -> Result<(), Fault<'a>>
    ensures apart { OnOk result (IfSome allow.entry (λ allow. name.entry.now ≢ allow.now)) }
    ensures told { IfErr result (λ fault. fault ≡ Fault.CannotMake name.entry) }
    ensures stays { F.held files.new ≡ F.held files.old }
{
    match allow {
        Some(allow) => spare(alloc, files, name, allow),
        None => Ok(()),
    }
}

/// Refuses the name of the file that standard output goes into.
fn spare_output<'a, F: Files>(alloc: Global, files: &mut F, name: &'a str) -> Result<(), Fault<'a>>
    ensures told { IfErr result (λ fault. fault ≡ Fault.CannotMake name.entry) }
    ensures stays { F.held files.new ≡ F.held files.old }
{
    if files.is_output(name) {
        remark(
            alloc,
            files,
            "standard output goes into this file: name another one for --write",
        );
        return Err(Fault::CannotMake { file: name });
    }
    Ok(())
}

pub(crate) fn format_of(is_raw: bool) -> Format
    ensures { result ≡ spec.format_of is_raw }
{
    if is_raw { Format::Words } else { Format::Elf }
}

/// The words of the last program, where a search found it to be enough.
fn enough_words(allowance: &Allowance) -> Option<&[Patch]>
    ensures { option_map (λ words. words.now) result ≡ spec.enough_words allowance.now }
{
    match allowance {
        Allowance::Kept(audit) if is_whole(&audit.known) => Some(&audit.last),
        Allowance::Kept(_) => None,
        Allowance::Broken(missing) => match search_in(&missing.searches, &missing.most) {
            Some(search) if search.answer == Answer::Same => Some(&missing.last),
            _ => None,
        },
    }
}

/// Writes the program with the words that are enough, if a file was named for it. Where no search says which are, nothing
/// is written, and that is remarked.
pub(crate) fn keep_program<'a, F: Files>(
    alloc: Global,
    files: &mut F,
    wanted: Fences<'a>,
    image: &Image,
    file: &[u8],
    allowance: &Allowance,
) -> Result<(), Fault<'a>>
    ensures kept { OnOk result (spec.IsProgramKept (F.held files.old) (F.held files.new) wanted.entry image.now file.now allowance.now wanted.entry.write) }
    ensures told { IfErr result (IsNamedBy wanted.entry.write IsFolderFault) }
    ensures spared { SparesOthers (spec.IsProgramFile wanted.entry.write) (F.held files.old) (F.held files.new) }
{
    let Some(name) = wanted.write else {
        return Ok(());
    };
    let Some(words) = enough_words(allowance) else {
        remark(alloc, files, UNDECIDED);
        return Ok(());
    };
    write_program(
        alloc,
        files,
        format_of(wanted.raw),
        name,
        file,
        image,
        words,
    )
}

/// Writes the program with these words.
fn write_program<'a, F: Files>(
    alloc: Global,
    files: &mut F,
    format: Format,
    name: &'a str,
    file: &[u8],
    image: &Image,
    words: &[Patch],
) -> Result<(), Fault<'a>>
    ensures written { OnOk result (spec.IsWritten (F.held files.new) format file.now image.now words.now name.entry.now) }
    ensures told { IfErr result (IsFolderFault name.entry) }
    ensures others { (other : List ℕ) → other ≢ name.entry.now → F.held files.new other ≡ F.held files.old other }
{
    let made = changed(alloc, files, format, name, file, image, words)?;
    match files.write(name, &made) {
        Ok(()) => Ok(()),
        Err(error) => Err(unmade(alloc, files, name, error)),
    }
}

/// The file's bytes with these words. Where it has no room for them, the file of this name can't be made, and why is
/// remarked.
pub(crate) fn changed<'a, F: Files>(
    alloc: Global,
    files: &mut F,
    format: Format,
    name: &'a str,
    file: &[u8],
    image: &Image,
    words: &[Patch],
) -> Result<Vec<u8>, Fault<'a>>
    ensures bytes { IfOk result (λ made. made.items ≡ spec.changed format file.now words.now) }
    ensures loads { IfOk result (λ made. spec.LoadsChanged format file.now image.now words.now) }
    ensures told { IfErr result (IsFolderFault name.entry) }
    ensures stays { F.held files.new ≡ F.held files.old }
{
    match written(alloc, format, file, image, words) {
        Ok(Some(made)) => Ok(made),
        Ok(None) => {
            remark(alloc, files, NO_ROOM);
            Err(Fault::CannotMake { file: name })
        }
        Err(_) => Err(Fault::OutOfMemory),
    }
}
