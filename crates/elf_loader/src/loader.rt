//! From an ELF file to an image.
ghost use Rattle.std.specs.Prelude.{◌≡◌, ◌+◌, ◌*◌, ◌<◌, ◌≤◌, IfErr, IfOk, IsErrOf, IsOk, None, OnOk, Some, false, find, length, map};
ghost use Rattle.std.specs.List.{list_any, range_with_len};
ghost use Rattle.elf_loader.specs.Elf.{e_entry, lies_outside, misplaced_entry, segments_of, some_overlap};
ghost use Rattle.elf_loader.specs.Header.{HasHeader};
ghost use Rattle.elf_loader.specs.Load.{load_answer, loaded_byte, segment_faults, shows};
ghost use Rattle.elf_loader.specs.Size.{IsMemorySize, base};

use crate::error::LoadError;
use crate::header::{E_ENTRY, check_header, long};
use crate::image::Image;
use crate::segment::{ProgramHeader, any_outside, overlap, segments};
use machine_types::BASE;
use std::alloc::{AllocError, Global};

/// The image that an ELF file gives in memory of `size` bytes: the file's bytes of each loadable
/// segment at the segment's address, zeros elsewhere, and the file's entry. Else the first fault
/// of `LoadError` that the file shows; `NoMemory` only where it shows none.
pub fn load(alloc: Global, file: &[u8], size: u32) -> Result<Image, LoadError>
    requires { IsMemorySize size }
    ensures answer { ¬ IsErrOf result LoadError.NoMemory → result ≡ load_answer file.now size }
    ensures no_memory { IsErrOf result LoadError.NoMemory → IsOk (load_answer file.now size) }
{
    check_header(file)?;
    let segments = segments(file);
    let entry = check_segments(file, &segments, size)?;
    let bytes = place(alloc, file, &segments, size)?;
    Ok(Image::new(bytes, entry))
}

/// Answers the entry, or the first fault that the segments and the entry show.
fn check_segments(file: &[u8], segments: &[ProgramHeader], size: u32) -> Result<u32, LoadError>
    requires header { HasHeader file.now }
    requires segments { segments.now ≡ segments_of file.now }
    requires size { IsMemorySize size }
    ensures refused { IfErr result (λ fault. find (shows file.now size) segment_faults ≡ Some fault) }
    ensures passed { OnOk result (find (shows file.now size) segment_faults ≡ None) }
    ensures inside { OnOk result (list_any (lies_outside (length file.now) size) segments.now ≡ false) }
    ensures apart { OnOk result (some_overlap segments.now ≡ false) }
    ensures entry { IfOk result (λ entry. entry ≡ e_entry file.now) }
    ensures good_entry { IfOk result (λ entry. misplaced_entry size entry ≡ false) }
{
    if any_outside(segments, file.len(), size) {
        return Err(LoadError::SegmentOutside);
    }
    if overlap(segments) {
        return Err(LoadError::SegmentOverlap);
    }
    let entry = long(file, E_ENTRY);
    if is_misplaced(entry, size) {
        return Err(LoadError::Entry);
    }
    Ok(entry)
}

/// Whether no instruction can stand at the entry in memory of `size` bytes.
fn is_misplaced(entry: u32, size: u32) -> bool
    requires { IsMemorySize size }
    ensures { result ≡ misplaced_entry size entry }
{
    entry % 4 != 0 || entry < BASE || entry - BASE > size - 4
}

/// The segments' bytes of the file where they go in memory of `size` bytes, and zeros elsewhere.
fn place(
    alloc: Global,
    file: &[u8],
    segments: &[ProgramHeader],
    size: u32,
) -> Result<Vec<u8>, AllocError>
    requires inside { list_any (lies_outside (length file.now) size) segments.now ≡ false }
    requires apart { some_overlap segments.now ≡ false }
    ensures { IfOk result (λ bytes. bytes.items ≡ map (loaded_byte file.now segments.now) (range_with_len base size)) }
{
    let mut bytes = vec![in alloc; 0; size as usize]?;
    for segment in segments {
        segment.copy_into(&mut bytes, file);
    }
    Ok(bytes)
}
