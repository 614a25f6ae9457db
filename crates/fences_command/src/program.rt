//! The program as it is, with the bytes of its file.

ghost use Rattle.std.specs.Prelude.{◌≡◌, IfErr, IfOk};
ghost use Rattle.command_files.specs.Contents.{HoldsBytes};
ghost use Rattle.command_files.specs.Faults.{IsImageFault};
ghost use Rattle.command_files.specs.Files.{HoldsImage};
ghost use Rattle.command_files.specs.declared.fault.Fault.TheVariants.{OutOfMemory};
ghost use Rattle.elf_loader.specs.Size.{IsMemoryKib};
ghost use Rattle.search_files.specs.Named.{HoldsNamedImage, names_in};

use command_files::{Fault, Files, contents, image_of};
use elf_loader::Image;
use elf_symbols::Symbols;
use std::alloc::Global;

/// A file with a program, its image, and the names that the file has for addresses.
#[derive(Drop)]
pub(crate) struct Program {
    pub bytes: Vec<u8>,
    pub image: Image,
    pub names: Symbols,
}

/// The names that a file's bytes have for addresses: bare words have none.
fn names_of<'a>(alloc: Global, is_raw: bool, bytes: &[u8]) -> Result<Symbols, Fault<'a>>
    ensures names { IfOk result (λ names. names ≡ names_in is_raw bytes.now) }
    ensures fault { IfErr result (λ fault. fault ≡ OutOfMemory) }
{
    if is_raw {
        return Ok(Symbols::new(alloc));
    }
    match Symbols::read(alloc, bytes) {
        Ok(names) => Ok(names),
        Err(_) => Err(Fault::OutOfMemory),
    }
}

/// The program that the file holds, of bare words or an ELF file, in memory of so many KiB. The file is read once, so that
/// it may be standard input.
pub(crate) fn program_in<'a, F: Files>(
    alloc: Global,
    files: &mut F,
    is_raw: bool,
    name: &'a str,
    kib: u32,
) -> Result<Program, Fault<'a>>
    requires { IsMemoryKib kib }
    ensures fault { IfErr result (IsImageFault (F.held files.old) is_raw name.entry kib) }
    ensures bytes { IfOk result (λ read. HoldsBytes (F.held files.old) name.entry.now read.bytes.items) }
    ensures image { IfOk result (λ read. HoldsNamedImage (F.held files.old) is_raw name.entry.now kib read.image read.names) }
    ensures loaded { IfOk result (λ read. HoldsImage (F.held files.old) is_raw name.entry.now kib read.image) }
    ensures stays { F.held files.new ≡ F.held files.old }
{
    let bytes = contents(alloc, files, name)?;
    let image = image_of(alloc, files, is_raw, name, bytes.as_slice(), kib)?;
    let names = names_of(alloc, is_raw, bytes.as_slice())?;
    Ok(Program {
        bytes,
        image,
        names,
    })
}
