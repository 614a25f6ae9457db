//! An image, and the names that its file has for addresses.

ghost use Rattle.std.specs.Prelude.{◌≡◌, IfErr, IfOk};
ghost use Rattle.command_files.specs.Faults.{IsImageFault};
ghost use Rattle.command_files.specs.Files.{HoldsImage};
ghost use Rattle.command_files.specs.declared.fault.Fault.TheVariants.{OutOfMemory};
ghost use Rattle.elf_loader.specs.Size.{IsMemoryKib};
ghost use Rattle.command_files.specs.Named.{HoldsNamedImage, names_in};

use crate::fault::Fault;
use crate::files::Files;
use crate::reading::{contents, image_of};
use elf_loader::Image;
use elf_symbols::Symbols;
use std::alloc::Global;

/// An image, and names of its addresses.
#[derive(Drop)]
pub struct NamedImage {
    pub image: Image,
    pub names: Symbols,
}

/// The names that a file's bytes have for addresses: bare words have none.
fn names_of<'a>(alloc: Global, is_raw: bool, bytes: &[u8]) -> Result<Symbols, Fault<'a>>
    ensures names { IfOk result (λ names. names ≡ names_in is_raw bytes.now) }
    ensures fault { IfErr result (λ fault. fault ≡ OutOfMemory) }
{
    if is_raw {
        return Ok(Symbols::new(alloc));
    }
    match Symbols::read(alloc, bytes) {
        Ok(names) => Ok(names),
        Err(_) => Err(Fault::OutOfMemory),
    }
}

/// The image that the file holds, of bare words or an ELF file, in memory of so many KiB, and its names.
pub fn named_image_in<'a, F: Files>(
    alloc: Global,
    files: &mut F,
    is_raw: bool,
    name: &'a str,
    kib: u32,
) -> Result<NamedImage, Fault<'a>>
    requires { IsMemoryKib kib }
    ensures fault { IfErr result (IsImageFault (F.held files.old) is_raw name.entry kib) }
    ensures image { IfOk result (λ read. HoldsNamedImage (F.held files.old) is_raw name.entry.now kib read.image read.names) }
    ensures loaded { IfOk result (λ read. HoldsImage (F.held files.old) is_raw name.entry.now kib read.image) }
    ensures stays { F.held files.new ≡ F.held files.old }
{
    let bytes = contents(alloc, files, name)?;
    let image = image_of(alloc, files, is_raw, name, bytes.as_slice(), kib)?;
    let names = names_of(alloc, is_raw, bytes.as_slice())?;
    Ok(NamedImage { image, names })
}
