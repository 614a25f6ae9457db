//! Why a file is refused.
ghost use Rattle.std.specs.Prelude.{◌≡◌};
ghost use Rattle.elf_loader.specs.Error.{load_error_number};
ghost use Rattle.elf_loader.specs.declared.error.LoadError.TheVariants.{NoMemory};

use std::alloc::AllocError;
use thiserror::Error;

/// Why a file gives no image, in the order of testing: of the causes that hold the first is
/// answered. The fields are those of the ELF specification for 32-bit files.
#[derive(Clone, Copy, Debug, PartialEq, Eq, Error)]
pub enum LoadError {
    /// The file ends within its header; of bare words, within a word.
    #[error("Short")]
    Short = 1,
    /// The file does not begin as an ELF file does.
    #[error("Magic")]
    Magic = 2,
    /// Not a 32-bit, little-endian file of the current version.
    #[error("Class")]
    Class = 3,
    /// Not an executable file.
    #[error("FileType")]
    FileType = 4,
    /// Not for RISC-V.
    #[error("Machine")]
    Machine = 5,
    /// The flags ask for compressed code, floating point or another profile.
    #[error("Flags")]
    Flags = 6,
    /// The program header table has entries of another size, more than 16 of them, or lies
    /// outside the file.
    #[error("HeaderTable")]
    HeaderTable = 7,
    /// A segment lies outside the file or outside memory; of bare words, they are more than
    /// memory holds.
    #[error("SegmentOutside")]
    SegmentOutside = 8,
    /// Two segments share an address.
    #[error("SegmentOverlap")]
    SegmentOverlap = 9,
    /// The entry is no multiple of 4, or no whole word of memory lies there.
    #[error("Entry")]
    Entry = 10,
    /// Memory was refused.
    #[error("NoMemory")]
    NoMemory = 11,
}

impl LoadError {
    /// 1 to 11, in the order of testing.
    pub fn number(self) -> u8
        ensures { result ≡ load_error_number self }
    {
        self as u8
    }
}

impl From<AllocError> for LoadError {
    ghost from_gives = { λ _ fault. fault ≡ NoMemory };

    fn from(_refused: AllocError) -> LoadError {
        LoadError::NoMemory
    }
}
