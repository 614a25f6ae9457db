//! Lines of memory, and words in them.
ghost use Rattle.std.specs.Prelude.{◌≡◌, ◌≤◌, ◌%◌};
ghost use Rattle.elf_loader.specs.Size.{base};
ghost use Rattle.machine_model.specs.Views.{place_of};
ghost use Rattle.machine_model.specs.Words.{word_in};

use elf_loader::BASE;
use tl_types::{LineData, LineSize};

/// The place in memory of the line that begins at an address.
pub(crate) fn place_of(size: LineSize, line: u32) -> u32
    requires { base ≤ line }
    ensures { result ≡ place_of size line }
{
    (line - BASE) / size.bytes()
}

/// The four bytes of an aligned word in its line.
pub(crate) fn word_in(line: &LineData, word: u32) -> [u8; 4]
    requires aligned { word % 4 ≡ 0 }
    ensures { result ≡ word_in line.now word }
{
    match line {
        LineData::Bytes16(bytes) => {
            let place = (word % 16) as usize;
            [
                bytes[place],
                bytes[place + 1],
                bytes[place + 2],
                bytes[place + 3],
            ]
        }
        LineData::Bytes64(bytes) => {
            let place = (word % 64) as usize;
            [
                bytes[place],
                bytes[place + 1],
                bytes[place + 2],
                bytes[place + 3],
            ]
        }
    }
}
