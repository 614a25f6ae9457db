//! Main memory as lines of one size.
ghost use Rattle.std.specs.Prelude.{◌≡◌, ◌<◌, IfOk, length, slice_set};
ghost use Rattle.backing_memory.specs.Memory.{FitsMemory, line_data, lines_of, pieces_of};
ghost use Rattle.tl_types.specs.Line.{size_of};

use elf_loader::Image;
use std::alloc::{AllocError, Global};
use std::marker::Model;
use tl_types::{LineData, LineSize};

/// All lines of one size, so that a line costs its bytes alone.
#[derive(Drop)]
enum Lines {
    Bytes16(Vec<[u8; 16]>),
    Bytes64(Vec<[u8; 64]>),
}

/// The lines of main memory, numbered from 0: line `i` begins at 0x80000000 and `i` times the
/// line's length.
#[derive(Drop)]
pub struct Memory {
    lines: Lines,
}

impl Model for Memory {
    ghost use Rattle.std.specs.Prelude.{List};
    ghost use Rattle.tl_types.specs.declared.line.LineData.{LineData};

    ghost Value = { List LineData };

    ghost use Rattle.backing_memory.specs.Lines.{lines_in};

    ghost view = { λ memory. lines_in memory.lines };

    ghost use Rattle.backing_memory.specs.Memory.{FitsMemory};

    ghost invariant = { λ memory. FitsMemory (lines_in memory.lines) };
}

impl Memory {
    /// Memory as `image` leaves it, in lines of this size.
    pub fn new(alloc: Global, image: &Image, size: LineSize) -> Result<Memory, AllocError>
        ensures { IfOk result (λ memory. memory ≡ lines_of size image.now.bytes) }
    {
        let bytes = image.bytes();
        let lines = match size {
            LineSize::Bytes16 => Lines::Bytes16(cut(alloc, bytes)?),
            LineSize::Bytes64 => Lines::Bytes64(cut(alloc, bytes)?),
        };
        Ok(Memory { lines })
    }

    /// How many lines memory has.
    pub fn line_count(&self) -> u32
        ensures count { result ≡ length self.now }
        ensures lines { FitsMemory self.now }
    {
        let count = match &self.lines {
            Lines::Bytes16(lines) => lines.len(),
            Lines::Bytes64(lines) => lines.len(),
        };
        count as u32
    }

    /// The bytes of line `i`.
    pub fn line(&self, i: u32) -> LineData
        requires { i < length self.now }
        ensures { result ≡ line_data self.now i }
    {
        match &self.lines {
            Lines::Bytes16(lines) => LineData::Bytes16(lines[i as usize]),
            Lines::Bytes64(lines) => LineData::Bytes64(lines[i as usize]),
        }
    }

    /// Makes line `i` these bytes, as many as it has.
    pub fn set_line(&mut self, i: u32, line: LineData)
        requires inside { i < length self.old }
        requires fits { size_of line ≡ size_of (line_data self.old i) }
        ensures { self.new ≡ slice_set self.old i line }
    {
        match &mut self.lines {
            Lines::Bytes16(lines) => {
                let LineData::Bytes16(bytes) = line else {
                    unreachable!()
                };
                lines[i as usize] = bytes;
            }
            Lines::Bytes64(lines) => {
                let LineData::Bytes64(bytes) = line else {
                    unreachable!()
                };
                lines[i as usize] = bytes;
            }
        }
    }
}

/// The bytes in pieces of `N`, a rest aside.
#[tactic(auto, using(crate::proofs::Chunks::pieces))]
fn cut<const N: usize>(alloc: Global, bytes: &[u8]) -> Result<Vec<[u8; N]>, AllocError>
    requires { 0 < N }
    ensures { IfOk result (λ pieces. pieces.items ≡ pieces_of N bytes.now) }
{
    bytes.as_chunks::<N>().0.iter().copied().collect(alloc)
}
