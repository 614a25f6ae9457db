//! How many clients a log has, and how many bytes a line.
ghost use Rattle.std.specs.Prelude.{◌≡◌, IfSome};
ghost use Rattle.wide_logs.specs.Shapes.{bytes_of_width, has_halves, part_of, width_of_bytes};

use tl_types::LineSize;

/// How many bytes a line has.
#[derive(Clone, Copy, Debug, PartialEq, Eq)]
pub enum Width {
    Bytes16,
    Bytes32,
    Bytes64,
    Bytes128,
}

impl Width {
    /// The width of a line of so many bytes, where a line may have as many.
    pub fn of_bytes(bytes: u32) -> Option<Width>
        ensures width { result ≡ width_of_bytes bytes }
        ensures bytes { IfSome result (λ width. bytes_of_width width ≡ bytes) }
    {
        match bytes {
            16 => Some(Width::Bytes16),
            32 => Some(Width::Bytes32),
            64 => Some(Width::Bytes64),
            128 => Some(Width::Bytes128),
            _ => None,
        }
    }

    /// 16, 32, 64 or 128.
    pub fn bytes(self) -> u32
        ensures { result ≡ bytes_of_width self }
    {
        match self {
            Width::Bytes16 => 16,
            Width::Bytes32 => 32,
            Width::Bytes64 => 64,
            Width::Bytes128 => 128,
        }
    }

    /// How large a part of the line is judged by itself: the line, or each half of one of 32 or 128 bytes.
    pub fn part(self) -> LineSize
        ensures { result ≡ part_of self }
    {
        match self {
            Width::Bytes16 | Width::Bytes32 => LineSize::Bytes16,
            Width::Bytes64 | Width::Bytes128 => LineSize::Bytes64,
        }
    }

    /// Whether that is a half of the line.
    pub fn has_halves(self) -> bool
        ensures { result ≡ has_halves self }
    {
        match self {
            Width::Bytes16 | Width::Bytes64 => false,
            Width::Bytes32 | Width::Bytes128 => true,
        }
    }
}

/// What a log's first line says.
#[derive(Clone, Copy, Debug, PartialEq, Eq)]
pub struct Shape {
    /// How many clients: 1 to 64.
    pub clients: u8,
    pub width: Width,
}
