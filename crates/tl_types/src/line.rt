//! Lines of memory: their size and their bytes.
ghost use Rattle.std.specs.Prelude.{◌≡◌, IfSome, length};
ghost use Rattle.tl_types.specs.Line.{bytes_of, line_of, size_of, size_of_bytes, length_of};

/// How many bytes a line has.
#[derive(Clone, Copy, Debug, PartialEq, Eq)]
pub enum LineSize {
    Bytes16,
    Bytes64,
}

impl LineSize {
    /// The size of a line of so many bytes, where a line may have as many.
    pub fn of_bytes(bytes: u32) -> Option<LineSize>
        ensures size { result ≡ size_of_bytes bytes }
        ensures bytes { IfSome result (λ size. length_of size ≡ bytes) }
    {
        match bytes {
            16 => Some(LineSize::Bytes16),
            64 => Some(LineSize::Bytes64),
            _ => None,
        }
    }

    /// 16 or 64.
    pub fn bytes(self) -> u32
        ensures { result ≡ length_of self }
    {
        match self {
            LineSize::Bytes16 => 16,
            LineSize::Bytes64 => 64,
        }
    }

    /// The line that an address lies in, as the address of its first byte.
    pub fn line_of(self, address: u32) -> u32
        ensures { result ≡ line_of self address }
    {
        address - address % self.bytes()
    }
}

/// The bytes of a whole line, the one at the lowest address first.
#[derive(Clone, Copy, Debug, PartialEq, Eq)]
pub enum LineData {
    Bytes16([u8; 16]),
    Bytes64([u8; 64]),
}

impl LineData {
    /// Which size the line has.
    pub fn size(&self) -> LineSize
        ensures { result ≡ size_of self.now }
    {
        match self {
            LineData::Bytes16(_) => LineSize::Bytes16,
            LineData::Bytes64(_) => LineSize::Bytes64,
        }
    }

    /// Its 16 or 64 bytes, the one at the lowest address first.
    pub fn as_slice(&self) -> &[u8]
        ensures { result.now ≡ bytes_of self.now }
    {
        match self {
            LineData::Bytes16(bytes) => bytes,
            LineData::Bytes64(bytes) => bytes,
        }
    }
}
