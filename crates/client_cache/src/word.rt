//! A write to some of the bytes of one word of a line.
ghost use Rattle.std.specs.Prelude.{◌≡◌, ◌≤◌, ◌+◌, ◌%◌, length};
ghost use Rattle.client_cache.specs.Word.{with_marked, with_word};

use tl_types::LineData;

/// The line with the marked bytes of a word in their place.
pub fn with_word(line: LineData, word: u32, marks: [bool; 4], bytes: [u8; 4]) -> LineData
    requires aligned { word % 4 ≡ 0 }
    ensures { result ≡ with_word line word marks bytes }
{
    match line {
        LineData::Bytes16(mut line) => {
            write_marked(&mut line, (word % 16) as usize, &marks, &bytes);
            LineData::Bytes16(line)
        }
        LineData::Bytes64(mut line) => {
            write_marked(&mut line, (word % 64) as usize, &marks, &bytes);
            LineData::Bytes64(line)
        }
    }
}

/// Writes the marked ones of the bytes, the first at `at`.
fn write_marked(line: &mut [u8], at: usize, marks: &[bool; 4], bytes: &[u8; 4])
    requires { at + 4 ≤ length line.old }
    ensures { line.new ≡ with_marked line.old at marks.now bytes.now }
{
    for i in 0..4 {
        if marks[i] {
            line[at + i] = bytes[i];
        }
    }
}
