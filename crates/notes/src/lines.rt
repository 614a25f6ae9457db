//! Parts of a text.

/// What stands before the first such byte, and what behind it, where there is one.
pub(crate) fn split_once(bytes: &[u8], byte: u8) -> (&[u8], Option<&[u8]>) {
    match bytes.iter().position(|other| *other == byte) {
        Some(at) => (&bytes[..at], Some(&bytes[at + 1..])),
        None => (bytes, None),
    }
}

/// The line of this number, counted from 1, without its line feed; the last one where there are fewer.
pub(crate) fn line_of(bytes: &[u8], number: usize) -> &[u8] {
    let mut rest = bytes;
    for _line in 1..number {
        let (_, Some(later)) = split_once(rest, b'\n') else {
            break;
        };
        rest = later;
    }
    let (line, _) = split_once(rest, b'\n');
    line
}

/// The first word of a line.
pub(crate) fn first_word(line: &[u8]) -> &[u8] {
    let (word, _) = split_once(line, b' ');
    word
}

/// What is said of a line that no line feed ends.
pub(crate) const UNENDED: &str = "the line has no line feed: the file ends within it";

/// What blanks, or bytes that can't be seen, a line has that no line may have.
pub(crate) fn blemish_of(line: &[u8]) -> Option<&'static str> {
    if line.is_empty() {
        Some("the line is empty")
    } else if line.ends_with(b"\r") {
        Some(
            "a carriage return stands at the end of the line: line feeds alone end lines (tr -d '\\r')",
        )
    } else if line.contains(&b'\t') {
        Some("a tab stands in the line: words have one blank between them")
    } else if line.starts_with(b" ") || line.ends_with(b" ") || has_two_blanks(line) {
        Some("a blank too many stands in the line: words have one between them")
    } else {
        None
    }
}

fn has_two_blanks(line: &[u8]) -> bool {
    let mut is_behind_blank = false;
    for byte in line {
        if *byte == b' ' && is_behind_blank {
            return true;
        }
        is_behind_blank = *byte == b' ';
    }
    false
}

/// The number, from 1, of the line in which the byte of this index stands.
pub(crate) fn number_of_line(bytes: &[u8], index: usize) -> usize {
    let before = bytes.get(..index).unwrap_or_default();
    let mut number: usize = 1;
    for byte in before {
        if *byte == b'\n' {
            number = number.saturating_add(1);
        }
    }
    number
}

/// The word of this index, from 0, of a line; of no bytes where there are fewer.
pub(crate) fn word_of(line: &[u8], index: usize) -> &[u8] {
    let mut rest = line;
    for _word in 0..index {
        let (_, Some(later)) = split_once(rest, b' ') else {
            return &[];
        };
        rest = later;
    }
    first_word(rest)
}
