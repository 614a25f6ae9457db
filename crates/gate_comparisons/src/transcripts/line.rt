//! The lines of a transcript, and what stands in them.

use anyhow::{Result, bail};
use std::alloc::Global;

/// A line: what it is, how its text is meant, and its text.
pub struct Line<'a> {
    pub sign: char,
    pub mark: char,
    pub text: &'a str,
}

impl<'a> Line<'a> {
    /// A remark where there is nothing. The mark is a blank where there is none.
    pub fn of(line: &'a str) -> Line<'a> {
        let mut letters = line.chars();
        let sign = letters.next().unwrap_or('#');
        let mark = letters.next().unwrap_or(' ');
        let rest = letters.as_str();
        let text = match mark {
            ' ' => rest,
            _ => rest.strip_prefix(' ').unwrap_or(rest),
        };
        Line { sign, mark, text }
    }
}

/// What stands before a text's first blank and behind it.
pub fn halves(text: &str) -> (&str, &str) {
    text.split_once(' ').unwrap_or((text, ""))
}

/// Adds a line's text to a file.
pub fn add_text(alloc: Global, file: &mut Vec<u8>, mark: char, text: &str) -> Result<()> {
    match mark {
        ' ' => {
            file.extend_from_slice(text.as_bytes())?;
            file.push(b'\n')?;
            Ok(())
        }
        '-' => add_repeated(alloc, file, 1, text),
        '*' => {
            let (count, text) = halves(text);
            add_repeated(alloc, file, count.parse::<u32>()?, text)
        }
        'w' => add_words(file, text),
        _ => bail!("no such text"),
    }
}

fn add_repeated(alloc: Global, file: &mut Vec<u8>, count: u32, text: &str) -> Result<()> {
    let text = unescaped(alloc, text)?;
    for _ in 0..count {
        file.extend_from_slice(text.as_bytes())?;
    }
    Ok(())
}

fn add_words(file: &mut Vec<u8>, words: &str) -> Result<()> {
    for digits in words.split(' ') {
        let word = u32::from_str_radix(digits, 16)?;
        file.extend_from_slice(&word.to_le_bytes())?;
    }
    Ok(())
}

/// The text with what each escape stands for in its place.
pub fn unescaped(alloc: Global, text: &str) -> Result<String> {
    let mut made = String::new(alloc);
    add_unescaped(&mut made, text)?;
    Ok(made)
}

fn add_unescaped(made: &mut String, text: &str) -> Result<()> {
    let mut pieces = text.split('\\');
    made.push_str(pieces.next().unwrap_or(""))?;
    for piece in pieces {
        add_escaped(made, piece)?;
    }
    Ok(())
}

/// Adds what stands behind a backslash.
fn add_escaped(made: &mut String, piece: &str) -> Result<()> {
    let mut letters = piece.chars();
    made.push(escaped(letters.next())?)?;
    made.push_str(letters.as_str())?;
    Ok(())
}

/// What the letter behind a backslash stands for.
fn escaped(letter: Option<char>) -> Result<char> {
    match letter {
        Some('n') => Ok('\n'),
        Some('r') => Ok('\r'),
        Some('e') => Ok('\x1b'),
        Some('0') => Ok('\0'),
        _ => bail!("no such escape"),
    }
}
