//! What stands in texts.

use std::alloc::{AllocError, Global};

/// How many lines begin with these words.
pub fn lines_with(text: &str, words: &str) -> usize {
    let mut count = 0usize;
    for line in text.lines() {
        count = count.saturating_add(usize::from(line.starts_with(words)));
    }
    count
}

/// These words of a command line, and behind them those of a text, of which what stands between two backquotes is one.
pub fn words_of<'a>(
    alloc: Global,
    first: &[&'static str],
    asked: &'a str,
) -> Result<Vec<&'a str>, AllocError> {
    let mut words = Vec::new(alloc);
    for word in first {
        words.push(*word)?;
    }
    let mut is_quoted = false;
    for part in asked.split('`') {
        if is_quoted {
            words.push(part)?;
        } else {
            add_words(&mut words, part)?;
        }
        is_quoted = !is_quoted;
    }
    Ok(words)
}

fn add_words<'a>(words: &mut Vec<&'a str>, text: &'a str) -> Result<(), AllocError> {
    for word in text.split(' ') {
        if !word.is_empty() {
            words.push(word)?;
        }
    }
    Ok(())
}
