//! Texts in pieces, some of which stand in several texts.

use std::alloc::{AllocError, Global};

pub type Text = &'static [&'static str];

/// The text of these pieces.
pub fn joined(alloc: Global, pieces: &[&str]) -> Result<Vec<u8>, AllocError> {
    let mut text = Vec::new(alloc);
    for piece in pieces {
        text.extend_from_slice(piece.as_bytes())?;
    }
    Ok(text)
}
