//! A hart's code.

use assembly_reading::Statement;
use text_words::Name;

/// What stands in a hart's column.
#[derive(Clone, Copy)]
pub enum Content {
    /// A label of what follows.
    Label(Name),
    Code(Statement),
}

/// A line of a hart's column. Of the text, `left` is how many bytes stand from the line's first one to the file's end.
#[derive(Clone, Copy)]
pub struct CodeLine {
    pub hart: u8,
    pub left: usize,
    pub content: Content,
}
