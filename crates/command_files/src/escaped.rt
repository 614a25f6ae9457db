//! Names as messages have them.

use std::fmt::{self, Display, Formatter};

/// A file's name, or a word of the command line, in a message of one line: what would end the line or steer a terminal is
/// escaped, and so is a backslash; quotes stand as they are.
#[derive(Clone, Copy, Debug)]
pub struct Escaped<'a>(pub &'a str);

impl Display for Escaped<'_> {
    fn fmt<W: fmt::Write>(&self, f: &mut Formatter<W>) -> fmt::Result {
        for (number, part) in self.0.split('\'').enumerate() {
            if number > 0 {
                f.write_str("'")?;
            }
            escape_all_but_quotes(part, f)?;
        }
        Ok(())
    }
}

// Of a text without apostrophes.
fn escape_all_but_quotes<W: fmt::Write>(text: &str, f: &mut Formatter<W>) -> fmt::Result {
    for (number, part) in text.split('"').enumerate() {
        if number > 0 {
            f.write_str("\"")?;
        }
        write!(f, "{}", part.escape_debug())?;
    }
    Ok(())
}
