//! Comments.
ghost use Rattle.std.specs.Prelude.{◌≡◌, ◌+◌, ◌≤◌, ◌^◌, ◌<◌, length, take, drop, IfOk};
ghost use Rattle.text_words.specs.Comments as comments;

use std::alloc::{AllocError, Global};

/// Where one stands in a text. A mark that begins or ends a comment takes two bytes: `Mark` is between them. Of the
/// outermost comment, `start` is how many bytes stand behind its first one.
#[derive(Clone, Copy)]
pub enum Place {
    Text,
    Quotation,
    Mark { depth: usize, start: usize },
    Comment { depth: usize, start: usize },
}

/// Why the comments of a text can't be told.
#[derive(Clone, Copy, Debug, PartialEq, Eq)]
pub enum CommentError {
    /// A comment doesn't end. So many bytes stand behind its first one.
    Open { left: usize },
    /// Memory was refused.
    NoMemory,
}

fn is_next(byte: u8, bytes: &[u8]) -> bool
    ensures { result ≡ comments.is_next byte bytes.now }
{
    matches!(bytes, [first, ..] if *first == byte)
}

/// What stands for a byte of a comment.
fn blank_for(byte: u8) -> u8
    ensures { result ≡ comments.blank_for byte }
{
    if byte == b'\n' { b'\n' } else { b' ' }
}

fn pass_comment(depth: usize, start: usize, byte: u8, rest: &[u8]) -> (Place, u8)
    requires { depth + 1 < 2 ^ 64 }
    ensures { result ≡ comments.pass_comment depth start byte rest.now }
{
    if byte == b'(' && is_next(b'*', rest) {
        let depth = depth + 1;
        (Place::Mark { depth, start }, b' ')
    } else if byte == b'*' && is_next(b')', rest) {
        let depth = depth.saturating_sub(1);
        (Place::Mark { depth, start }, b' ')
    } else {
        (Place::Comment { depth, start }, blank_for(byte))
    }
}

fn pass_text(byte: u8, rest: &[u8]) -> (Place, u8)
    ensures { result ≡ comments.pass_text byte rest.now }
{
    if byte == b'"' {
        (Place::Quotation, byte)
    } else if byte == b'(' && is_next(b'*', rest) {
        let start = rest.len();
        (Place::Mark { depth: 1, start }, b' ')
    } else {
        (Place::Text, byte)
    }
}

/// Where one stands behind a byte, and what stands for it.
#[tactic(auto, unfolding(crate::specs::Comments::pass))]
fn pass(place: Place, byte: u8, rest: &[u8]) -> (Place, u8)
    requires { comments.depth_of place + 1 < 2 ^ 64 }
    ensures { result ≡ comments.pass place byte rest.now }
{
    match place {
        Place::Text => pass_text(byte, rest),
        Place::Quotation if byte == b'"' || byte == b'\n' => (Place::Text, byte),
        Place::Quotation => (Place::Quotation, byte),
        Place::Mark { depth: 0, .. } => (Place::Text, b' '),
        Place::Mark { depth, start } => (Place::Comment { depth, start }, b' '),
        Place::Comment { depth, start } => pass_comment(depth, start, byte, rest),
    }
}

/// Of the comment that is open, how many bytes stand behind its first.
fn open_comment(place: Place) -> Option<usize>
    ensures { result ≡ comments.open_comment place }
{
    match place {
        Place::Text | Place::Quotation => None,
        Place::Mark { start, .. } | Place::Comment { start, .. } => Some(start),
    }
}

/// How many bytes at the front of a text outside of comments and quotations begin neither.
fn text_length(bytes: &[u8]) -> usize
    ensures most { result ≤ length bytes.now }
    ensures same { comments.uncommented Place.Text bytes.now ≡ comments.behind (take result bytes.now) (comments.uncommented Place.Text (drop result bytes.now)) }
{
    let mut length = 0;
    for byte in bytes {
        if *byte == b'"' || *byte == b'(' {
            break;
        }
        length += 1;
    }
    length
}

/// How many bytes at the front of a quotation don't end it.
fn quoted_length(bytes: &[u8]) -> usize
    ensures most { result ≤ length bytes.now }
    ensures same { comments.uncommented Place.Quotation bytes.now ≡ comments.behind (take result bytes.now) (comments.uncommented Place.Quotation (drop result bytes.now)) }
{
    let mut length = 0;
    for byte in bytes {
        if *byte == b'"' || *byte == b'\n' {
            break;
        }
        length += 1;
    }
    length
}

/// How many bytes at the front stand for themselves, without a change of place; no more than there are.
#[tactic(auto, using(crate::proofs::Blanking::none_plain))]
fn plain_length(place: Place, bytes: &[u8]) -> usize
    ensures most { result ≤ length bytes.now }
    ensures same { comments.uncommented place bytes.now ≡ comments.behind (take result bytes.now) (comments.uncommented place (drop result bytes.now)) }
{
    match place {
        Place::Text => text_length(bytes),
        Place::Quotation => quoted_length(bytes),
        Place::Mark { .. } | Place::Comment { .. } => 0,
    }
}

/// Adds bytes at the front that stand for themselves, and answers what stands behind them.
fn put_plain<'a>(place: Place, bytes: &'a [u8], out: &mut Vec<u8>) -> Result<&'a [u8], AllocError>
    ensures { IfOk result (λ rest. (length rest.now ≤ length bytes.entry.now) × (comments.behind out.new.items (comments.uncommented place rest.now) ≡ comments.behind out.old.items (comments.uncommented place bytes.entry.now))) }
{
    match plain_length(place, bytes) {
        0 => Ok(bytes),
        length => {
            let (plain, rest) = bytes.split_at(length);
            out.extend_from_slice(plain)?;
            Ok(rest)
        }
    }
}

/// The text with blanks for its comments, byte for byte; line feeds stay. In a quotation no comment begins; it ends with its
/// line at the latest.
#[tactic(auto, using(crate::proofs::Blanking::blanked_next, crate::proofs::Blanking::deeper, crate::proofs::Blanking::behind_none))]
pub fn blank_comments(alloc: Global, bytes: &[u8]) -> Result<Vec<u8>, CommentError>
    ensures { comments.Gives (λ v. v.items) result (comments.uncommented Place.Text bytes.now) }
{
    let Ok(mut out) = Vec::with_capacity(alloc, bytes.len()) else {
        return Err(CommentError::NoMemory);
    };
    let mut place = Place::Text;
    let mut rest = bytes;
    while let [byte, tail @ ..] = rest {
        let (next, blank) = pass(place, *byte, tail);
        let Ok(()) = out.push(blank) else {
            return Err(CommentError::NoMemory);
        };
        let Ok(later) = put_plain(next, tail, &mut out) else {
            return Err(CommentError::NoMemory);
        };
        place = next;
        rest = later;
    }
    match open_comment(place) {
        None => Ok(out),
        Some(left) => Err(CommentError::Open { left }),
    }
}
