//! How a message that is asked for is read: `NAME HART ADDRESS`, as in a trace, and `*` for what may be any.
ghost use Rattle.std.specs.Prelude.{◌≡◌, ℕ, IfSome, IsNone, List, map};
ghost use Rattle.std.specs.Option.{option_map};
ghost use Rattle.message_pattern.specs.Reading as reads;
ghost use Rattle.message_pattern.specs.Spelling.{Spells};
ghost use Rattle.text_fields.specs.Reading.{table_at};

use crate::pattern::{MessageName, MessagePattern};
use text_fields::{after, number_at, word_at};

/// The greatest number of a hart.
const LAST_HART: u32 = 7;

const NAMES: [(&[u8], MessageName); 10] = [
    (b"AcquireBlock ", MessageName::AcquireBlock),
    (b"ProbeBlock ", MessageName::ProbeBlock),
    (b"ProbeAck ", MessageName::ProbeAck),
    (b"ProbeAckData ", MessageName::ProbeAckData),
    (b"Release ", MessageName::Release),
    (b"ReleaseData ", MessageName::ReleaseData),
    (b"Grant ", MessageName::Grant),
    (b"GrantData ", MessageName::GrantData),
    (b"ReleaseAck ", MessageName::ReleaseAck),
    (b"GrantAck ", MessageName::GrantAck),
];

/// The message that a text asks for: its name, its hart, and an address in its line, `0x` and 8 lower-case digits, with
/// one blank between each two, and `*` for what may be any.
pub fn pattern_in(text: &[u8]) -> Option<MessagePattern>
    ensures value { result ≡ reads.pattern_in text.now }
    ensures spelled { IfSome result (Spells text.now) }
    ensures unread { IsNone result → (pattern : MessagePattern) → Spells text.now pattern → ⊥ }
{
    whole_pattern_in(text)
}

/// What is asked for, where nothing stands behind it.
fn whole_pattern_in(text: &[u8]) -> Option<MessagePattern>
    ensures { result ≡ reads.pattern_in text.now }
{
    match pattern_at(text)? {
        (pattern, []) => Some(pattern),
        _ => None,
    }
}

/// What is asked for, and the bytes behind it.
#[tactic(auto, unfolding(crate::specs::Reading::pattern_at))]
fn pattern_at(bytes: &[u8]) -> Option<(MessagePattern, &[u8])>
    ensures { option_map (λ x. (x.0, x.1.now)) result ≡ reads.pattern_at bytes.now }
{
    let (name, rest) = name_at(bytes)?;
    let (hart, rest) = hart_at(rest)?;
    let (address, rest) = address_at(rest)?;
    let pattern = MessagePattern {
        name,
        hart,
        address,
    };
    Some((pattern, rest))
}

/// A message's name, or any.
#[tactic(auto, unfolding(crate::specs::Reading::name_at))]
fn name_at(bytes: &[u8]) -> Option<(Option<MessageName>, &[u8])>
    ensures { option_map (λ x. (x.0, x.1.now)) result ≡ reads.name_at bytes.now }
{
    if let Some((name, rest)) = known_name_at(bytes) {
        return Some((Some(name), rest));
    }
    let rest = after(b"* ", bytes)?;
    Some((None, rest))
}

fn known_name_at(bytes: &[u8]) -> Option<(MessageName, &[u8])>
    ensures { option_map (λ x. (x.0, x.1.now)) result ≡ reads.known_name_at bytes.now }
{
    name_in(&NAMES, bytes)
}

/// What the first of the table's words that stands here names.
fn name_in<'a>(table: &[(&[u8], MessageName)], bytes: &'a [u8]) -> Option<(MessageName, &'a [u8])>
    ensures { option_map {U = MessageName × List ℕ} (λ x. (x.0, x.1.now)) result ≡ table_at (map {B = List ℕ × MessageName} (λ e. (e.0.now, e.1)) table.now) bytes.now }
{
    for (word, name) in table {
        if let Some(rest) = after(word, bytes) {
            return Some((*name, rest));
        }
    }
    None
}

/// A hart's number, or any.
#[tactic(auto, unfolding(crate::specs::Reading::hart_at))]
fn hart_at(bytes: &[u8]) -> Option<(Option<u8>, &[u8])>
    ensures { option_map (λ x. (x.0, x.1.now)) result ≡ reads.hart_at bytes.now }
{
    if let Some((hart, rest)) = number_at(bytes, b' ', LAST_HART) {
        return Some((Some(hart as u8), rest));
    }
    let rest = after(b"* ", bytes)?;
    Some((None, rest))
}

/// An address, or any.
#[tactic(auto, unfolding(crate::specs::Reading::address_at))]
fn address_at(bytes: &[u8]) -> Option<(Option<u32>, &[u8])>
    ensures { option_map (λ x. (x.0, x.1.now)) result ≡ reads.address_at bytes.now }
{
    if let Some((address, rest)) = word_at(bytes) {
        return Some((Some(address), rest));
    }
    let rest = after(b"*", bytes)?;
    Some((None, rest))
}
