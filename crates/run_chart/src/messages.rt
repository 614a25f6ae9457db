//! How a chart tells a message.
ghost use Rattle.std.specs.Prelude.{◌≡◌, ◌+◌, ◌≤◌, ◌++◌, length};
ghost use Rattle.run_chart.specs.Texts.{heading};
ghost use Rattle.text_fields.specs.Pages.{size};
ghost use Rattle.trace_text.specs.MessageParts.{permissions};
ghost use Rattle.trace_text.specs.Words as words;

use crate::naming::{Manner, Naming, spell_line};
use text_fields::Page;
use tl_types::{Body, Cap, Change, Grow, Msg};

/// The message's name, with a space behind it.
fn name(message: &Msg) -> &'static [u8]
    ensures value { result.now ≡ words.name message.now.body }
    ensures len { length result.now ≤ 13 }
{
    match message.body {
        Body::AcquireBlock(_) => b"AcquireBlock ",
        Body::ProbeBlock(_) => b"ProbeBlock ",
        Body::ProbeAck(_) => b"ProbeAck ",
        Body::ProbeAckData { .. } => b"ProbeAckData ",
        Body::Release(_) => b"Release ",
        Body::ReleaseData { .. } => b"ReleaseData ",
        Body::Grant(_) => b"Grant ",
        Body::GrantData { .. } => b"GrantData ",
        Body::ReleaseAck => b"ReleaseAck ",
        Body::GrantAck => b"GrantAck ",
    }
}

fn grow_text(grow: Grow) -> &'static [u8]
    ensures value { result.now ≡ words.grow grow }
    ensures len { length result.now ≤ 5 }
{
    match grow {
        Grow::NtoB => b" NtoB",
        Grow::NtoT => b" NtoT",
        Grow::BtoT => b" BtoT",
    }
}

fn cap_text(cap: Cap) -> &'static [u8]
    ensures value { result.now ≡ words.cap cap }
    ensures len { length result.now ≤ 5 }
{
    match cap {
        Cap::ToT => b" toT",
        Cap::ToB => b" toB",
        Cap::ToN => b" toN",
    }
}

fn change_text(change: Change) -> &'static [u8]
    ensures value { result.now ≡ words.change change }
    ensures len { length result.now ≤ 5 }
{
    match change {
        Change::TtoB => b" TtoB",
        Change::TtoN => b" TtoN",
        Change::BtoN => b" BtoN",
        Change::TtoT => b" TtoT",
        Change::BtoB => b" BtoB",
        Change::NtoN => b" NtoN",
    }
}

/// The permissions that a message names, if it names some, behind a space.
fn permissions_text(message: &Msg) -> &'static [u8]
    ensures value { result.now ≡ permissions message.now.body }
    ensures len { length result.now ≤ 5 }
{
    match message.body {
        Body::AcquireBlock(grow) => grow_text(grow),
        Body::ProbeBlock(cap) | Body::Grant(cap) | Body::GrantData { cap, .. } => cap_text(cap),
        Body::ProbeAck(change)
        | Body::ProbeAckData { change, .. }
        | Body::Release(change)
        | Body::ReleaseData { change, .. } => change_text(change),
        Body::ReleaseAck | Body::GrantAck => b"",
    }
}

/// A message without the bytes that it carries: at most 96 bytes.
pub(crate) fn spell_heading(page: &mut Page, names: &Naming<'_>, manner: Manner, message: &Msg)
    requires { length page.old + 96 ≤ size }
    ensures { page.new ≡ page.old ++ heading manner names.now.symbols.now names.now.size message.now }
{
    page.text(name(message));
    spell_line(page, names, manner, message.line);
    page.text(permissions_text(message));
}
