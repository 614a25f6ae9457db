//! What an access to memory did, on a line of its own.
ghost use Rattle.std.specs.Prelude.{◌≡◌, ◌+◌, ◌≤◌, ◌++◌, length};
ghost use Rattle.event_stream.specs.Accesses as accesses;
ghost use Rattle.rv32_exec.specs.Actions.{addressed};
ghost use Rattle.run_chart.specs.Texts.{touched};
ghost use Rattle.text_fields.specs.Pages.{size};

use crate::naming::{Manner, Naming, spell_address};
use amo_unit::combine;
use hart::Retired;
use rv32_exec::{Action, Width};
use text_fields::{Page, word_text};

/// As many bytes of a number as the access has.
fn spell_value(page: &mut Page, width: Width, value: u32)
    requires { length page.old + 10 ≤ size }
    ensures value { page.new ≡ page.old ++ accesses.value width value }
    ensures len { length page.new ≤ length page.old + 10 }
{
    let text = word_text(value);
    page.text(b"0x");
    page.text(&text[10 - 2 * width.bytes() as usize..]);
}

fn spell_is(page: &mut Page, width: Width, value: u32)
    requires { length page.old + 13 ≤ size }
    ensures value { page.new ≡ page.old ++ accesses.is width value }
    ensures len { length page.new ≤ length page.old + 13 }
{
    page.text(b" = ");
    spell_value(page, width, value);
}

/// What an SC stored, if it did.
fn spell_conditional(page: &mut Page, value: u32, succeeded: Option<bool>)
    requires { length page.old + 13 ≤ size }
    ensures value { page.new ≡ page.old ++ accesses.conditional value succeeded }
    ensures len { length page.new ≤ length page.old + 13 }
{
    match succeeded {
        Some(true) => spell_is(page, Width::Word, value),
        Some(false) | None => page.text(b" fails"),
    }
}

/// What was read, and what was then stored.
fn spell_update(page: &mut Page, read: u32, written: u32)
    requires { length page.old + 27 ≤ size }
    ensures value { page.new ≡ page.old ++ accesses.update read written }
    ensures len { length page.new ≤ length page.old + 27 }
{
    spell_is(page, Width::Word, read);
    page.text(b" -> ");
    spell_value(page, Width::Word, written);
}

/// What an instruction that was to do this has done.
fn spell_done(page: &mut Page, action: Action, entry: &Retired)
    requires { length page.old + 27 ≤ size }
    ensures value { page.new ≡ page.old ++ accesses.done action entry.now }
    ensures len { length page.new ≤ length page.old + 27 }
{
    let read = entry.number_read();
    match action {
        Action::Load { size, .. } => spell_is(page, size, read),
        Action::Store { size, value, .. } => spell_is(page, size, value),
        Action::Lr { .. } => spell_is(page, Width::Word, read),
        Action::Sc { value, .. } => spell_conditional(page, value, entry.sc_ok),
        Action::Amo { op, operand, .. } => spell_update(page, read, combine(op, read, operand)),
        Action::Private | Action::Fence | Action::Call | Action::Stop(_) => {}
    }
}

/// The address behind a space, and what was read there or stored: at most 106 bytes, and none where memory isn't
/// accessed.
pub(crate) fn spell_touched(
    page: &mut Page,
    names: &Naming<'_>,
    manner: Manner,
    action: Action,
    entry: &Retired,
)
    requires { length page.old + 106 ≤ size }
    ensures value { page.new ≡ page.old ++ touched manner names.now.symbols.now (addressed action) action entry.now }
    ensures len { length page.new ≤ length page.old + 106 }
{
    if let Some(address) = action.address() {
        page.text(b" ");
        spell_address(page, names, manner, address);
        spell_done(page, action, entry);
    }
}
