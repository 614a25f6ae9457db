//! Telling what the values of signals are.
ghost use Rattle.std.specs.Prelude.{◌≡◌, ◌+◌, ◌*◌, ◌≤◌, ◌++◌, length};
ghost use Rattle.std.specs.List.{flat_map};
ghost use Rattle.run_waves.specs.Groups as groups;
ghost use Rattle.run_waves.specs.Naming as naming;
ghost use Rattle.run_waves.specs.Signals as signals;
ghost use Rattle.run_waves.specs.Telling as telling;
ghost use Rattle.run_waves.specs.declared.signals.Width.TheVariants as widths;
ghost use Rattle.text_fields.specs.Pages.{HasLineRoom, Spells, size};

use crate::groups::Group;
use crate::naming::{spell_closed, spell_declaration, spell_identifier, spell_opened};
use crate::reading::values_of;
use crate::signals::{Signal, Width};
use crate::values::Values;
use crate::watching::Seen;
use coherent_machine::Machine;
use std::io::{Result, Write};
use text_fields::Page;

/// The eight binary digits of a byte.
fn byte_bits(byte: u8) -> [u8; 8]
    ensures { result ≡ signals.byte_bits byte }
{
    [
        b'0' + byte / 128,
        b'0' + (byte / 64) % 2,
        b'0' + (byte / 32) % 2,
        b'0' + (byte / 16) % 2,
        b'0' + (byte / 8) % 2,
        b'0' + (byte / 4) % 2,
        b'0' + (byte / 2) % 2,
        b'0' + byte % 2,
    ]
}

/// A scalar.
fn spell_bit(page: &mut Page, value: u32)
    requires { length page.old + 34 ≤ size }
    ensures text { page.new ≡ page.old ++ signals.value widths.Bit value }
    ensures len { length page.new ≤ length page.old + 34 }
{
    if value == 0 {
        page.text(b"0");
    } else {
        page.text(b"1");
    }
}

/// A vector of 8 bits.
fn spell_byte(page: &mut Page, value: u32)
    requires { length page.old + 34 ≤ size }
    ensures text { page.new ≡ page.old ++ signals.value widths.Byte value }
    ensures len { length page.new ≤ length page.old + 34 }
{
    page.text(b"b");
    page.text(&byte_bits((value % 256) as u8));
    page.text(b" ");
}

/// The binary digits of bytes.
fn spell_bits(page: &mut Page, bytes: &[u8])
    requires { length page.old + 8 * length bytes.now ≤ size }
    ensures value { page.new ≡ page.old ++ flat_map signals.byte_bits bytes.now }
    ensures len { length page.new ≡ length page.old + 8 * length bytes.now }
{
    for byte in bytes {
        page.text(&byte_bits(*byte));
    }
}

/// A vector of 32 bits.
fn spell_word(page: &mut Page, value: u32)
    requires { length page.old + 34 ≤ size }
    ensures text { page.new ≡ page.old ++ signals.value widths.Word value }
    ensures len { length page.new ≤ length page.old + 34 }
{
    page.text(b"b");
    spell_bits(page, &value.to_be_bytes());
    page.text(b" ");
}

/// A value, up to the identifier.
fn spell_value(page: &mut Page, width: Width, value: u32)
    requires { length page.old + 34 ≤ size }
    ensures text { page.new ≡ page.old ++ signals.value width value }
    ensures len { length page.new ≤ length page.old + 34 }
{
    match width {
        Width::Bit => spell_bit(page, value),
        Width::Byte => spell_byte(page, value),
        Width::Word => spell_word(page, value),
    }
}

/// A line with a signal's value.
fn spell_told(page: &mut Page, group: Group, values: &Values, signal: Signal)
    requires { HasLineRoom page.old }
    ensures { page.new ≡ page.old ++ telling.told group values.now signal }
{
    spell_value(page, signal.width(), values[signal.place()]);
    spell_identifier(page, group, signal);
    page.text(b"\n");
}

/// The same, where the value isn't what it was.
fn spell_changed(page: &mut Page, group: Group, old: &Values, new: &Values, signal: Signal)
    requires { HasLineRoom page.old }
    ensures { page.new ≡ page.old ++ telling.changed group old.now new.now signal }
{
    if old[signal.place()] != new[signal.place()] {
        spell_told(page, group, new, signal);
    }
}

fn put_module<W: Write>(page: &mut Page, out: &mut W, group: Group) -> Result<()>
    ensures { Spells (W.contents out.old) (W.contents out.new) page.old page.new (groups.opened group) result }
{
    page.make_room(out)?;
    spell_opened(page, group);
    Ok(())
}

fn put_declarations<W: Write>(
    page: &mut Page,
    out: &mut W,
    group: Group,
    signals: &[Signal],
) -> Result<()>
    ensures { Spells (W.contents out.old) (W.contents out.new) page.old page.new (flat_map (naming.declaration group) signals.now) result }
{
    for signal in signals {
        page.make_room(out)?;
        spell_declaration(page, group, *signal);
    }
    Ok(())
}

fn put_end<W: Write>(page: &mut Page, out: &mut W, group: Group) -> Result<()>
    ensures { Spells (W.contents out.old) (W.contents out.new) page.old page.new (groups.closed group) result }
{
    page.make_room(out)?;
    spell_closed(page, group);
    Ok(())
}

/// The signals of a part, in their module.
fn put_declared<W: Write>(page: &mut Page, out: &mut W, group: Group) -> Result<()>
    ensures { Spells (W.contents out.old) (W.contents out.new) page.old page.new (naming.declared group) result }
{
    put_module(page, out, group)?;
    put_declarations(page, out, group, group.signals())?;
    put_end(page, out, group)
}

/// The signals of all these parts.
pub(crate) fn put_all_declared<W: Write>(
    page: &mut Page,
    out: &mut W,
    groups: &[Group],
) -> Result<()>
    ensures { Spells (W.contents out.old) (W.contents out.new) page.old page.new (flat_map naming.declared groups.now) result }
{
    for group in groups {
        put_declared(page, out, *group)?;
    }
    Ok(())
}

fn put_values<W: Write>(
    page: &mut Page,
    out: &mut W,
    group: Group,
    values: &Values,
    signals: &[Signal],
) -> Result<()>
    ensures { Spells (W.contents out.old) (W.contents out.new) page.old page.new (flat_map (telling.told group values.now) signals.now) result }
{
    for signal in signals {
        page.make_room(out)?;
        spell_told(page, group, values, *signal);
    }
    Ok(())
}

/// All values of a part of a machine.
fn put_dumped<W: Write>(page: &mut Page, out: &mut W, machine: &Machine, group: Group) -> Result<()>
    ensures { Spells (W.contents out.old) (W.contents out.new) page.old page.new (telling.dumped machine.now group) result }
{
    let values = values_of(machine, group);
    put_values(page, out, group, &values, group.signals())
}

/// The values of all these parts.
pub(crate) fn put_all_dumped<W: Write>(
    page: &mut Page,
    out: &mut W,
    machine: &Machine,
    groups: &[Group],
) -> Result<()>
    ensures { Spells (W.contents out.old) (W.contents out.new) page.old page.new (flat_map (telling.dumped machine.now) groups.now) result }
{
    for group in groups {
        put_dumped(page, out, machine, *group)?;
    }
    Ok(())
}

fn put_changed<W: Write>(
    page: &mut Page,
    out: &mut W,
    seen: &Seen,
    values: &Values,
    signals: &[Signal],
) -> Result<()>
    ensures { Spells (W.contents out.old) (W.contents out.new) page.old page.new (flat_map (telling.changed seen.now.group seen.now.values values.now) signals.now) result }
{
    for signal in signals {
        page.make_room(out)?;
        spell_changed(page, seen.group, &seen.values, values, *signal);
    }
    Ok(())
}

/// What has changed of a part of a machine since its values were kept.
fn put_changes<W: Write>(page: &mut Page, out: &mut W, machine: &Machine, seen: &Seen) -> Result<()>
    ensures { Spells (W.contents out.old) (W.contents out.new) page.old page.new (telling.changes_since machine.now seen.now) result }
{
    let values = values_of(machine, seen.group);
    put_changed(page, out, seen, &values, seen.group.signals())
}

/// What has changed of all these parts.
pub(crate) fn put_all_changes<W: Write>(
    page: &mut Page,
    out: &mut W,
    machine: &Machine,
    seen: &[Seen],
) -> Result<()>
    ensures { Spells (W.contents out.old) (W.contents out.new) page.old page.new (flat_map (telling.changes_since machine.now) seen.now) result }
{
    for part in seen {
        put_changes(page, out, machine, part)?;
    }
    Ok(())
}
