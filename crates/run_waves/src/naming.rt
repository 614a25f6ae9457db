//! Spelling signals' identifiers and declarations.
ghost use Rattle.std.specs.Prelude.{◌≡◌, ◌+◌, ◌≤◌, ◌++◌, length};
ghost use Rattle.run_waves.specs.Groups as groups;
ghost use Rattle.run_waves.specs.Signals as signals;
ghost use Rattle.run_waves.specs.Naming as naming;
ghost use Rattle.text_fields.specs.Pages.{HasLineRoom, size};

use crate::groups::Group;
use crate::signals::{Signal, Width};
use text_fields::Page;
use tl_types::Channel;

fn channel_letter(channel: Channel) -> u8
    ensures { result ≡ groups.channel_letter channel }
{
    match channel {
        Channel::A => b'A',
        Channel::B => b'B',
        Channel::C => b'C',
        Channel::D => b'D',
        Channel::E => b'E',
    }
}

/// What an identifier has behind its signal's letter.
fn spell_place(page: &mut Page, group: Group)
    requires { length page.old + 30 ≤ size }
    ensures value { page.new ≡ page.old ++ groups.place group }
    ensures len { length page.new ≤ length page.old + 30 }
{
    match group {
        Group::Hart { hart } => page.decimal(hart as u64),
        Group::Queue { hart, channel } => page.number(hart as u64, channel_letter(channel)),
        Group::Copy { hart, line } | Group::Record { hart, line } => {
            page.decimal(hart as u64);
            page.word(line);
        }
        Group::Transaction { line } => page.word(line),
    }
}

/// A signal's identifier.
pub(crate) fn spell_identifier(page: &mut Page, group: Group, signal: Signal)
    requires { length page.old + 31 ≤ size }
    ensures value { page.new ≡ page.old ++ naming.identifier group signal }
    ensures len { length page.new ≤ length page.old + 31 }
{
    page.text(&[signal.letter()]);
    spell_place(page, group);
}

/// How a declaration begins.
fn width_text(width: Width) -> &'static [u8]
    ensures value { result.now ≡ signals.width_text width }
    ensures len { length result.now ≤ 12 }
{
    match width {
        Width::Bit => b"$var reg 1 ",
        Width::Byte => b"$var reg 8 ",
        Width::Word => b"$var reg 32 ",
    }
}

/// How it ends.
fn range(width: Width) -> &'static [u8]
    ensures value { result.now ≡ signals.range width }
    ensures len { length result.now ≤ 14 }
{
    match width {
        Width::Bit => b" $end\n",
        Width::Byte => b" [7:0] $end\n",
        Width::Word => b" [31:0] $end\n",
    }
}

/// A signal's declaration.
pub(crate) fn spell_declaration(page: &mut Page, group: Group, signal: Signal)
    requires { HasLineRoom page.old }
    ensures { page.new ≡ page.old ++ naming.declaration group signal }
{
    page.text(width_text(signal.width()));
    spell_identifier(page, group, signal);
    page.text(b" ");
    page.text(signal.name());
    page.text(range(signal.width()));
}

fn spell_hart_module(page: &mut Page, hart: u8)
    requires { length page.old + 50 ≤ size }
    ensures value { page.new ≡ page.old ++ groups.hart_module hart }
    ensures len { length page.new ≤ length page.old + 50 }
{
    page.text(b"$scope module hart");
    page.decimal(hart as u64);
    page.text(b" $end\n");
}

fn spell_channel_module(page: &mut Page, channel: Channel)
    requires { length page.old + 22 ≤ size }
    ensures value { page.new ≡ page.old ++ groups.channel_module channel }
    ensures len { length page.new ≤ length page.old + 22 }
{
    page.text(b"$scope module ");
    page.text(&[channel_letter(channel)]);
    page.text(b" $end\n");
}

fn spell_line_module(page: &mut Page, line: u32)
    requires { length page.old + 40 ≤ size }
    ensures value { page.new ≡ page.old ++ groups.line_module line }
    ensures len { length page.new ≤ length page.old + 40 }
{
    page.text(b"$scope module line_");
    page.word(line);
    page.text(b" $end\n");
}

/// The beginnings of the modules in which a part's signals stand.
pub(crate) fn spell_opened(page: &mut Page, group: Group)
    requires { HasLineRoom page.old }
    ensures { page.new ≡ page.old ++ groups.opened group }
{
    match group {
        Group::Hart { hart } => spell_hart_module(page, hart),
        Group::Queue { hart, channel } => {
            spell_hart_module(page, hart);
            spell_channel_module(page, channel);
        }
        Group::Copy { hart, line } | Group::Record { hart, line } => {
            spell_line_module(page, line);
            spell_hart_module(page, hart);
        }
        Group::Transaction { line } => spell_line_module(page, line),
    }
}

/// Their ends.
pub(crate) fn spell_closed(page: &mut Page, group: Group)
    requires { HasLineRoom page.old }
    ensures { page.new ≡ page.old ++ groups.closed group }
{
    match group {
        Group::Hart { .. } | Group::Transaction { .. } => page.text(b"$upscope $end\n"),
        Group::Queue { .. } | Group::Copy { .. } | Group::Record { .. } => {
            page.text(b"$upscope $end\n$upscope $end\n");
        }
    }
}
