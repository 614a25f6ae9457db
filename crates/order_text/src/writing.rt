//! Writing the text on an order.
ghost use Rattle.std.specs.Prelude.{◌≡◌, [], ◌++◌, codes};
ghost use Rattle.std.specs.List.{flat_map};
ghost use Rattle.order_text.specs.Text as text;
ghost use Rattle.text_fields.specs.Pages.{Spells};
ghost use Rattle.text_fields.specs.Writing.{Writes};

use crate::line::Line;
use crate::spelling::{spell_fields, spell_remark};
use elf_symbols::Symbols;
use std::io::{Result, Write};
use text_fields::Page;

/// Writes lines, with the names that addresses have. A write that takes no byte is a writer's fault.
pub fn write_lines<W: Write>(names: &Symbols, lines: &[Line], out: &mut W) -> Result<()>
    ensures { Writes (W.contents out.old) (W.contents out.new) (text.text names.now lines.now) result }
{
    let mut page = Page::new();
    page.text(b"rvtl-order 1\n");
    put_lines(&mut page, out, names, lines)?;
    page.hand_on(out)
}

fn put_lines<W: Write>(page: &mut Page, out: &mut W, names: &Symbols, lines: &[Line]) -> Result<()>
    ensures { Spells (W.contents out.old) (W.contents out.new) page.old page.new (flat_map (text.line names.now) lines.now) result }
{
    for line in lines {
        put_line(page, out, names, line)?;
    }
    Ok(())
}

fn put_line<W: Write>(page: &mut Page, out: &mut W, names: &Symbols, line: &Line) -> Result<()>
    ensures { Spells (W.contents out.old) (W.contents out.new) page.old page.new (text.line names.now line.now) result }
{
    page.make_room(out)?;
    spell_fields(page, line);
    page.make_room(out)?;
    spell_remark(page, names, line);
    Ok(())
}
