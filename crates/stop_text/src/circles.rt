//! Harts that go round, told in words.

use crate::places::put_place;
use assembly::spell_assembly;
use elf_loader::Image;
use elf_symbols::Symbols;
use rv32_decode::decode;
use schedules::{Circle, Reading};
use std::fmt::{self, Display, Formatter};
use std::str;
use text_fields::Page;

/// The harts that go round, and what they wait for, by the names that the image's file has.
#[derive(Clone, Copy)]
pub struct CircleNote<'a> {
    pub circles: &'a [Circle],
    pub image: &'a Image,
    pub names: &'a Symbols,
}

impl CircleNote<'_> {
    fn put_circle<W: fmt::Write>(&self, circle: &Circle, f: &mut Formatter<W>) -> fmt::Result {
        write!(f, "hart {} goes round", circle.hart)?;
        if circle.readings.is_empty() {
            f.write_str(" without a load at ")?;
            return put_place(self.names, circle.pc, f);
        }
        f.write_str(" as long as no other hart goes on")?;
        let mut between = ": ";
        for reading in &circle.readings {
            f.write_str(between)?;
            self.put_reading(reading, f)?;
            between = ", ";
        }
        Ok(())
    }

    fn put_reading<W: fmt::Write>(&self, reading: &Reading, f: &mut Formatter<W>) -> fmt::Result {
        put_instruction(self.image, reading.pc, f)?;
        f.write_str(" at ")?;
        put_place(self.names, reading.pc, f)?;
        write!(f, " reads 0x{:08x} at ", reading.value)?;
        put_place(self.names, reading.address, f)?;
        match reading.waits {
            Some(hart) => write!(f, " (a store of hart {hart} there waits)"),
            None => Ok(()),
        }
    }
}

impl Display for CircleNote<'_> {
    /// As in ``hart 0 goes round as long as no other hart goes on: `lw a5, 0(a4)` at 0x80000010 <wait> reads 0x00000000 at
    /// 0x80000100 <ready>``, a semicolon between two harts.
    fn fmt<W: fmt::Write>(&self, f: &mut Formatter<W>) -> fmt::Result {
        let mut between = "";
        for circle in self.circles {
            f.write_str(between)?;
            self.put_circle(circle, f)?;
            between = "; ";
        }
        Ok(())
    }
}

fn put_instruction<W: fmt::Write>(image: &Image, pc: u32, f: &mut Formatter<W>) -> fmt::Result {
    if !hart::can_fetch(image, pc) {
        return Ok(());
    }
    let Some(instr) = decode(image.word(pc)) else {
        return Ok(());
    };
    let mut page = Page::new();
    spell_assembly(&mut page, &instr, Some(pc));
    match str::from_utf8(page.as_slice()) {
        Ok(text) => write!(f, "`{text}`"),
        Err(_) => Err(fmt::Error),
    }
}
