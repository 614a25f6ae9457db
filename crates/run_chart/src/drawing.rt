//! The picture of a run.
ghost use Rattle.std.specs.Prelude.{◌≡◌, ◌<◌, ◌≤◌, ◌++◌, IfOk, OnOk, length};
ghost use Rattle.std.specs.List.{flat_map};
ghost use Rattle.run_chart.specs.Bars as bars;
ghost use Rattle.run_chart.specs.Picture as picture;
ghost use Rattle.run_chart.specs.Picture.{IsPicture};

use crate::arrows::put_posts;
use crate::bars::{Place, bottom, put_bars};
use crate::markup::Markup;
use crate::naming::{Manner, Naming, spell_address, spell_line};
use crate::plan::Plan;
use crate::rows::{Noted, Posted, Row, Story};
use crate::shapes::{Told, put_column, put_label, put_lanes, put_note, put_site};
use crate::sheet::{close, open};
use crate::texts::{site_of, spell_description, spell_note, spell_row, spell_title};
use elf_symbols::Symbols;
use std::alloc::{AllocError, Global};
use text_fields::Page;

/// Where the instruction lies of which a note tells, if it tells of one.
#[tactic(auto, unfolding(crate::specs::Picture::site))]
fn put_site_of(
    svg: &mut Markup,
    names: &Naming<'_>,
    line: u16,
    site: Option<u32>,
) -> Result<(), AllocError>
    ensures { OnOk result (svg.new ≡ svg.old ++ picture.site names.now.symbols.now line site) }
{
    let Some(pc) = site else {
        return Ok(());
    };
    let mut short = Page::new();
    spell_address(&mut short, names, Manner::Short, pc);
    let mut whole = Page::new();
    spell_address(&mut whole, names, Manner::Whole, pc);
    let text = Told {
        short: short.as_slice(),
        whole: whole.as_slice(),
    };
    put_site(svg, line as u64, text)
}

fn put_note_text(
    svg: &mut Markup,
    plan: &Plan,
    names: &Naming<'_>,
    hart: u8,
    noted: &Noted,
) -> Result<(), AllocError>
    ensures { OnOk result (svg.new ≡ svg.old ++ picture.note_text plan.now names.now.symbols.now hart noted.now) }
{
    let mut short = Page::new();
    spell_note(&mut short, names, Manner::Short, &noted.note);
    let mut whole = Page::new();
    spell_note(&mut whole, names, Manner::Whole, &noted.note);
    let text = Told {
        short: short.as_slice(),
        whole: whole.as_slice(),
    };
    put_note(svg, plan, noted.line as u64, hart, text)
}

/// What the core did, and at the left side where the instruction lies.
#[tactic(auto, unfolding(crate::specs::Picture::noted))]
fn put_noted(
    svg: &mut Markup,
    plan: &Plan,
    names: &Naming<'_>,
    hart: u8,
    noted: &Noted,
) -> Result<(), AllocError>
    ensures { OnOk result (svg.new ≡ svg.old ++ picture.noted plan.now names.now.symbols.now hart noted.now) }
{
    put_note_text(svg, plan, names, hart, noted)?;
    put_site_of(svg, names, noted.line, site_of(&noted.note))
}

fn put_notes(
    svg: &mut Markup,
    plan: &Plan,
    names: &Naming<'_>,
    hart: u8,
    notes: &[Noted],
) -> Result<(), AllocError>
    ensures { OnOk result (svg.new ≡ svg.old ++ flat_map (picture.noted plan.now names.now.symbols.now hart) notes.now) }
{
    for noted in notes {
        put_noted(svg, plan, names, hart, noted)?;
    }
    Ok(())
}

/// The event at the left side.
fn put_event(svg: &mut Markup, plan: &Plan, names: &Naming<'_>, row: &Row) -> Result<(), AllocError>
    ensures { OnOk result (svg.new ≡ svg.old ++ picture.event_text plan.now names.now.symbols.now names.now.size row.now) }
{
    let mut short = Page::new();
    spell_row(&mut short, names, Manner::Short, row);
    let mut whole = Page::new();
    spell_row(&mut whole, names, Manner::Whole, row);
    let text = Told {
        short: short.as_slice(),
        whole: whole.as_slice(),
    };
    put_label(svg, plan, row.line as u64, text)
}

/// The event, and what the core did.
#[tactic(auto, unfolding(crate::specs::Picture::row))]
fn put_row(svg: &mut Markup, plan: &Plan, names: &Naming<'_>, row: &Row) -> Result<(), AllocError>
    ensures { OnOk result (svg.new ≡ svg.old ++ picture.row plan.now names.now.symbols.now names.now.size row.now) }
{
    put_event(svg, plan, names, row)?;
    put_notes(svg, plan, names, row.hart, row.notes.as_slice())
}

fn put_rows(
    svg: &mut Markup,
    plan: &Plan,
    names: &Naming<'_>,
    rows: &[Row],
) -> Result<(), AllocError>
    ensures { OnOk result (svg.new ≡ svg.old ++ flat_map (picture.row plan.now names.now.symbols.now names.now.size) rows.now) }
{
    for row in rows {
        put_row(svg, plan, names, row)?;
    }
    Ok(())
}

/// The name of a line of memory above its bars.
fn put_head(
    svg: &mut Markup,
    plan: &Plan,
    names: &Naming<'_>,
    place: Place,
) -> Result<(), AllocError>
    requires { place.column ≤ 1048576 }
    ensures { OnOk result (svg.new ≡ svg.old ++ picture.head plan.now names.now.symbols.now names.now.size place) }
{
    let mut short = Page::new();
    spell_line(&mut short, names, Manner::Short, place.line);
    let mut whole = Page::new();
    spell_line(&mut whole, names, Manner::Whole, place.line);
    let text = Told {
        short: short.as_slice(),
        whole: whole.as_slice(),
    };
    put_column(svg, plan, place.hart, place.column, text)
}

/// The name, and the bars.
#[tactic(auto, unfolding(crate::specs::Picture::place))]
fn put_place(
    svg: &mut Markup,
    plan: &Plan,
    names: &Naming<'_>,
    place: Place,
    rows: &[Row],
    end: u16,
) -> Result<(), AllocError>
    requires { place.column ≤ 1048576 }
    ensures { OnOk result (svg.new ≡ svg.old ++ picture.place plan.now names.now.symbols.now names.now.size place end rows.now) }
{
    put_head(svg, plan, names, place)?;
    put_bars(svg, plan, place, rows, end)
}

/// What a hart's cache holds of each of these lines of memory.
fn put_columns(
    svg: &mut Markup,
    plan: &Plan,
    names: &Naming<'_>,
    hart: u8,
    columns: &[u32],
    rows: &[Row],
    end: u16,
) -> Result<(), AllocError>
    requires { length columns.now ≤ 1048576 }
    ensures { OnOk result (svg.new ≡ svg.old ++ picture.columns plan.now names.now.symbols.now names.now.size hart end rows.now 0 columns.now) }
{
    let mut column = 0;
    let mut rest = columns;
    while let [line, tail @ ..] = rest {
        let place = Place {
            hart,
            line: *line,
            column,
        };
        put_place(svg, plan, names, place, rows, end)?;
        column += 1;
        rest = tail;
    }
    Ok(())
}

/// A hart's lanes, and what its cache holds.
#[tactic(auto, unfolding(crate::specs::Picture::hart))]
fn put_hart(
    svg: &mut Markup,
    plan: &Plan,
    names: &Naming<'_>,
    story: &Story,
    hart: u8,
) -> Result<(), AllocError>
    requires { hart < 8 }
    ensures { OnOk result (svg.new ≡ svg.old ++ picture.hart plan.now names.now.symbols.now names.now.size story.now hart) }
{
    put_lanes(svg, plan, hart)?;
    let rows = story.rows.as_slice();
    put_columns(
        svg,
        plan,
        names,
        hart,
        story.columns.as_slice(),
        rows,
        bottom(rows),
    )
}

fn put_harts(
    svg: &mut Markup,
    plan: &Plan,
    names: &Naming<'_>,
    story: &Story,
) -> Result<(), AllocError>
    ensures { OnOk result (svg.new ≡ svg.old ++ picture.harts plan.now names.now.symbols.now names.now.size story.now story.now.harts) }
{
    for hart in 0..story.harts {
        put_hart(svg, plan, names, story, hart)?;
    }
    Ok(())
}

/// The messages of all rows, in their order.
fn posts_of(alloc: Global, rows: &[Row]) -> Result<Vec<Posted>, AllocError>
    ensures { IfOk result (λ posts. posts.items ≡ picture.posts rows.now) }
{
    let mut posts = Vec::new(alloc);
    for row in rows {
        posts.extend_from_slice(row.log.as_slice())?;
    }
    Ok(posts)
}

fn plan_of(story: &Story) -> Plan
    ensures harts { result.harts ≡ story.now.harts }
    ensures columns { result.columns ≡ length story.now.columns.items }
    ensures lines { result.lines ≡ bars.bottom 0 story.now.rows.items }
{
    Plan {
        harts: story.harts as u64,
        columns: story.columns.len() as u64,
        lines: bottom(story.rows.as_slice()) as u64,
    }
}

/// The sheet with its title and its description.
#[tactic(auto, unfolding(crate::specs::Picture::opened))]
fn opened(alloc: Global, story: &Story, plan: &Plan, style: &[u8]) -> Result<Markup, AllocError>
    ensures { IfOk result (λ svg. svg ≡ picture.opened plan.now story.now style.now) }
{
    let mut title = Page::new();
    spell_title(&mut title, story.harts);
    let mut description = Page::new();
    spell_description(&mut description, story);
    open(alloc, plan, title.as_slice(), description.as_slice(), style)
}

/// The picture of a run, as an SVG document: a lane for each hart's core, one for its cache and one for the
/// manager, a row for each event, bars for what the caches hold, and an arrow for each message that was
/// sent, to where it was taken, or dashed to the bottom; with these names for addresses, in this style
/// (`run_chart::STYLE`).
pub fn draw(
    alloc: Global,
    story: &Story,
    symbols: &Symbols,
    style: &[u8],
) -> Result<Vec<u8>, AllocError>
    ensures { IfOk result (λ bytes. IsPicture symbols.now story.now style.now bytes.items) }
{
    let names = Naming {
        symbols,
        size: story.size,
    };
    let plan = plan_of(story);
    let mut svg = opened(alloc, story, &plan, style)?;
    put_harts(&mut svg, &plan, &names, story)?;
    put_rows(&mut svg, &plan, &names, story.rows.as_slice())?;
    let posts = posts_of(alloc, story.rows.as_slice())?;
    put_posts(&mut svg, &plan, &names, posts.as_slice())?;
    close(svg)
}
