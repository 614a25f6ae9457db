//! What a chart is made of: lanes, labels, notes, bars and arrows.
ghost use Rattle.std.specs.Prelude.{◌≡◌, ◌<◌, ◌≤◌, ◌^◌, ◌++◌, OnOk};
ghost use Rattle.std.specs.Option.{ForSome};
ghost use Rattle.run_chart.specs.Fitting.{fitted};
ghost use Rattle.run_chart.specs.Markup.{escaped};
ghost use Rattle.run_chart.specs.Shapes as shape;

use crate::fitting::fitted;
use crate::markup::{Attribute, Markup};
use crate::plan::{ANSWER_ROOM, COLUMN_ROOM, LABEL_ROOM, Plan, SITE_ROOM};
use std::alloc::AllocError;
use tl_types::Channel;

/// What a cache holds of a line. Each has its own colour and pattern.
#[derive(Clone, Copy, Debug)]
pub enum Hold {
    Nothing,
    Branch,
    /// Trunk, and memory agrees with the copy.
    Trunk,
    /// Trunk, and memory lacks what was written.
    Dirty,
}

impl Hold {
    fn class(self) -> &'static [u8]
        ensures { result.now ≡ shape.hold_class self }
    {
        match self {
            Hold::Nothing => b"nothing",
            Hold::Branch => b"branch",
            Hold::Trunk => b"trunk",
            Hold::Dirty => b"dirty",
        }
    }
}

fn channel_class(channel: Channel) -> &'static [u8]
    ensures { result.now ≡ shape.channel_class channel }
{
    match channel {
        Channel::A => b"a",
        Channel::B => b"b",
        Channel::C => b"c",
        Channel::D => b"d",
        Channel::E => b"e",
    }
}

/// The class of a message that was never taken.
fn open_class(channel: Channel) -> &'static [u8]
    ensures { result.now ≡ shape.open_class channel }
{
    match channel {
        Channel::A => b"a open",
        Channel::B => b"b open",
        Channel::C => b"c open",
        Channel::D => b"d open",
        Channel::E => b"e open",
    }
}

/// A message between a hart's cache and the manager: on which line it was sent, and on which it was taken,
/// if it was.
#[derive(Clone, Copy)]
pub struct Message {
    pub channel: Channel,
    pub hart: u8,
    pub sent: u64,
    pub taken: Option<u64>,
}

impl Message {
    /// Whether a hart's cache sends it: so it is on A, C and E.
    fn is_from_cache(&self) -> bool
        ensures { result ≡ shape.is_from_cache self.now.channel }
    {
        match self.channel {
            Channel::A | Channel::C | Channel::E => true,
            Channel::B | Channel::D => false,
        }
    }
}

pub(crate) fn put_line(
    svg: &mut Markup,
    class: &[u8],
    from: (u64, u64),
    to: (u64, u64),
) -> Result<(), AllocError>
    ensures { OnOk result (svg.new ≡ svg.old ++ shape.line class.now from to) }
{
    svg.element(
        b"line",
        &[
            Attribute::text(b"class", class),
            Attribute::number(b"x1", from.0),
            Attribute::number(b"y1", from.1),
            Attribute::number(b"x2", to.0),
            Attribute::number(b"y2", to.1),
        ],
        b"",
    )
}

pub(crate) fn put_text(
    svg: &mut Markup,
    class: &[u8],
    at: (u64, u64),
    text: &[u8],
) -> Result<(), AllocError>
    ensures { OnOk result (svg.new ≡ svg.old ++ shape.text class.now at text.now) }
{
    svg.element(
        b"text",
        &[
            Attribute::text(b"class", class),
            Attribute::number(b"x", at.0),
            Attribute::number(b"y", at.1),
        ],
        text,
    )
}

/// A text as there is mostly room for it, and whole.
#[derive(Clone, Copy)]
pub(crate) struct Told<'a> {
    pub short: &'a [u8],
    pub whole: &'a [u8],
}

/// What a browser tells of a text, under the pointer.
fn put_title(svg: &mut Markup, whole: &[u8]) -> Result<(), AllocError>
    ensures { OnOk result (svg.new ≡ svg.old ++ shape.title whole.now) }
{
    svg.open(b"title", &[])?;
    svg.text(whole)?;
    svg.verbatim(b"</title>")
}

/// A text in two pieces.
fn put_pieces(svg: &mut Markup, front: &[u8], end: &[u8]) -> Result<(), AllocError>
    ensures { OnOk result (svg.new ≡ svg.old ++ escaped (front.now ++ end.now)) }
{
    svg.text(front)?;
    svg.text(end)
}

/// A text, cut where there is no room for it, and the whole one.
fn put_titled(
    svg: &mut Markup,
    class: &[u8],
    at: (u64, u64),
    room: usize,
    text: Told<'_>,
) -> Result<(), AllocError>
    requires { 3 ≤ room }
    ensures { OnOk result (svg.new ≡ svg.old ++ shape.titled class.now at (fitted room text.entry.short.now) text.entry.whole.now) }
{
    svg.open(
        b"text",
        &[
            Attribute::text(b"class", class),
            Attribute::number(b"x", at.0),
            Attribute::number(b"y", at.1),
        ],
    )?;
    let (front, end) = fitted(text.short, room);
    put_pieces(svg, front, end)?;
    put_title(svg, text.whole)?;
    svg.close(b"text")
}

/// A text that has room for so many bytes; where that doesn't tell all, with a title.
fn put_told(
    svg: &mut Markup,
    class: &[u8],
    at: (u64, u64),
    room: usize,
    text: Told<'_>,
) -> Result<(), AllocError>
    requires { 3 ≤ room }
    ensures { OnOk result (svg.new ≡ svg.old ++ shape.told class.now at room text.entry.short.now text.entry.whole.now) }
{
    if text.short.len() <= room && text.short == text.whole {
        put_text(svg, class, at, text.short)
    } else {
        put_titled(svg, class, at, room, text)
    }
}

fn put_corners(
    svg: &mut Markup,
    name: &[u8],
    class: &[u8],
    corners: &[u64],
) -> Result<(), AllocError>
    ensures { OnOk result (svg.new ≡ svg.old ++ shape.corners name.now class.now corners.now) }
{
    svg.element(
        name,
        &[
            Attribute::text(b"class", class),
            Attribute::numbers(b"points", corners),
        ],
        b"",
    )
}

fn put_core(svg: &mut Markup, x: u64, bottom: u64, digit: u8) -> Result<(), AllocError>
    ensures { OnOk result (svg.new ≡ svg.old ++ shape.core_lane x bottom digit) }
{
    put_text(
        svg,
        b"head",
        (x, 44),
        &[b'c', b'o', b'r', b'e', b' ', digit],
    )?;
    put_line(svg, b"lane", (x, 50), (x, bottom))
}

fn put_cache(svg: &mut Markup, x: u64, side: u64, bottom: u64, digit: u8) -> Result<(), AllocError>
    ensures { OnOk result (svg.new ≡ svg.old ++ shape.cache_lane x side bottom digit) }
{
    put_text(
        svg,
        b"head",
        (x, 44),
        &[b'c', b'a', b'c', b'h', b'e', b' ', digit],
    )?;
    put_line(svg, b"lane", (side, 50), (side, bottom))
}

/// The lanes of a hart's core and its cache, with their names.
pub fn put_lanes(svg: &mut Markup, plan: &Plan, hart: u8) -> Result<(), AllocError>
    requires { hart < 8 }
    ensures { OnOk result (svg.new ≡ svg.old ++ shape.lanes plan.now hart) }
{
    let digit = b'0' + hart;
    let hart = hart as u64;
    let bottom = plan.bottom();
    put_core(svg, plan.core(hart), bottom, digit)?;
    put_cache(svg, plan.cache(hart), plan.cache_side(hart), bottom, digit)
}

/// The name of a line of memory above its bar.
pub(crate) fn put_column(
    svg: &mut Markup,
    plan: &Plan,
    hart: u8,
    column: u64,
    text: Told<'_>,
) -> Result<(), AllocError>
    requires { column ≤ 1048576 }
    ensures { OnOk result (svg.new ≡ svg.old ++ shape.column plan.now hart column text.entry.short.now text.entry.whole.now) }
{
    let place = (plan.bar(hart as u64, column), 54);
    put_told(svg, b"address", place, COLUMN_ROOM, text)
}

/// The row of an event begins on this line.
pub(crate) fn put_label(
    svg: &mut Markup,
    plan: &Plan,
    line: u64,
    text: Told<'_>,
) -> Result<(), AllocError>
    requires { line ≤ 1048576 }
    ensures { OnOk result (svg.new ≡ svg.old ++ shape.label plan.now line text.entry.short.now text.entry.whole.now) }
{
    let top = Plan::line_top(line);
    put_line(svg, b"rule", (0, top), (plan.width(), top))?;
    put_told(svg, b"label", (6, Plan::baseline(line)), LABEL_ROOM, text)
}

/// What a hart's core did.
pub(crate) fn put_note(
    svg: &mut Markup,
    plan: &Plan,
    line: u64,
    hart: u8,
    text: Told<'_>,
) -> Result<(), AllocError>
    requires { line ≤ 1048576 }
    ensures { OnOk result (svg.new ≡ svg.old ++ shape.note plan.now line hart text.entry.short.now text.entry.whole.now) }
{
    let place = (plan.core(hart as u64) + 5, Plan::baseline(line));
    put_told(svg, b"note", place, plan.note_room(), text)
}

/// Where the instruction lies that a core retired or performed.
pub(crate) fn put_site(svg: &mut Markup, line: u64, text: Told<'_>) -> Result<(), AllocError>
    requires { line ≤ 1048576 }
    ensures { OnOk result (svg.new ≡ svg.old ++ shape.site line text.entry.short.now text.entry.whole.now) }
{
    put_told(svg, b"site", (280, Plan::baseline(line)), SITE_ROOM, text)
}

/// What a hart's cache holds of a line of memory, from one line to another.
pub fn put_bar(
    svg: &mut Markup,
    plan: &Plan,
    hart: u8,
    column: u64,
    lines: (u64, u64),
    hold: Hold,
) -> Result<(), AllocError>
    requires column { column ≤ 1048576 }
    requires from { lines.0 ≤ 1048576 }
    requires to { lines.1 ≤ 1048576 }
    ensures { OnOk result (svg.new ≡ svg.old ++ shape.bar plan.now hart column lines hold) }
{
    let x = plan.bar(hart as u64, column);
    let from = (x, Plan::line_top(lines.0));
    let to = (x, Plan::line_top(lines.1));
    put_line(svg, hold.class(), from, to)
}

/// An arrow that points to the right, by the wires between these two places.
fn put_right(
    svg: &mut Markup,
    class: &[u8],
    from: (u64, u64),
    wires: (u64, u64),
    to: (u64, u64),
) -> Result<(), AllocError>
    requires x { (7 ≤ to.0) × (to.0 < 2 ^ 40) }
    requires y { (4 ≤ to.1) × (to.1 < 2 ^ 40) }
    ensures { OnOk result (svg.new ≡ svg.old ++ shape.right_arrow class.now from wires to) }
{
    let (x, y) = to;
    let bends = [from.0, from.1, wires.0, from.1, wires.1, y, x, y];
    put_corners(svg, b"polyline", class, &bends)?;
    put_corners(svg, b"polygon", class, &[x, y, x - 7, y - 4, x - 7, y + 4])
}

/// An arrow that points to the left, likewise.
fn put_left(
    svg: &mut Markup,
    class: &[u8],
    from: (u64, u64),
    wires: (u64, u64),
    to: (u64, u64),
) -> Result<(), AllocError>
    requires x { to.0 < 2 ^ 40 }
    requires y { (4 ≤ to.1) × (to.1 < 2 ^ 40) }
    ensures { OnOk result (svg.new ≡ svg.old ++ shape.left_arrow class.now from wires to) }
{
    let (x, y) = to;
    let bends = [from.0, from.1, wires.0, from.1, wires.1, y, x, y];
    put_corners(svg, b"polyline", class, &bends)?;
    put_corners(svg, b"polygon", class, &[x, y, x + 7, y - 4, x + 7, y + 4])
}

/// What a cache sends.
fn put_upward(svg: &mut Markup, plan: &Plan, message: &Message) -> Result<(), AllocError>
    requires sent { message.now.sent ≤ 1048576 }
    requires taken { ForSome message.now.taken (λ t. t ≤ 1048576) }
    ensures { OnOk result (svg.new ≡ svg.old ++ shape.upward plan.now message.now) }
{
    let hart = message.hart as u64;
    let from = (plan.cache_side(hart), Plan::wire(message.sent));
    let wires = (plan.wires(hart), plan.wires_end(hart));
    match message.taken {
        Some(line) => {
            let to = (plan.manager(), Plan::wire(line));
            put_right(svg, channel_class(message.channel), from, wires, to)
        }
        None => {
            let bends = [from.0, from.1, wires.0, from.1, wires.1, plan.bottom()];
            put_corners(svg, b"polyline", open_class(message.channel), &bends)
        }
    }
}

/// What the manager sends.
fn put_downward(svg: &mut Markup, plan: &Plan, message: &Message) -> Result<(), AllocError>
    requires sent { message.now.sent ≤ 1048576 }
    requires taken { ForSome message.now.taken (λ t. t ≤ 1048576) }
    ensures { OnOk result (svg.new ≡ svg.old ++ shape.downward plan.now message.now) }
{
    let hart = message.hart as u64;
    let from = (plan.manager(), Plan::wire(message.sent));
    let wires = (plan.wires_end(hart), plan.wires(hart));
    match message.taken {
        Some(line) => {
            let to = (plan.cache_side(hart), Plan::wire(line));
            put_left(svg, channel_class(message.channel), from, wires, to)
        }
        None => {
            let bends = [from.0, from.1, wires.0, from.1, wires.1, plan.bottom()];
            put_corners(svg, b"polyline", open_class(message.channel), &bends)
        }
    }
}

/// A message's arrow, from where it was sent to where it was taken, dashed to the bottom where it never
/// was; and its label beside the arrow's start.
pub(crate) fn put_arrow(
    svg: &mut Markup,
    plan: &Plan,
    message: &Message,
    label: Told<'_>,
) -> Result<(), AllocError>
    requires sent { message.now.sent ≤ 1048576 }
    requires taken { ForSome message.now.taken (λ t. t ≤ 1048576) }
    ensures { OnOk result (svg.new ≡ svg.old ++ shape.arrow plan.now message.now label.entry.short.now label.entry.whole.now) }
{
    let y = Plan::baseline(message.sent);
    let class = channel_class(message.channel);
    if message.is_from_cache() {
        put_upward(svg, plan, message)?;
        let x = plan.cache_side(message.hart as u64) + 5;
        put_told(svg, class, (x, y), plan.message_room(), label)
    } else {
        put_downward(svg, plan, message)?;
        let x = plan.core(plan.harts) + 5;
        put_told(svg, class, (x, y), ANSWER_ROOM, label)
    }
}
