//! Where a column's labels stand.
ghost use Rattle.std.specs.Prelude.{◌≡◌, ◌≤◌, ◌^◌, ◌+◌, ◌*◌, length, IfSome};
ghost use Rattle.litmus_image.specs.Labels as labels;

use crate::part::Line;
use assembly_reading::Statement;

/// How many instructions a line makes.
pub(crate) fn width(line: &Line) -> u32
    ensures value { result ≡ labels.width line.now }
    ensures most { result ≤ 2 }
{
    match line {
        Line::Label(_) | Line::Code(Statement::Nothing) => 0,
        Line::Code(Statement::Two(_, _)) => 2,
        Line::Code(_) => 1,
    }
}

fn is_label(line: &Line, name: &[u8]) -> bool
    ensures { result ≡ labels.is_label line.now name.now }
{
    match line {
        Line::Label(label) => label.as_slice() == name,
        Line::Code(_) => false,
    }
}

/// How many instructions stand before the first label of this name.
pub(crate) fn place_of(lines: &[Line], name: &[u8]) -> Option<u32>
    requires { length lines.now ≤ 2 ^ 20 }
    ensures { result ≡ labels.place_from 0 lines.now name.now }
{
    let mut place = 0;
    for line in lines {
        if is_label(line, name) {
            return Some(place);
        }
        place += width(line);
    }
    None
}
