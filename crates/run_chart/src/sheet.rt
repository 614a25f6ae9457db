//! The sheet that a chart is drawn on.
ghost use Rattle.std.specs.Prelude.{◌≡◌, ◌<◌, ◌++◌, ◌∷◌, [], IfOk, OnOk, codes, List, ℕ};
ghost use Rattle.run_chart.specs.Sheet as sheet;

use crate::markup::{Attribute, Markup};
use crate::plan::Plan;
use crate::shapes::{put_line, put_text};
use std::alloc::{AllocError, Global};

/// The colours and patterns, on white and on dark ground. Nothing is loaded from elsewhere.
pub const STYLE: &[u8] = b"
svg{--ground:#fff;--ink:#1b1f24;--faint:#6e7781;--rule:#e4e8ec;--hold:#57606a;--branch:#3d8bd4;--trunk:#2da44e;--dirty:#cf222e;
--a:#0b62c4;--b:#b35900;--c:#8250df;--d:#1a7f37;--e:#bf3989}
@media (prefers-color-scheme:dark){svg{--ground:#0d1117;--ink:#e6edf3;--faint:#9198a1;--rule:#21262d;--hold:#9198a1;--branch:#58a6ff;
--trunk:#3fb950;--dirty:#ff7b72;--a:#6cb6ff;--b:#f0a04b;--c:#c297ff;--d:#57d364;--e:#ff7eb6}}
text{font:10px 'DejaVu Sans Mono',Menlo,Consolas,monospace;fill:var(--ink);white-space:pre}
text.head{font-weight:bold}
text.label,text.address,text.site{fill:var(--faint)}
text.site{text-anchor:end}
text.address{writing-mode:vertical-rl}
rect.ground{fill:var(--ground)}
line.lane{stroke:var(--faint)}
line.rule{stroke:var(--rule)}
line.nothing{stroke:var(--hold);stroke-dasharray:1 4}
line.branch{stroke:var(--branch);stroke-width:7;stroke-dasharray:2 2}
line.trunk{stroke:var(--trunk);stroke-width:7}
line.dirty{stroke:var(--dirty);stroke-width:7;stroke-dasharray:8 1 2 1}
polyline{fill:none;stroke-width:1.3}
polyline.open{stroke-dasharray:4 3}
polyline.a,line.a{stroke:var(--a)}
polyline.b,line.b{stroke:var(--b)}
polyline.c,line.c{stroke:var(--c)}
polyline.d,line.d{stroke:var(--d)}
polyline.e,line.e{stroke:var(--e)}
polygon.a,text.a{fill:var(--a)}
polygon.b,text.b{fill:var(--b)}
polygon.c,text.c{fill:var(--c)}
polygon.d,text.d{fill:var(--d)}
polygon.e,text.e{fill:var(--e)}
line.open{stroke:var(--ink);stroke-dasharray:4 3}
";

/// A piece of the legend.
fn put_key(svg: &mut Markup, x: u64, class: &[u8], text: &[u8]) -> Result<(), AllocError>
    requires { x < 4096 }
    ensures { OnOk result (svg.new ≡ svg.old ++ sheet.key x class.now text.now) }
{
    put_line(svg, class, (x, 16), (x + 22, 16))?;
    put_text(svg, b"note", (x + 28, 20), text)
}

fn put_permissions(svg: &mut Markup) -> Result<(), AllocError>
    ensures { OnOk result (svg.new ≡ svg.old ++ sheet.permissions) }
{
    put_key(svg, 6, b"nothing", b"Nothing")?;
    put_key(svg, 96, b"branch", b"Branch")?;
    put_key(svg, 180, b"trunk", b"Trunk")?;
    put_key(svg, 258, b"dirty", b"Trunk, dirty")
}

fn put_questions(svg: &mut Markup) -> Result<(), AllocError>
    ensures { OnOk result (svg.new ≡ svg.old ++ sheet.questions) }
{
    put_key(svg, 390, b"a", b"A, Acquire")?;
    put_key(svg, 498, b"b", b"B, Probe")?;
    put_key(svg, 594, b"c", b"C, ProbeAck and Release")
}

fn put_answers(svg: &mut Markup) -> Result<(), AllocError>
    ensures { OnOk result (svg.new ≡ svg.old ++ sheet.answers) }
{
    put_key(svg, 780, b"d", b"D, Grant and ReleaseAck")?;
    put_key(svg, 966, b"e", b"E, GrantAck")?;
    put_key(svg, 1080, b"open", b"not taken")
}

/// The name and the lane of the manager.
fn put_manager(svg: &mut Markup, plan: &Plan) -> Result<(), AllocError>
    ensures { OnOk result (svg.new ≡ svg.old ++ sheet.manager_lane plan.now) }
{
    let x = plan.manager();
    put_text(svg, b"head", (x, 44), b"manager")?;
    put_line(svg, b"lane", (x, 50), (x, plan.bottom()))
}

/// The tag that begins the document.
fn put_frame<'a>(
    svg: &mut Markup,
    namespace: &'a [u8],
    role: &'a [u8],
    labels: &'a [u8],
    width: u64,
    height: u64,
) -> Result<(), AllocError>
    ensures { OnOk result (svg.new ≡ svg.old ++ sheet.frame namespace.now role.now labels.now width height) }
{
    svg.open(
        b"svg",
        &[
            Attribute::text(b"xmlns", namespace),
            Attribute::text(b"role", role),
            Attribute::text(b"aria-labelledby", labels),
            Attribute::number(b"width", width),
            Attribute::number(b"height", height),
            Attribute::numbers(b"viewBox", &[0, 0, width, height]),
        ],
    )
}

fn put_ground(svg: &mut Markup, class: &[u8], width: u64, height: u64) -> Result<(), AllocError>
    ensures { OnOk result (svg.new ≡ svg.old ++ sheet.ground class.now width height) }
{
    svg.element(
        b"rect",
        &[
            Attribute::text(b"class", class),
            Attribute::number(b"width", width),
            Attribute::number(b"height", height),
        ],
        b"",
    )
}

/// What is told of the document, and its style.
fn put_about(
    svg: &mut Markup,
    title: &[u8],
    description: &[u8],
    style: &[u8],
) -> Result<(), AllocError>
    ensures { OnOk result (svg.new ≡ svg.old ++ sheet.about title.now description.now style.now) }
{
    svg.element(b"title", &[Attribute::text(b"id", b"title")], title)?;
    svg.element(
        b"desc",
        &[Attribute::text(b"id", b"description")],
        description,
    )?;
    svg.element(b"style", &[], style)
}

fn put_legend(svg: &mut Markup) -> Result<(), AllocError>
    ensures { OnOk result (svg.new ≡ svg.old ++ sheet.legend) }
{
    put_permissions(svg)?;
    put_questions(svg)?;
    put_answers(svg)
}

/// What stands before the lanes.
fn put_beginning(
    svg: &mut Markup,
    size: (u64, u64),
    title: &[u8],
    description: &[u8],
    style: &[u8],
) -> Result<(), AllocError>
    ensures { OnOk result (svg.new ≡ svg.old ++ sheet.beginning size title.now description.now style.now) }
{
    put_frame(
        svg,
        b"http://www.w3.org/2000/svg",
        b"img",
        b"title description",
        size.0,
        size.1,
    )?;
    put_about(svg, title, description, style)?;
    put_ground(svg, b"ground", size.0, size.1)
}

/// A sheet with its title and its description, which screen readers tell, in this style (`STYLE`, or another
/// stylesheet of the same classes), with the legend and the manager's lane.
pub fn open(
    alloc: Global,
    plan: &Plan,
    title: &[u8],
    description: &[u8],
    style: &[u8],
) -> Result<Markup, AllocError>
    ensures { IfOk result (λ svg. svg ≡ sheet.opening plan.now title.now description.now style.now) }
{
    let mut svg = Markup::new(alloc);
    let size = (plan.width(), plan.height());
    put_beginning(&mut svg, size, title, description, style)?;
    put_legend(&mut svg)?;
    put_manager(&mut svg, plan)?;
    Ok(svg)
}

/// The whole file.
pub fn close(svg: Markup) -> Result<Vec<u8>, AllocError>
    ensures { IfOk result (λ bytes. bytes.items ≡ svg ++ sheet.ending) }
{
    let mut svg = svg;
    svg.close(b"svg")?;
    Ok(svg.into_bytes())
}
