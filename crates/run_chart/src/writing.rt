//! Writing the picture of a run.
ghost use Rattle.std.specs.Prelude.{◌≡◌, Err, IfErr, OnOk};
ghost use Rattle.run_chart.specs.Charts.{IsDrawn, IsUndrawn};

use crate::drawing::draw;
use crate::errors::ChartError;
use crate::gathering::gather;
use elf_loader::Image;
use elf_symbols::Symbols;
use machine_types::{Config, Event};
use std::alloc::Global;
use std::io::Write;
use text_fields::put;

/// Applies the events in their order to a machine at reset, and writes the picture of what happened, an SVG
/// document in this style, with these names for addresses. Where an address is given, it has the messages, bars and
/// rows of the line of memory around it alone. A write that takes no byte is a writer's fault.
pub fn write_chart<W: Write>(
    alloc: Global,
    image: Image,
    config: Config,
    events: &[Event],
    address: Option<u32>,
    names: &Symbols,
    style: &[u8],
    out: &mut W,
) -> Result<(), ChartError>
    ensures drawn { OnOk result (IsDrawn names.now image config events.now address style.now (W.contents out.old) (W.contents out.new)) }
    ensures undrawn { IfErr result (IsUndrawn names.now image config events.now address style.now (W.contents out.old) (W.contents out.new)) }
{
    let story = gather(alloc, image, config, events, address)?;
    let bytes = draw(alloc, &story, names, style)?;
    match put(out, bytes.as_slice()) {
        Ok(()) => Ok(()),
        Err(fault) => Err(ChartError::Writing(fault)),
    }
}
