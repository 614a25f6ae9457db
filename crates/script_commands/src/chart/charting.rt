//! `rvtl chart`: a script of events is applied to a machine, and what happened is drawn.

ghost use Rattle.std.specs.Prelude.{◌≡◌, IfErr, IfOk, IfSome, OnOk};
ghost use Rattle.command_files.specs.Faults.{LeavesAtFault};
ghost use Rattle.command_files.specs.Status.{status_of};
ghost use Rattle.command_files.specs.Addresses.{address};
ghost use Rattle.run_chart.specs.Charts.{IsDrawn, IsUndrawn};
ghost use Rattle.run_chart.specs.declared.sheet.TheConstants.{STYLE};
ghost use Rattle.script_commands.specs.Charting.{IsAddress, IsChartFault, IsCharted, IsDrawingFault, IsNoAddress, IsPictureCutOff};

use command_files::{
    Fault, Files, NamedImage, address_in, config_of, named_image_in, remark_outside,
    remark_refused, script_in,
};
use command_settings::Replay;
use machine_types::{Config, Event};
use run_chart::{ChartError, STYLE, write_chart};
use std::alloc::Global;
use std::io::Write;

/// The address of the line that is asked for, if one is.
fn address_of<'a>(line: Option<&'a str>) -> Result<Option<u32>, Fault<'a>>
    ensures named { IfOk result (IsAddress line.entry) }
    ensures refused { IfErr result (IsNoAddress line.entry) }
{
    let Some(word) = line else {
        return Ok(None);
    };
    match address_in(word.as_bytes()) {
        Some(address) => Ok(Some(address)),
        None => Err(Fault::BadAddress { word }),
    }
}

/// The picture, with the names that the image's file has for addresses.
fn draw<O: Write>(
    alloc: Global,
    named: NamedImage,
    config: Config,
    events: &[Event],
    address: Option<u32>,
    out: &mut O,
) -> Result<(), ChartError>
    ensures drawn { OnOk result (IsDrawn named.names named.image config events.now address STYLE.now (O.contents out.old) (O.contents out.new)) }
    ensures undrawn { IfErr result (IsUndrawn named.names named.image config events.now address STYLE.now (O.contents out.old) (O.contents out.new)) }
{
    let NamedImage { image, names } = named;
    write_chart(alloc, image, config, events, address, &names, STYLE, out)
}

/// Why a script's run is not drawn.
fn fault_of<'a>(script: &'a str, error: ChartError) -> Fault<'a>
    ensures { IsDrawingFault script.entry error result }
{
    match error {
        ChartError::Replay(error) => Fault::replay(script, error),
        ChartError::TooManyRows => Fault::TooManyRows { file: script },
        ChartError::NoMemory => Fault::OutOfMemory,
        ChartError::Writing(error) => Fault::writing(error),
    }
}

/// Reads and judges the address, the script, then the image, applies the events, and prints on `out` the
/// picture of what happened, an SVG document, with the names that an ELF file has for addresses. `line` is an address in the line of memory whose messages, bars
/// and rows alone are drawn; where memory has none at it, that is remarked. A picture has at most 400 rows and
/// bars. Where there is a fault, nothing is printed, but after `cannot write` or `out of memory` perhaps a
/// beginning of the picture.
pub fn chart_files<'a, F: Files, O: Write>(
    alloc: Global,
    files: &mut F,
    wanted: Replay<'a>,
    line: Option<&'a str>,
    out: &mut O,
) -> Result<(), Fault<'a>>
    ensures charted { OnOk result (IsCharted (F.held files.old) wanted.entry line.entry (O.contents out.old) (O.contents out.new)) }
    ensures unfinished { IfErr result (λ fault. LeavesAtFault fault (O.contents out.old) (O.contents out.new)
        (IsPictureCutOff (F.held files.old) wanted.entry line.entry (O.contents out.old) (O.contents out.new))) }
    ensures unnamed { IfSome line.entry (λ word. address word.now ≡ None → result ≡ Err (Fault.BadAddress word)) }
    ensures misused { IfErr result (λ fault. status_of fault ≡ 2 → IsNoAddress line.entry fault × (O.contents out.new ≡ O.contents out.old)) }
    ensures told { IfErr result (IsChartFault (F.held files.old) wanted.entry line.entry) }
    ensures spared { F.held files.new ≡ F.held files.old }
{
    let address = address_of(line)?;
    let script = script_in(alloc, files, wanted.script)?;
    let named = named_image_in(alloc, files, wanted.raw, wanted.image, script.kib)?;
    let config = config_of(&script, wanted.model);
    let events = script.events.as_slice();
    let drawn = draw(alloc, named, config, events, address, out);
    if let Err(error) = drawn {
        let fault = fault_of(wanted.script, error);
        remark_refused(alloc, files, &script, &fault);
        return Err(fault);
    }
    remark_outside(alloc, files, address, &script);
    match out.flush() {
        Ok(()) => Ok(()),
        Err(error) => Err(Fault::writing(error)),
    }
}
