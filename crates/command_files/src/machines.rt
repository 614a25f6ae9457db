//! Which machine a script is for, and which one the words name.

ghost use Rattle.std.specs.Prelude.{◌≡◌, IfSome, IsNone};
ghost use Rattle.std.specs.List.{AllByRecursion};
ghost use Rattle.command_files.specs.Sizes.{IsInside, IsOutside, config_named, config_of, script_for};
ghost use Rattle.trace_text.specs.Scripts.{IsEvent};

use command_settings::MachineOptions;
use elf_loader::is_memory_kib;
use machine_types::{Config, Event, MemoryModel, is_within_limits};
use tl_types::LineSize;
use trace_text::{Events, Script};

/// The machine that a script is for.
pub fn config_of(script: &Script, model: MemoryModel) -> Config
    ensures { result ≡ config_of script.now model }
{
    Config {
        harts: script.harts,
        sets: script.sets,
        ways: script.ways,
        line: script.line,
        model,
    }
}

/// The machine that is wanted, where one of that size can be made.
pub fn named_config(wanted: MachineOptions) -> Option<Config>
    ensures config { IfSome result (λ config. (inside : IsInside wanted) × (config ≡ config_named wanted inside)) }
    ensures outside { IsNone result → IsOutside wanted }
{
    let line = LineSize::of_bytes(wanted.line)?;
    if !is_within_limits(wanted.harts, wanted.sets, wanted.ways) || !is_memory_kib(wanted.memory) {
        return None;
    }
    Some(Config {
        harts: wanted.harts,
        sets: wanted.sets,
        ways: wanted.ways,
        line,
        model: wanted.model,
    })
}

/// The script of these events, for a machine with so many KiB of memory.
pub fn script_of(config: Config, kib: u32, events: Vec<Event>) -> Script
    ensures script { result ≡ script_for config kib events.items }
    ensures events { AllByRecursion IsEvent result.events }
{
    all_spelt(events.as_slice());
    Script {
        harts: config.harts,
        kib,
        sets: config.sets,
        ways: config.ways,
        line: config.line,
        events: Events::new(events),
    }
}

/// Each event's numbers have a spelling.
fn all_spelt(events: &[Event])
    ensures { AllByRecursion IsEvent events.now }
{
    let mut rest = events;
    while let [event, tail @ ..] = rest {
        spelt(*event);
        rest = tail;
    }
}

fn spelt(_event: Event)
    ensures { IsEvent _event }
{}
