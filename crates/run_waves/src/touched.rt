//! Which parts of a machine waves tell of.
ghost use Rattle.std.specs.Prelude.{◌≡◌, ◌++◌, [], IfOk, OnOk, nat_eq};
ghost use Rattle.indexmap.specs.IndexSet.{insert_key};
ghost use Rattle.run_waves.specs.Touched as touched;

use crate::groups::Group;
use coherent_machine::Machine;
use indexmap::IndexSet;
use std::alloc::{AllocError, Global};
use tl_types::Channel;
use trace_recorder::Logged;

/// Adds all of these.
fn add(list: &mut Vec<Group>, groups: &[Group]) -> Result<(), AllocError>
    ensures { OnOk result (list.new.items ≡ list.old.items ++ groups.now) }
{
    list.extend_from_slice(groups)?;
    Ok(())
}

/// Adds a hart and its queues.
fn add_hart(list: &mut Vec<Group>, hart: u8) -> Result<(), AllocError>
    ensures { OnOk result (list.new.items ≡ list.old.items ++ touched.of_hart hart) }
{
    let groups = [
        Group::Hart { hart },
        Group::Queue {
            hart,
            channel: Channel::A,
        },
        Group::Queue {
            hart,
            channel: Channel::B,
        },
        Group::Queue {
            hart,
            channel: Channel::C,
        },
        Group::Queue {
            hart,
            channel: Channel::D,
        },
        Group::Queue {
            hart,
            channel: Channel::E,
        },
    ];
    add(list, &groups)
}

fn add_harts(list: &mut Vec<Group>, harts: u8) -> Result<(), AllocError>
    ensures { OnOk result (list.new.items ≡ list.old.items ++ touched.of_harts harts) }
{
    for hart in 0..harts {
        add_hart(list, hart)?;
    }
    Ok(())
}

/// Adds what each hart's cache, and the manager's record of it, have of a line.
fn add_copies(list: &mut Vec<Group>, harts: u8, line: u32) -> Result<(), AllocError>
    ensures { OnOk result (list.new.items ≡ list.old.items ++ touched.copies_of harts line) }
{
    for hart in 0..harts {
        add(
            list,
            &[Group::Copy { hart, line }, Group::Record { hart, line }],
        )?;
    }
    Ok(())
}

fn add_line(list: &mut Vec<Group>, harts: u8, line: u32) -> Result<(), AllocError>
    ensures { OnOk result (list.new.items ≡ list.old.items ++ touched.of_line harts line) }
{
    add_copies(list, harts, line)?;
    add(list, &[Group::Transaction { line }])
}

/// Adds what each cache and the manager have of a line, if it isn't among those that were met; then it is.
fn meet(
    list: &mut Vec<Group>,
    met: &mut IndexSet<u32>,
    harts: u8,
    line: u32,
) -> Result<(), AllocError>
    ensures parts { OnOk result (list.new.items ≡ list.old.items ++ touched.of_new_line harts met.old.keys line) }
    ensures met { OnOk result (met.new.keys ≡ insert_key nat_eq met.old.keys line) }
{
    if met.insert(line)? {
        add_line(list, harts, line)?;
    }
    Ok(())
}

/// Adds the lines that messages are about, each where it is met first.
fn add_lines(
    alloc: Global,
    list: &mut Vec<Group>,
    harts: u8,
    log: &[Logged],
) -> Result<(), AllocError>
    ensures { OnOk result (list.new.items ≡ list.old.items ++ touched.of_lines_in harts [] log.now) }
{
    let mut met = IndexSet::new(alloc);
    let mut rest = log;
    while let [entry, tail @ ..] = rest {
        meet(list, &mut met, harts, entry.message.line)?;
        rest = tail;
    }
    Ok(())
}

/// Each hart, its queues, and each line that a message was about.
pub(crate) fn parts_of(alloc: Global, machine: &Machine) -> Result<Vec<Group>, AllocError>
    ensures { IfOk result (λ parts. parts.items ≡ touched.parts_of machine.now) }
{
    let harts = machine.views().directory().harts();
    let mut list = Vec::new(alloc);
    add_harts(&mut list, harts)?;
    add_lines(alloc, &mut list, harts, machine.trace().log())?;
    Ok(list)
}
