//! How harts ended, as lines.

ghost use Rattle.std.specs.Prelude.{map};
ghost use Rattle.command_files.specs.Ends.{hart_line, hart_lines};
ghost use Rattle.text_fields.specs.Writing.{Writes};

use hart::Status;
use hart_ends::put_end;
use std::io::{self, Write};
use text_fields::put;

/// How each hart ended, and what it put out, each on a line of its own. After the writer's fault a beginning of these
/// lines went out.
pub fn print_ends<E: Write>(
    statuses: &[Status],
    outputs: &[Vec<u32>],
    err: &mut E,
) -> io::Result<()>
    ensures { Writes (E.contents err.old) (E.contents err.new) (hart_lines 0 statuses.now (map (λ output. output.items) outputs.now)) result }
{
    let mut hart = 0;
    let mut left = statuses;
    let mut others = outputs;
    while let [status, statuses @ ..] = left {
        let [output, outputs @ ..] = others else {
            return Ok(());
        };
        print_end(hart, *status, output, err)?;
        hart += 1;
        left = statuses;
        others = outputs;
    }
    Ok(())
}

fn print_end<E: Write>(hart: usize, status: Status, output: &[u32], err: &mut E) -> io::Result<()>
    ensures { Writes (E.contents err.old) (E.contents err.new) (hart_line hart status output.now) result }
{
    put_end(hart, status, output, err)?;
    put(err, b"\n")
}
