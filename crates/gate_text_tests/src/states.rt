//! What machines hold at the end of streams, worked out by hand from their events.
ghost use Rattle.std.specs.Prelude.{IfOk};
ghost use Rattle.coherent_machine.specs.Machine.{IsReached};

use super::streams::{config_of, image_of};
use crate::same::{same, same_of};
use crate::writers::Narrow;
use coherent_machine::Machine;
use elf_symbols::Symbols;
use event_stream::{Strictness, write_state, write_stream};
use std::alloc::Global;
use std::io::Write;
use std::process::Abort;
use std::test::Fail;
use trace_text::{Script, read_script};

/// `lui a2, 0x80000`, `sw a2, 16(a2)` and `sw a2, 20(a2)`.
const STORES: [u32; 3] = [0x8000_0637, 0x00c6_2823, 0x00c6_2a23];

/// Hart 0 stores a word, writes it back, and has a second store wait; hart 1 stores that word too, and is
/// to be probed for hart 0.
const STORES_SCRIPT: &str = "rvtl-script 1 2 4 4 2
step 0
step 0
drain 0 0x80000010
deliver A 0
deliver D 0
deliver E 0
drain 0 0x80000010
evict 0 0x80000010
deliver C 0
deliver D 0
step 0
step 1
step 1
drain 1 0x80000010
deliver A 1
deliver D 1
deliver E 1
drain 1 0x80000010
drain 0 0x80000014
deliver A 0
";

const STORES_STATE: &str = "X 0 pc 0x8000000c
X 0 a1 0x00000002
X 0 a2 0x80000000
B 0 0 0x80000014 00000080
A 0 0x80000010
X 1 pc 0x80000008
X 1 a0 0x00000001
X 1 a1 0x00000002
X 1 a2 0x80000000
C 1 0x80000010 dirty Trunk 00000080000000000000000000000000
Q B 1 ProbeBlock 0x80000010 toN
N 1 0x80000010 Trunk awaited
G 0 0x80000010 Probing NtoT
D 0x80000010 00000080000000000000000000000000
";

/// `lui a2, 0x80000`, `lw a5, 48(a2)`, `lr.w a4, (a2)`, `sb a4, 33(a2)`, `fence w, w` and `sh a4, 32(a2)`.
static RESERVED: [u32; 6] = [
    0x8000_0637,
    0x0306_2783,
    0x1006_272f,
    0x02e6_00a3,
    0x0110_000f,
    0x02e6_1023,
];

/// The line that was loaded from is given up, another is reserved, and two stores to one word wait on
/// either side of the fence.
const RESERVED_SCRIPT: &str = "rvtl-script 1 1 4 4 2
step 0
step 0
deliver A 0
deliver D 0
deliver E 0
step 0
evict 0 0x80000030
step 0
deliver A 0
deliver D 0
step 0
step 0
step 0
step 0
";

const RESERVED_STATE: &str = "X 0 pc 0x80000018
X 0 a1 0x00000001
X 0 a2 0x80000000
X 0 a4 0x80000637
B 0 0 0x80000020 --37----
B 0 1 0x80000020 3706----
L 0 0x80000000
C 0 0x80000000 Trunk 37060080832706032f270610a300e602
U 0 0x80000030
Q C 0 Release 0x80000030 BtoN
Q E 0 GrantAck 0x80000000
N 0 0x80000000 Trunk
G 0 0x80000000 Granted
N 0 0x80000030 Branch
";

/// `lui a2, 0x80000` and `sw a2, 64(a2)`.
const WIDE: [u32; 2] = [0x8000_0637, 0x04c6_2023];

/// A fifth hart has written a line of 64 bytes back, and isn't told so yet.
const WIDE_SCRIPT: &str = "rvtl-script 2 5 4 4 2 64
step 4
step 4
drain 4 0x80000040
deliver A 4
deliver D 4
deliver E 4
drain 4 0x80000040
evict 4 0x80000040
deliver C 4
";

const WIDE_STATE: &str = "X 0 pc 0x80000000
X 0 a1 0x00000005
X 1 pc 0x80000000
X 1 a0 0x00000001
X 1 a1 0x00000005
X 2 pc 0x80000000
X 2 a0 0x00000002
X 2 a1 0x00000005
X 3 pc 0x80000000
X 3 a0 0x00000003
X 3 a1 0x00000005
X 4 pc 0x80000008
X 4 a0 0x00000004
X 4 a1 0x00000005
X 4 a2 0x80000000
U 4 0x80000040
Q D 4 ReleaseAck 0x80000040
D 0x80000040 00000080000000000000000000000000000000000000000000000000000000000000000000000000000000000000000000000000000000000000000000000000
";

/// The machine to which a script leads.
fn machine_behind(alloc: Global, words: &[u32], script: &str) -> Result<Machine, Fail>
    ensures { IfOk result (λ machine. IsReached machine) }
{
    let script = read_script(alloc, script.as_bytes())?;
    machine_played(alloc, words, &script)
}

fn machine_played(alloc: Global, words: &[u32], script: &Script) -> Result<Machine, Fail>
    ensures { IfOk result (λ machine. IsReached machine) }
{
    let image = image_of(alloc, words)?;
    let config = config_of(script.harts, script.line)?;
    let events = script.events.as_slice();
    let names = Symbols::new(alloc);
    let mut out = Vec::new(alloc);
    let how = Strictness::Strict;
    match write_stream(alloc, image, config, events, how, &names, &mut out) {
        Ok(machine) => Ok(machine),
        Err(_) => Err(Fail::from("a whole stream")),
    }
}

/// Whether all that the machine holds behind a script is written.
fn tells_state<W: Write>(
    alloc: Global,
    words: &[u32],
    script: &str,
    out: &mut W,
) -> Result<bool, Fail> {
    let machine = machine_behind(alloc, words, script)?;
    Ok(write_state(&machine, out).is_ok())
}

/// A program, a script, and what the machine then holds.
const CASES: [(&[u32], &str, &str); 3] = [
    (&STORES, STORES_SCRIPT, STORES_STATE),
    (&RESERVED, RESERVED_SCRIPT, RESERVED_STATE),
    (&WIDE, WIDE_SCRIPT, WIDE_STATE),
];

fn is_told(
    rt: &(impl Abort + AllocGlobal),
    words: &[u32],
    script: &str,
    text: &str,
) -> Result<(), Fail> {
    let mut out = Vec::new(rt.alloc());
    same(rt, tells_state(rt.alloc(), words, script, &mut out)?, true);
    same(rt, out.as_slice(), text.as_bytes());
    Ok(())
}

#[test]
fn all_that_a_machine_holds_is_told(rt: HostRuntime) -> Result<(), Fail> {
    for (words, script, text) in &CASES {
        is_told(&rt, words, script, text)?;
    }
    Ok(())
}

/// A writer that has less room than the state wants is given its beginning.
fn breaks_off(rt: &(impl Abort + AllocGlobal), room: usize) -> Result<(), Fail> {
    let mut out = Narrow::new(rt.alloc(), room, true);
    let is_told = tells_state(rt.alloc(), &STORES, STORES_SCRIPT, &mut out)?;
    same_of(rt, is_told, false, &room);
    let front = STORES_STATE.as_bytes().get(..room);
    same_of(rt, Some(out.taken.as_slice()), front, &room);
    Ok(())
}

#[test]
fn a_beginning_of_a_state_goes_out_before_a_fault(rt: HostRuntime) -> Result<(), Fail> {
    for room in 0..STORES_STATE.len() {
        breaks_off(&rt, room)?;
    }
    Ok(())
}
