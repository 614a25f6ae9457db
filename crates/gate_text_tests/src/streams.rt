//! Whole streams of small programs, where they end, and writers that fail.

use crate::pieces::{Text, joined};
use crate::same::{same, same_of};
use crate::writers::Narrow;
use elf_loader::{Image, raw, size_of_kib};
use elf_symbols::Symbols;
use event_stream::{StreamError, Strictness, write_stream};
use machine_types::{Config, Event, MemoryModel};
use std::alloc::Global;
use std::fmt::Debug;
use std::io::Write;
use std::process::Abort;
use std::test::Fail;
use tl_types::{Channel, LineSize};

const STEP: Event = Event::Step { hart: 0 };

/// How large a machine is.
#[derive(Clone, Copy)]
struct Size {
    harts: u32,
    sets: u32,
    ways: u32,
    line: LineSize,
}

impl Size {
    fn config(self) -> Result<Config, Fail> {
        let config = Config::new(
            self.harts,
            self.sets,
            self.ways,
            self.line,
            MemoryModel::Rvwmo,
        );
        Ok(config.ok_or("limits")?)
    }
}

/// One hart, and lines of 16 bytes.
const SMALL: Size = Size {
    harts: 1,
    sets: 4,
    ways: 2,
    line: LineSize::Bytes16,
};

/// A program's events on a machine, and their stream.
#[derive(Clone, Copy)]
struct Case {
    words: &'static [u32],
    size: Size,
    events: &'static [Event],
    how: Strictness,
    stream: Text,
}

/// How a stream of one hart begins.
const HEAD: &str = "rvtl-stream 1
T 1 4 0x80000000
";

/// The first two steps of a program that loads the word at the beginning of memory.
const ASKED: &str = "E 2 step 0 Retired
R 0 0x80000000 0x80000637 - - ; lui a2, 0x80000
E 3 step 0 Missed 0x80000000
M s A 0 AcquireBlock 0x80000000 NtoB
";

const ACQUIRED: &str = "E 4 deliver A 0 Delivered
M t A 0 AcquireBlock 0x80000000 NtoB
";

/// What follows the Grant's taking.
const LOADED: &str = "M s E 0 GrantAck 0x80000000
E 6 deliver E 0 Delivered
M t E 0 GrantAck 0x80000000
E 7 step 0 Retired
R 0 0x80000004 0x00062703 0x80000637 - ; lw a4, 0(a2): 0x80000000 = 0x80000637
P 0 1
";

/// `lui a2, 0x80000` and `lw a4, 0(a2)`.
const LOAD: [u32; 2] = [0x8000_0637, 0x0006_2703];

const LOAD_EVENTS: [Event; 6] = [
    STEP,
    STEP,
    Event::Deliver {
        channel: Channel::A,
        hart: 0,
    },
    Event::Deliver {
        channel: Channel::D,
        hart: 0,
    },
    Event::Deliver {
        channel: Channel::E,
        hart: 0,
    },
    STEP,
];

/// The I line of its image.
const LOAD_IMAGE: &str = "I 0x80000000 37060080032706000000000000000000
";

/// The I, R, P, M and H lines are those of the program's trace in the README.
const LOADING: Case = Case {
    words: &LOAD,
    size: SMALL,
    events: &LOAD_EVENTS,
    how: Strictness::Strict,
    stream: &[
        HEAD,
        LOAD_IMAGE,
        ASKED,
        ACQUIRED,
        "M s D 0 GrantData 0x80000000 toB 37060080032706000000000000000000
E 5 deliver D 0 Delivered
M t D 0 GrantData 0x80000000 toB 37060080032706000000000000000000
",
        LOADED,
        "H 0 run ; Stopped 2
",
    ],
};

/// The line's Acquire is outstanding, no Probe waits, and no store waits.
const IDLE_EVENTS: [Event; 5] = [
    STEP,
    STEP,
    STEP,
    Event::Deliver {
        channel: Channel::B,
        hart: 0,
    },
    Event::Drain {
        hart: 0,
        word: 0x8000_0000,
    },
];

static IDLING: Case = Case {
    events: &IDLE_EVENTS,
    how: Strictness::Lenient,
    stream: &[
        HEAD,
        LOAD_IMAGE,
        ASKED,
        "E 4 step 0 WaitGrant
E 5 deliver B 0 Empty
E 6 drain 0 0x80000000 NoEntry
H 0 run ; WaitGrant 0x80000000 ; lw a4, 0(a2)
",
    ],
    ..LOADING
};

/// The same events up to the first that changes nothing.
const STRICTLY: Case = Case {
    events: &IDLE_EVENTS,
    stream: &[HEAD, LOAD_IMAGE, ASKED],
    ..LOADING
};

/// A second hart, which isn't there, is to step.
static REFUSED: Case = Case {
    events: &[STEP, STEP, Event::Step { hart: 1 }],
    how: Strictness::Lenient,
    ..STRICTLY
};

/// Puts out 7, and exits with it.
const OUTPUT: [u32; 5] = [
    0x0070_0513,
    0x0010_0893,
    0x0000_0073,
    0x0000_0893,
    0x0000_0073,
];

const OUTPUT_EVENTS: [Event; 4] = [
    Event::Local { hart: 4, count: 2 },
    Event::Step { hart: 4 },
    Event::Local { hart: 4, count: 1 },
    Event::Step { hart: 4 },
];

static PUTTING_OUT: Case = Case {
    words: &OUTPUT,
    size: Size {
        harts: 5,
        line: LineSize::Bytes64,
        ..SMALL
    },
    events: &OUTPUT_EVENTS,
    how: Strictness::Lenient,
    stream: &[
        "rvtl-stream 2
T 5 4 0x80000000 64
I 0x80000000 13057000930810007300000093080000730000000000000000000000000000000000000000000000000000000000000000000000000000000000000000000000
E 2 local 4 2 Retired
R 4 0x80000000 0x00700513 - - ; addi a0, zero, 7
R 4 0x80000004 0x00100893 - - ; addi a7, zero, 1
E 3 step 4 Retired
R 4 0x80000008 0x00000073 - - ; ecall
O 4 7
E 4 local 4 1 Retired
R 4 0x8000000c 0x00000893 - - ; addi a7, zero, 0
E 5 step 4 Exited 7
R 4 0x80000010 0x00000073 - - ; ecall
H 0 run ; Retired ; addi a0, zero, 7
H 1 run ; Retired ; addi a0, zero, 7
H 2 run ; Retired ; addi a0, zero, 7
H 3 run ; Retired ; addi a0, zero, 7
H 4 exit 7
",
    ],
};

/// Two stores before a fence, which wait in the store buffer.
const FENCED: [u32; 4] = [0x8000_0637, 0x00c6_2823, 0x00c6_2a23, 0x0330_000f];

const BEFORE_A_FENCE: Case = Case {
    words: &FENCED,
    size: SMALL,
    events: &[STEP; 3],
    how: Strictness::Lenient,
    stream: &[
        HEAD,
        "I 0x80000000 370600802328c600232ac6000f003003
E 2 step 0 Retired
R 0 0x80000000 0x80000637 - - ; lui a2, 0x80000
E 3 step 0 Retired
R 0 0x80000004 0x00c62823 - - ; sw a2, 16(a2): 0x80000010 = 0x80000000
E 4 step 0 Retired
R 0 0x80000008 0x00c62a23 - - ; sw a2, 20(a2): 0x80000014 = 0x80000000
H 0 run ; MustDrain 0x80000010 0x80000014 ; fence rw, rw
",
    ],
};

/// Loads from two lines, in a cache of one set by one way.
const NARROW: [u32; 3] = [0x8000_0637, 0x0006_2703, 0x0106_2703];

static AT_A_FULL_SET: Case = Case {
    words: &NARROW,
    size: Size {
        sets: 1,
        ways: 1,
        ..SMALL
    },
    events: &LOAD_EVENTS,
    how: Strictness::Lenient,
    stream: &[
        HEAD,
        "I 0x80000000 37060080032706000327060100000000
",
        ASKED,
        ACQUIRED,
        "M s D 0 GrantData 0x80000000 toB 37060080032706000327060100000000
E 5 deliver D 0 Delivered
M t D 0 GrantData 0x80000000 toB 37060080032706000327060100000000
",
        LOADED,
        "H 0 run ; SetFull 0x80000000 ; lw a4, 16(a2)
",
    ],
};

/// An EBREAK.
static STOPPED: Case = Case {
    words: &[0x0010_0073],
    events: &[STEP],
    stream: &[
        HEAD,
        "I 0x80000000 73001000000000000000000000000000
E 2 step 0 Stopped 3
H 0 stop 3 ; EBREAK ; ebreak
",
    ],
    ..BEFORE_A_FENCE
};

/// Accesses of each kind: a byte and a half word that are stored and loaded again, an LR, an SC that succeeds, one that
/// fails, and an AMO.
const ACCESSES: [u32; 10] = [
    0x8000_0637,
    0xffe0_0693,
    0x02d6_00a3,
    0x02d6_1123,
    0x0216_4703,
    0x0226_1783,
    0x1006_272f,
    0x18d6_27af,
    0x18d6_27af,
    0x00d6_272f,
];

const ACCESSES_EVENTS: [Event; 14] = [
    STEP,
    STEP,
    STEP,
    STEP,
    STEP,
    STEP,
    STEP,
    Event::Deliver {
        channel: Channel::A,
        hart: 0,
    },
    Event::Deliver {
        channel: Channel::D,
        hart: 0,
    },
    Event::Deliver {
        channel: Channel::E,
        hart: 0,
    },
    STEP,
    STEP,
    STEP,
    STEP,
];

static ACCESSING: Case = Case {
    words: &ACCESSES,
    events: &ACCESSES_EVENTS,
    stream: &[
        HEAD,
        "I 0x80000000 370600809306e0ffa300d6022311d602
I 0x80000010 03471602831726022f270610af27d618
I 0x80000020 af27d6182f27d6000000000000000000
E 2 step 0 Retired
R 0 0x80000000 0x80000637 - - ; lui a2, 0x80000
E 3 step 0 Retired
R 0 0x80000004 0xffe00693 - - ; addi a3, zero, -2
E 4 step 0 Retired
R 0 0x80000008 0x02d600a3 - - ; sb a3, 33(a2): 0x80000021 = 0xfe
E 5 step 0 Retired
R 0 0x8000000c 0x02d61123 - - ; sh a3, 34(a2): 0x80000022 = 0xfffe
E 6 step 0 Retired
R 0 0x80000010 0x02164703 0x000000fe - ; lbu a4, 33(a2): 0x80000021 = 0xfe
P 0 4
E 7 step 0 Retired
R 0 0x80000014 0x02261783 0x0000fffe - ; lh a5, 34(a2): 0x80000022 = 0xfffe
P 0 5
E 8 step 0 Missed 0x80000000
M s A 0 AcquireBlock 0x80000000 NtoT
E 9 deliver A 0 Delivered
M t A 0 AcquireBlock 0x80000000 NtoT
M s D 0 GrantData 0x80000000 toT 370600809306e0ffa300d6022311d602
E 10 deliver D 0 Delivered
M t D 0 GrantData 0x80000000 toT 370600809306e0ffa300d6022311d602
M s E 0 GrantAck 0x80000000
E 11 deliver E 0 Delivered
M t E 0 GrantAck 0x80000000
E 12 step 0 Retired
R 0 0x80000018 0x1006272f 0x80000637 - ; lr.w a4, (a2): 0x80000000 = 0x80000637
P 0 6
E 13 step 0 Retired
R 0 0x8000001c 0x18d627af - ok ; sc.w a5, a3, (a2): 0x80000000 = 0xfffffffe
P 0 7
E 14 step 0 Retired
R 0 0x80000020 0x18d627af - fail ; sc.w a5, a3, (a2): 0x80000000 fails
E 15 step 0 Retired
R 0 0x80000024 0x00d6272f 0xfffffffe - ; amoadd.w a4, a3, (a2): 0x80000000 = 0xfffffffe -> 0xfffffffc
P 0 9
H 0 run ; Stopped 2
",
    ],
    ..BEFORE_A_FENCE
};

pub(crate) fn image_of_kib(alloc: Global, words: &[u32], kib: u32) -> Result<Image, Fail> {
    let size = size_of_kib(kib).ok_or("a size")?;
    let mut bytes = Vec::new(alloc);
    for word in words {
        bytes.extend_from_slice(&word.to_le_bytes())?;
    }
    Ok(raw(alloc, &bytes, size)?)
}

pub(crate) fn image_of(alloc: Global, words: &[u32]) -> Result<Image, Fail> {
    image_of_kib(alloc, words, 4)
}

pub(crate) fn config_of(harts: u32, line: LineSize) -> Result<Config, Fail> {
    let size = Size {
        harts,
        line,
        ..SMALL
    };
    size.config()
}

/// Writes the stream of a case.
fn tell<W: Write>(
    alloc: Global,
    case: &Case,
    out: &mut W,
) -> Result<Result<(), StreamError>, Fail> {
    let image = image_of(alloc, case.words)?;
    let names = Symbols::new(alloc);
    match write_stream(
        alloc,
        image,
        case.size.config()?,
        case.events,
        case.how,
        &names,
        out,
    ) {
        Ok(_) => Ok(Ok(())),
        Err(error) => Ok(Err(error)),
    }
}

/// Whether it is whole.
fn tells<W: Write>(alloc: Global, case: &Case, out: &mut W) -> Result<bool, Fail> {
    Ok(tell(alloc, case, out)?.is_ok())
}

fn is_text(rt: &(impl Abort + AllocGlobal), got: &[u8], pieces: Text) -> Result<(), Fail> {
    let text = joined(rt.alloc(), pieces)?;
    same(rt, got, text.as_slice());
    Ok(())
}

/// The stream of a case is whole.
fn is_told(rt: &(impl Abort + AllocGlobal), case: &Case) -> Result<(), Fail> {
    let mut out = Vec::new(rt.alloc());
    same(rt, tells(rt.alloc(), case, &mut out)?, true);
    is_text(rt, out.as_slice(), case.stream)
}

fn is_shown<T: Debug>(rt: &impl Abort, alloc: Global, value: &T, text: &str) -> Result<(), Fail> {
    let shown = format!(in alloc; "{value:?}")?;
    same(rt, shown.as_str(), text);
    Ok(())
}

/// The stream ends before one of the case's events, for a reason that is named.
fn ends_before(rt: &(impl Abort + AllocGlobal), case: &Case, reason: &str) -> Result<(), Fail> {
    let mut out = Vec::new(rt.alloc());
    let told = tell(rt.alloc(), case, &mut out)?;
    is_text(rt, out.as_slice(), case.stream)?;
    is_shown(rt, rt.alloc(), &told, reason)
}

#[test]
fn a_stream_has_each_line_below_its_event(rt: HostRuntime) -> Result<(), Fail> {
    is_told(&rt, &LOADING)
}

#[test]
fn a_stream_tells_what_each_access_does(rt: HostRuntime) -> Result<(), Fail> {
    is_told(&rt, &ACCESSING)
}

#[test]
fn a_stream_tells_what_a_hart_puts_out(rt: HostRuntime) -> Result<(), Fail> {
    is_told(&rt, &PUTTING_OUT)
}

#[test]
fn a_lenient_stream_tells_events_that_change_nothing(rt: HostRuntime) -> Result<(), Fail> {
    is_told(&rt, &IDLING)
}

/// Harts at the end of a stream: before a fence, at a full set, and stopped.
#[test]
fn a_stream_ends_with_what_its_harts_wait_for(rt: HostRuntime) -> Result<(), Fail> {
    is_told(&rt, &BEFORE_A_FENCE)?;
    is_told(&rt, &AT_A_FULL_SET)?;
    is_told(&rt, &STOPPED)
}

#[test]
fn a_strict_stream_ends_before_them(rt: HostRuntime) -> Result<(), Fail> {
    ends_before(&rt, &STRICTLY, "Err(Idle(2, WaitGrant))")
}

#[test]
fn a_stream_ends_before_a_refused_event(rt: HostRuntime) -> Result<(), Fail> {
    ends_before(&rt, &REFUSED, "Err(Refused(2, BadEvent))")
}

static LENIENT: Case = Case {
    how: Strictness::Lenient,
    ..LOADING
};

fn is_writers_fault(told: &Result<(), StreamError>) -> bool {
    matches!(told, Err(StreamError::Writing(_)))
}

/// Whether the stream ends by its writer's fault.
fn fails_to_write<W: Write>(alloc: Global, out: &mut W) -> Result<bool, Fail> {
    Ok(is_writers_fault(&tell(alloc, &LENIENT, out)?))
}

/// The writer's fault is told, and it was given the stream's beginning.
fn breaks_off(rt: &(impl Abort + AllocGlobal), stream: &[u8], room: usize) -> Result<(), Fail> {
    let mut out = Narrow::new(rt.alloc(), room, true);
    same_of(rt, fails_to_write(rt.alloc(), &mut out)?, true, &room);
    same_of(rt, Some(out.taken.as_slice()), stream.get(..room), &room);
    Ok(())
}

fn breaks_anywhere(rt: &(impl Abort + AllocGlobal), stream: &[u8]) -> Result<(), Fail> {
    for room in 0..stream.len() {
        breaks_off(rt, stream, room)?;
    }
    Ok(())
}

#[test]
fn a_beginning_goes_out_before_a_fault(rt: HostRuntime) -> Result<(), Fail> {
    let stream = joined(rt.alloc(), LENIENT.stream)?;
    breaks_anywhere(&rt, &stream)
}
