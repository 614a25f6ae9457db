//! Small programs, of which was worked out by hand how many are searched and which words are left in the end.
ghost use Rattle.std.specs.Prelude.{◌<◌};

use elf_loader::{Image, raw, size_of_kib};
use fence_audit::allowed_outcomes::Allowed;
use fence_audit::{
    Allowance, Audit, Missing, Question, World, audit_allowed, audit_program, is_whole,
};
use image_orderings::Patch;
use machine_types::{Config, MemoryModel};
use state_search::Unwatched;
use std::alloc::{AllocError, Global};
use std::process::Abort;
use std::test::Fail;
use std::thread::Threads;
use tl_types::LineSize;

/// Some searches go side by side.
const THREADS: usize = 3;

fn image_of(alloc: Global, words: &[u32]) -> Result<Image, Fail> {
    let size = size_of_kib(4).ok_or("a size")?;
    let mut bytes = Vec::new(alloc);
    for word in words {
        bytes.extend_from_slice(&word.to_le_bytes())?;
    }
    Ok(raw(alloc, &bytes, size)?)
}

fn audit_in(
    rt: &(impl Threads + Sync),
    alloc: Global,
    image: &Image,
    config: Config,
    limit: u32,
    world: World,
) -> Result<Audit, AllocError>
    requires { 0 < limit }
{
    let question = Question {
        image,
        config,
        addresses: &[],
        window: 16,
        limit,
        world,
        threads: THREADS,
    };
    audit_program(rt, alloc, question, &Unwatched)
}

fn audit_of(
    rt: &(impl AllocGlobal + Threads + Sync),
    words: &[u32],
    harts: u32,
    model: MemoryModel,
    limit: u32,
    world: World,
) -> Result<Audit, Fail>
    requires { 0 < limit }
{
    let alloc = rt.alloc();
    let image = image_of(alloc, words)?;
    let config = Config::new(harts, 1, 2, LineSize::Bytes16, model).ok_or("limits")?;
    Ok(audit_in(rt, alloc, &image, config, limit, world)?)
}

/// What the program lacks of two harts for the outcomes that a text allows.
fn missing_of(
    rt: &(impl AllocGlobal + Threads + Sync),
    words: &[u32],
    text: &[u8],
) -> Result<Missing, Fail> {
    let alloc = rt.alloc();
    let image = image_of(alloc, words)?;
    let config = Config::new(2, 1, 2, LineSize::Bytes16, MemoryModel::Rvwmo).ok_or("limits")?;
    let question = Question {
        image: &image,
        config,
        addresses: &[],
        window: 16,
        limit: 100_000,
        world: World::Model,
        threads: THREADS,
    };
    let allowed = Allowed::new(alloc, text)?;
    match audit_allowed(rt, alloc, question, &[], &allowed, &Unwatched)? {
        Allowance::Broken(missing) => Ok(missing),
        Allowance::Kept(_) => Err("an outcome that isn't allowed".into()),
    }
}

/// Whether these are the words of the last program, in their order.
fn leaves(last: &[Patch], words: &[u32]) -> bool {
    last.len() == words.len()
        && last
            .iter()
            .zip(words)
            .all(|(patch, word)| patch.word == *word)
}

/// Ends the test unless so many programs are searched behind the first, and these words are left.
fn ends_with(
    rt: &(impl Abort + AllocGlobal + Threads + Sync),
    words: &[u32],
    harts: u32,
    model: MemoryModel,
    searches: usize,
    last: &[u32],
) -> Result<(), Fail> {
    let audit = audit_of(rt, words, harts, model, 100_000, World::Model)?;
    assert!(rt; is_whole(&audit.known));
    assert_eq!(rt; audit.searches.len(), searches);
    assert!(rt; leaves(&audit.last, last));
    Ok(())
}

const NOP: u32 = 0x0000_0013;

// Nothing needs the fence before an exit.
static EXIT: [u32; 3] = [0x0330_000f, 0x0050_0513, 0x0000_0073];

#[test]
fn a_fence_before_an_exit(rt: HostRuntime) -> Result<(), Fail> {
    ends_with(&rt, &EXIT, 1, MemoryModel::Rvwmo, 1, &[NOP])
}

// `examples/message_passing_fenced.elf`: hart 1 puts out 42, and without either fence it may put out 0.
static MESSAGE: [u32; 20] = [
    0x8000_02b7,
    0x1002_8293,
    0x8000_0337,
    0x1403_0313,
    0x0005_1e63,
    0x02a0_0393,
    0x0072_a023,
    0x0110_000f,
    0x0010_0e13,
    0x01c3_2023,
    0x01c0_006f,
    0x0003_2e03,
    0xfe0e_0ee3,
    0x0220_000f,
    0x0002_a503,
    0x0010_0893,
    0x0000_0073,
    0x0000_0513,
    0x0000_0893,
    0x0000_0073,
];

#[test]
fn a_message_between_two_fences(rt: HostRuntime) -> Result<(), Fail> {
    let kept = [0x0110_000f, 0x0220_000f];
    ends_with(&rt, &MESSAGE, 2, MemoryModel::Rvwmo, 2, &kept)
}

// Ztso orders loads before loads, and stores before stores: without the first fence, without the second, without both.
#[test]
fn a_message_under_ztso(rt: HostRuntime) -> Result<(), Fail> {
    ends_with(&rt, &MESSAGE, 2, MemoryModel::Ztso, 3, &[NOP, NOP])
}

// `examples/store_buffering_fenced.elf`: stores have to come before loads. Searched are that without its FENCE, and the
// FENCEs r, r; r, w; w, r, which is enough; w, w; r, rw; rw, w and TSO. The others order stores before loads too.
static BUFFERING: [u32; 17] = [
    0x8000_02b7,
    0x1002_8293,
    0x8000_0337,
    0x1403_0313,
    0x0005_0863,
    0x0002_8393,
    0x0003_0293,
    0x0003_8313,
    0x0010_0e13,
    0x01c2_a023,
    0x0330_000f,
    0x0003_2503,
    0x0010_0893,
    0x0000_0073,
    0x0000_0513,
    0x0000_0893,
    0x0000_0073,
];

#[test]
fn stores_before_loads(rt: HostRuntime) -> Result<(), Fail> {
    ends_with(&rt, &BUFFERING, 2, MemoryModel::Rvwmo, 8, &[0x0120_000f])
}

// `examples/spin_lock.elf`: without aq the counter may be read before the lock is taken, without rl written behind its
// release, and both harts put out 1.
static LOCK: [u32; 16] = [
    0x8000_02b7,
    0x1002_8293,
    0x8000_0337,
    0x1403_0313,
    0x0010_0393,
    0x0c72_ae2f,
    0xfe0e_1ee3,
    0x0003_2503,
    0x0015_0513,
    0x00a3_2023,
    0x0a02_a02f,
    0x0010_0893,
    0x0000_0073,
    0x0000_0513,
    0x0000_0893,
    0x0000_0073,
];

#[test]
fn a_lock_by_amoswap(rt: HostRuntime) -> Result<(), Fail> {
    let kept = [0x0c72_ae2f, 0x0a02_a02f];
    ends_with(&rt, &LOCK, 2, MemoryModel::Rvwmo, 2, &kept)
}

// A search of one state decides nothing.
#[test]
fn a_bound_of_the_first_search(rt: HostRuntime) -> Result<(), Fail> {
    let audit = audit_of(&rt, &MESSAGE, 2, MemoryModel::Rvwmo, 1, World::Model)?;
    assert!(&rt; !is_whole(&audit.known));
    assert_eq!(&rt; audit.searches.len(), 0);
    Ok(())
}

// `examples/ticket_marked.elf`: the counter may be read before the wait has ended, as a nop stands where a fence is missing.
// Searched are the program with all that its AMOADD, nop and FENCE may order; with the AMOADD as it is; with the nop, which
// isn't enough; with the FENCE as it is; with `fence r, r` in place of the nop, which is enough; and with the nop again.
static TICKET: [u32; 22] = [
    0x8000_02b7,
    0x1002_8293,
    0x8000_0337,
    0x1403_0313,
    0x8000_03b7,
    0x1803_8393,
    0x0010_0e13,
    0x01c2_aeaf,
    0x0003_2f03,
    0xffdf_1ee3,
    0x0000_0013,
    0x0003_a503,
    0x0015_0513,
    0x00a3_a023,
    0x0310_000f,
    0x001e_8e93,
    0x01d3_2023,
    0x0010_0893,
    0x0000_0073,
    0x0000_0513,
    0x0000_0893,
    0x0000_0073,
];

#[test]
fn a_ticket_lock_without_a_fence(rt: HostRuntime) -> Result<(), Fail> {
    let turns =
        b"hart 0: exit 0 output 1   hart 1: exit 0 output 2\nhart 0: exit 0 output 2   hart 1: exit 0 output 1\n";
    let missing = missing_of(&rt, &TICKET, turns)?;
    assert_eq!(&rt; missing.place, 0);
    assert_eq!(&rt; missing.searches.len(), 6);
    assert!(&rt; leaves(&missing.last, &[0x01c2_aeaf, 0x0220_000f, 0x0310_000f]));
    Ok(())
}

// This machine does loads in program order, and a store may leave the buffer before one to another line: the second fence
// isn't needed there. Searched are the program without the first, without the second, and without both.
#[test]
fn a_message_on_this_machine(rt: HostRuntime) -> Result<(), Fail> {
    let model = MemoryModel::Rvwmo;
    let audit = audit_of(&rt, &MESSAGE, 2, model, 100_000, World::Machine)?;
    assert!(&rt; is_whole(&audit.known));
    assert_eq!(&rt; audit.searches.len(), 3);
    assert!(&rt; leaves(&audit.last, &[0x0110_000f, NOP]));
    Ok(())
}

/// Ends the test unless the program has so many orderings, and a hart may come to so many of them, each of which a search
/// leaves out.
fn meets(
    rt: &(impl Abort + AllocGlobal + Threads + Sync),
    words: &[u32],
    orderings: usize,
    met: usize,
) -> Result<(), Fail> {
    let model = MemoryModel::Rvwmo;
    let audit = audit_of(rt, words, 1, model, 100_000, World::Model)?;
    assert!(rt; is_whole(&audit.known));
    assert_eq!(rt; audit.orderings.len(), orderings);
    assert_eq!(rt; audit.met.len(), met);
    assert_eq!(rt; audit.searches.len(), met);
    Ok(())
}

// lui t0, 0x80000; lw a0, 28(t0); addi a7, x0, 1; ecall; addi a7, x0, 0; ecall; fence rw, rw; and two words of data that
// look like `fence rw, rw` and `amoadd.w.aqrl x0, x0, (x0)`, of which it puts out the first.
static BEHIND: [u32; 9] = [
    0x8000_02b7,
    0x01c2_a503,
    0x0010_0893,
    0x0000_0073,
    0x0000_0893,
    0x0000_0073,
    0x0330_000f,
    0x0330_000f,
    0x0600_202f,
];

#[test]
fn data_and_what_stands_behind_the_exit(rt: HostRuntime) -> Result<(), Fail> {
    meets(&rt, &BEHIND, 4, 0)
}

// jal ra, 16; fence rw, rw; addi a7, x0, 0; ecall; and a function: jalr x0, 0(ra); fence rw, rw.
static CALLED: [u32; 6] = [
    0x0100_00ef,
    0x0330_000f,
    0x0000_0893,
    0x0000_0073,
    0x0000_8067,
    0x0330_000f,
];

#[test]
fn a_function_that_returns(rt: HostRuntime) -> Result<(), Fail> {
    meets(&rt, &CALLED, 2, 1)
}

// addi a7, x0, 1; bne a0, x0, 8; addi a7, x0, 0; ecall; fence rw, rw: hart 0 exits, but another would go on.
static EITHER: [u32; 5] = [
    0x0010_0893,
    0x0005_1463,
    0x0000_0893,
    0x0000_0073,
    0x0330_000f,
];

#[test]
fn a_call_that_exits_on_one_way(rt: HostRuntime) -> Result<(), Fail> {
    meets(&rt, &EITHER, 1, 1)
}

// lui t0, 0x80000; lw ra, 0x40(t0); jalr x0, 0(ra); fence rw, rw: it may return to any address.
static ANYWHERE: [u32; 4] = [0x8000_02b7, 0x0402_a083, 0x0000_8067, 0x0330_000f];

#[test]
fn a_jump_by_what_was_loaded(rt: HostRuntime) -> Result<(), Fail> {
    meets(&rt, &ANYWHERE, 1, 1)
}
