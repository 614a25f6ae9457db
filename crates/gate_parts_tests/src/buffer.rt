use crate::same::same;
use std::process::Abort;
use store_buffer::*;

const X: u32 = 0x8000_0100;

const Y: u32 = 0x8000_0200;

const WHOLE: [bool; 4] = [true; 4];

/// A store of the marked bytes of a word, by its place in its hart's list.
#[derive(Clone, Copy)]
struct Entering {
    word: u32,
    marks: [bool; 4],
    value: u32,
    place: u32,
}

/// How a store enters: beside others of its group, or in a group of its own, as under total store order.
#[derive(Clone, Copy)]
enum Way {
    Joining,
    Singly,
}

/// A call on a buffer with what it is to answer, or what is to be seen of it.
#[derive(Clone, Copy)]
enum Call {
    /// A store of a whole word, its value and its place.
    Stores(u32, u32, u32),
    StoresPart(Entering),
    StoresSingly(u32, u32, u32),
    /// Stores of 1 to the eight words from X on, at places from 2 on: they use all entries.
    Fills(Way),
    FindsNoRoom(u32, u32, u32),
    FindsNoRoomSingly(u32, u32, u32),
    Seals,
    /// A drainable word's entry leaves: its value and its stores.
    Drains(u32, u32, &'static [u32]),
    /// Whether a word that can't be drained has an entry.
    CannotDrain(u32, bool),
    /// The word that a load sees, laid over the copy's.
    Forwards(u32, u32, u32),
    /// Whether the buffer has all these bytes of a word.
    Covers(u32, [bool; 4], bool),
    /// Whether a sealed group is there, and the numbers of groups and entries.
    Holds(bool, usize, usize),
    Lowest(Option<u32>),
}

fn whole(word: u32, value: u32, place: u32) -> Entering {
    Entering {
        word,
        marks: WHOLE,
        value,
        place,
    }
}

fn put(buffer: &mut StoreBuffer, way: Way, store: Entering) -> Result<(), PutError> {
    let mask = ByteMask::from_marks(store.marks);
    let bytes = store.value.to_le_bytes();
    match way {
        Way::Joining => buffer.put(store.word, mask, bytes, store.place),
        Way::Singly => buffer.put_single(store.word, mask, bytes, store.place),
    }
}

/// A store that finds room.
fn puts(rt: &impl Abort, buffer: &mut StoreBuffer, way: Way, store: Entering) {
    put(buffer, way, store).expect(rt, "room");
}

fn fill(rt: &impl Abort, buffer: &mut StoreBuffer, way: Way) {
    for index in 0..8u32 {
        puts(rt, buffer, way, whole(X + 4 * index, 1, 2 + index));
    }
}

fn drains(rt: &impl Abort, buffer: &mut StoreBuffer, word: u32, value: u32, stores: &[u32]) {
    assert!(rt; buffer.drainable(word));
    let Entry { bytes, ops, .. } = buffer.take(word);
    same(rt, u32::from_le_bytes(bytes), value);
    same(rt, ops.into_vec().as_slice(), stores);
}

fn forwards(rt: &impl Abort, buffer: &StoreBuffer, word: u32, copy: u32, loaded: u32) {
    let (mask, bytes) = buffer.forward(word);
    let seen = mask.lay_over(bytes, copy.to_le_bytes());
    same(rt, u32::from_le_bytes(seen), loaded);
}

fn covers(rt: &impl Abort, buffer: &StoreBuffer, word: u32, marks: [bool; 4], all: bool) {
    let (mask, _) = buffer.forward(word);
    same(rt, mask.covers(ByteMask::from_marks(marks)), all);
}

fn holds(rt: &impl Abort, buffer: &StoreBuffer, sealed: bool, groups: usize, entries: usize) {
    same(rt, buffer.has_sealed(), sealed);
    same(rt, buffer.group_count(), groups);
    same(rt, buffer.entry_count(), entries);
    same(rt, buffer.is_empty(), entries == 0);
}

fn cannot_drain(rt: &impl Abort, buffer: &StoreBuffer, word: u32, has: bool) {
    same(rt, buffer.drainable(word), false);
    same(rt, buffer.has(word), has);
}

fn finds_no_room(rt: &impl Abort, buffer: &mut StoreBuffer, store: Entering) {
    same(rt, buffer.fits(store.word), false);
    same(rt, put(buffer, Way::Joining, store), Err(PutError::Full));
}

fn finds_no_room_singly(rt: &impl Abort, buffer: &mut StoreBuffer, store: Entering) {
    same(rt, put(buffer, Way::Singly, store), Err(PutError::Full));
}

fn answers(rt: &impl Abort, buffer: &mut StoreBuffer, call: Call) {
    match call {
        Call::Stores(word, value, place) => {
            puts(rt, buffer, Way::Joining, whole(word, value, place));
        }
        Call::StoresPart(store) => puts(rt, buffer, Way::Joining, store),
        Call::StoresSingly(word, value, place) => {
            puts(rt, buffer, Way::Singly, whole(word, value, place));
        }
        Call::Fills(way) => fill(rt, buffer, way),
        Call::FindsNoRoom(word, value, place) => {
            finds_no_room(rt, buffer, whole(word, value, place));
        }
        Call::FindsNoRoomSingly(word, value, place) => {
            finds_no_room_singly(rt, buffer, whole(word, value, place));
        }
        Call::Seals => buffer.seal(),
        Call::Drains(word, value, stores) => drains(rt, buffer, word, value, stores),
        Call::CannotDrain(word, has) => cannot_drain(rt, buffer, word, has),
        Call::Forwards(word, copy, loaded) => forwards(rt, buffer, word, copy, loaded),
        Call::Covers(word, marks, all) => covers(rt, buffer, word, marks, all),
        Call::Holds(sealed, groups, entries) => holds(rt, buffer, sealed, groups, entries),
        Call::Lowest(word) => same(rt, buffer.lowest(), word),
    }
}

fn answers_all(rt: &impl Abort, buffer: &mut StoreBuffer, calls: &[Call]) {
    for call in calls {
        answers(rt, buffer, *call);
    }
}

fn play(rt: &(impl Abort + AllocGlobal), calls: &[Call]) {
    answers_all(rt, &mut StoreBuffer::new(rt.alloc()), calls);
}

/// Stores wait by word, and a fence's two sides apart: each store performs with its own group.
const ROW_6: [Call; 5] = [
    Call::Stores(X, 1, 3),
    Call::Seals,
    Call::Stores(Y, 1, 5),
    Call::CannotDrain(Y, true),
    Call::Lowest(Some(X)),
];

/// Two stores to one word with a write fence between leave two entries, and the older drains first.
const ROW_7: [Call; 11] = [
    Call::Stores(X, 1, 2),
    Call::Seals,
    Call::Stores(X, 2, 5),
    Call::Covers(X, WHOLE, true),
    Call::Forwards(X, 0, 2),
    Call::Holds(true, 2, 2),
    Call::Drains(X, 1, &[2]),
    Call::Holds(false, 1, 1),
    Call::Drains(X, 2, &[5]),
    Call::CannotDrain(X, false),
    Call::Lowest(None),
];

/// A byte store leaves the word's other bytes to the copy.
const ROW_8: [Call; 3] = [
    Call::StoresPart(Entering {
        word: X,
        marks: [false, true, false, false],
        value: 0x5500,
        place: 2,
    }),
    Call::Covers(X, WHOLE, false),
    Call::Forwards(X, 0x4433_2211, 0x4433_5511),
];

/// A ninth word finds no entry, the open group's own word does.
const ROW_13: [Call; 6] = [
    Call::Fills(Way::Joining),
    Call::FindsNoRoom(0x8000_0120, 1, 10),
    Call::CannotDrain(0x8000_0120, false),
    Call::Stores(X, 1, 10),
    Call::Holds(false, 1, 8),
    Call::Drains(X, 1, &[2, 10]),
];

/// A byte and a halfword merge in one entry: a load of a stored byte needs no copy.
const ROW_32: [Call; 6] = [
    Call::StoresPart(Entering {
        word: X,
        marks: [false, true, false, false],
        value: 0xff00,
        place: 2,
    }),
    Call::StoresPart(Entering {
        word: X,
        marks: [false, false, true, true],
        value: 0xffff_0000,
        place: 3,
    }),
    Call::Covers(X, [false, false, true, false], true),
    Call::Covers(X, WHOLE, false),
    Call::Forwards(X, 0, 0xffff_ff00),
    Call::Drains(X, 0xffff_ff00, &[2, 3]),
];

/// Under RVWMO the third store joins the first.
const ROW_50: [Call; 4] = [
    Call::Stores(X, 1, 2),
    Call::Stores(Y, 1, 3),
    Call::Stores(X, 2, 5),
    Call::Holds(false, 1, 2),
];

/// Under total store order it stays behind the second.
const ROW_50_TOTAL: [Call; 11] = [
    Call::StoresSingly(X, 1, 2),
    Call::StoresSingly(Y, 1, 3),
    Call::StoresSingly(X, 2, 5),
    Call::Holds(true, 3, 3),
    Call::CannotDrain(Y, true),
    Call::Drains(X, 1, &[2]),
    Call::CannotDrain(X, true),
    Call::Drains(Y, 1, &[3]),
    Call::CannotDrain(Y, false),
    Call::Drains(X, 2, &[5]),
    Call::Holds(false, 1, 0),
];

/// With all eight entries used, a store under total store order joins its own word's or changes nothing.
const FULL_TOTAL: [Call; 6] = [
    Call::Fills(Way::Singly),
    Call::FindsNoRoomSingly(X, 9, 10),
    Call::Holds(true, 8, 8),
    Call::StoresSingly(0x8000_011c, 9, 10),
    Call::Holds(true, 8, 8),
    Call::Forwards(0x8000_011c, 0, 9),
];

/// Sealing an empty open group makes none, and a store after a seal never joins the sealed entry.
const SEALS_ONCE: [Call; 10] = [
    Call::Seals,
    Call::Holds(false, 1, 0),
    Call::Stores(X, 1, 0),
    Call::Seals,
    Call::Seals,
    Call::Holds(true, 2, 1),
    Call::StoresSingly(X, 2, 1),
    Call::Holds(true, 2, 2),
    Call::Drains(X, 1, &[0]),
    Call::Drains(X, 2, &[1]),
];

static ROWS: [&[Call]; 9] = [
    &ROW_6,
    &ROW_7,
    &ROW_8,
    &ROW_13,
    &ROW_32,
    &ROW_50,
    &ROW_50_TOTAL,
    &FULL_TOTAL,
    &SEALS_ONCE,
];

#[test]
fn rows_and_groups(rt: HostRuntime) {
    for calls in &ROWS {
        play(&rt, calls);
    }
}

fn lends_groups(rt: &impl Abort, buffer: &mut StoreBuffer) {
    puts(rt, buffer, Way::Joining, whole(X, 1, 0));
    assert!(rt; buffer.drainable(X));
    same(rt, buffer.entry(X).mask.marks(), WHOLE);
    buffer.seal();
    same(rt, buffer.oldest().len(), 1);
    same(rt, buffer.current().len(), 0);
    assert!(rt; buffer.group_count() == 2);
    same(rt, buffer.group(0).len(), 1);
}

/// The groups that a buffer lends, the oldest first.
#[test]
fn lent_groups(rt: HostRuntime) {
    lends_groups(&rt, &mut StoreBuffer::new(rt.alloc()));
}

/// The numbers that a refused put is known by.
#[test]
fn put_errors_have_their_numbers(rt: HostRuntime) {
    same(&rt, PutError::Full as u8, 1);
    same(&rt, PutError::NoMemory as u8, 2);
}

fn keeps_places(rt: &(impl Abort + AllocGlobal)) {
    let mut ops = Ops::from_vec(vec![in rt.alloc(); 3].expect(rt, "a list"));
    ops.push(7).expect(rt, "a place");
    same(rt, ops.len(), 2);
    same(rt, ops.into_vec().as_slice(), [3, 7].as_slice());
}

#[test]
fn masks_and_ops(rt: HostRuntime) {
    let mask = ByteMask::from_marks([true, false, false, true]);
    let all = mask.union(ByteMask::of_access(1, 2));
    same(&rt, all.marks(), WHOLE);
    assert!(rt; !ByteMask::none().covers(mask));
    keeps_places(&rt);
    group_of_stores();
    buffer_of_stores();
    single_groups_stay();
}

fn word_of(buffer: &StoreBuffer, word: u32) -> u32 {
    let (_, bytes) = buffer.forward(word);
    u32::from_le_bytes(bytes)
}

fn stores_of_oldest(buffer: &StoreBuffer) -> usize {
    match buffer.oldest().first() {
        Some(entry) => entry.ops.len(),
        None => 0,
    }
}

/// What is seen of a buffer of the words X and Y without memory: the bytes of both, how many groups and
/// entries there are, and how many stores the oldest entry has.
fn seen(buffer: &StoreBuffer) -> (u32, u32, usize, usize, usize) {
    (
        word_of(buffer, X),
        word_of(buffer, Y),
        buffer.group_count(),
        buffer.entry_count(),
        stores_of_oldest(buffer),
    )
}

/// A refused store changes nothing, and succeeds when asked again.
fn asks_twice(rt: &impl Abort, buffer: &mut StoreBuffer, way: Way, store: Entering) {
    let before = seen(buffer);
    if put(buffer, way, store).is_err() {
        same(rt, seen(buffer), before);
        puts(rt, buffer, way, store);
    }
}

fn copied(rt: &impl Abort, buffer: &StoreBuffer) -> StoreBuffer {
    match buffer.try_copy() {
        Ok(copy) => copy,
        Err(_) => buffer.try_copy().expect(rt, "a second copy"),
    }
}

fn is_copy(rt: &impl Abort, buffer: &StoreBuffer, copy: &StoreBuffer) {
    same(rt, seen(copy), seen(buffer));
    holds(rt, copy, true, 4, 5);
}

/// Stores by how they enter, their word, and their place, which is also their value.
static GROWTH: [(Way, u32, u32); 7] = [
    (Way::Joining, X, 1),
    (Way::Joining, X, 2),
    (Way::Joining, Y, 3),
    (Way::Joining, X, 4),
    (Way::Joining, X, 5),
    (Way::Joining, X, 6),
    (Way::Joining, X, 7),
];

static SEALED_GROWTH: [(Way, u32, u32); 4] = [
    (Way::Singly, Y, 8),
    (Way::Singly, X, 9),
    (Way::Singly, X, 10),
    (Way::Singly, Y, 11),
];

fn grows(rt: &impl Abort, buffer: &mut StoreBuffer, stores: &[(Way, u32, u32)]) {
    for (way, word, place) in stores {
        asks_twice(rt, buffer, *way, whole(*word, *place, *place));
    }
}

fn grows_and_is_copied(rt: &impl Abort, buffer: &mut StoreBuffer) {
    grows(rt, buffer, &GROWTH);
    buffer.seal();
    grows(rt, buffer, &SEALED_GROWTH);
    is_copy(rt, buffer, &copied(rt, buffer));
}

/// Meant for runs in which one allocation fails.
#[test]
fn a_refused_growth_changes_nothing(rt: HostRuntime) {
    grows_and_is_copied(&rt, &mut StoreBuffer::new(rt.alloc()));
}

fn keeps_one_list(rt: &impl Abort, buffer: &mut StoreBuffer) {
    asks_twice(rt, buffer, Way::Joining, whole(X, 1, 1));
    for place in 2..50u32 {
        keeps_its_list(rt, buffer, place);
    }
    drains(rt, buffer, X, 49, &[49]);
}

/// Meant for runs in which one allocation fails: an entry takes no memory where the buffer kept a list.
#[test]
fn a_kept_list_serves_the_next_entry(rt: HostRuntime) {
    keeps_one_list(&rt, &mut StoreBuffer::new(rt.alloc()));
}

/// The word's entry leaves, and its list serves the entry of another store.
fn keeps_its_list(rt: &impl Abort, buffer: &mut StoreBuffer, place: u32) {
    assert!(rt; buffer.drainable(X));
    let Entry { ops, .. } = buffer.take(X);
    buffer.keep(ops);
    puts(rt, buffer, Way::Joining, whole(X, place, place));
}
