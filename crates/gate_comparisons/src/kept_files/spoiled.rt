//! Spoils kept images, scripts and traces, by cutting them short and by setting bytes, and runs the program
//! over each. A run may still succeed, or judge what a trace still says; any other prints nothing and tells
//! why in one line.

use crate::kept_files::folder::{Backed, Folder};
use crate::kept_files::said::Said;
use crate::kept_files::spoiling::{cut, reset};
use anyhow::{Result, bail};
use gate_plain_comparisons::{ImageKind, Numbers};
use std::fs;
use std::rt::Files;
use std::sync::Wait;
use std::thread::Threads;

/// Images of bare words and ELF files, with the scripts that they are played by.
static REPLAYS: [(&str, &str, ImageKind); 5] = [
    (
        "replayed/row-10-1.bin",
        "replayed/row-10-1.script",
        ImageKind::Raw,
    ),
    (
        "replayed/row-48-2.bin",
        "replayed/row-48-2.script",
        ImageKind::Raw,
    ),
    (
        "replayed/random-005-4-harts-1-by-4.bin",
        "replayed/random-005-4-harts-1-by-4.script",
        ImageKind::Raw,
    ),
    ("replayed/cas.elf", "replayed/cas.script", ImageKind::Elf),
    ("replayed/sum.elf", "replayed/sum.script", ImageKind::Elf),
];

static TRACES: [&str; 3] = [
    "judged/random-11-00115.trace",
    "judged/random-11-00156.trace",
    "judged/random-11-00173.trace",
];

/// A file's name and its bytes.
#[derive(Clone, Copy)]
struct File<'a> {
    name: &'a str,
    bytes: &'a [u8],
}

/// How often bytes of a file are set.
const RESETS: usize = 40;

/// The command line that replays an image of this kind.
fn words_for(kind: ImageKind) -> &'static [&'static str] {
    match kind {
        ImageKind::Raw => &["rvtl", "replay", "--raw", "image", "script"],
        ImageKind::Elf => &["rvtl", "replay", "image", "script"],
    }
}

/// Spoils each file in each way, and runs the program over what comes of it.
pub fn spoil_all<R: Files + Threads + Wait + Sync + AllocGlobal>(rt: &R) -> Result<()> {
    let mut stream = Numbers::from_seed(1);
    let mut said = Said::nothing(rt.alloc());
    for (image, script, kind) in &REPLAYS {
        spoil_replay(rt, image, script, *kind, &mut stream, &mut said)?;
    }
    for trace in &TRACES {
        spoil_trace(rt, trace, &mut stream, &mut said)?;
    }
    Ok(())
}

/// Spoils an image beside its script, and the script beside the image.
fn spoil_replay<R: Files + Threads + Wait + Sync + AllocGlobal>(
    rt: &R,
    image: &str,
    script: &str,
    kind: ImageKind,
    stream: &mut Numbers,
    said: &mut Said,
) -> Result<()> {
    let image = fs::read(rt, image)?;
    let script = fs::read(rt, script)?;
    let image = File {
        name: "image",
        bytes: &image,
    };
    let script = File {
        name: "script",
        bytes: &script,
    };
    spoil_each(rt, words_for(kind), image, script, stream, said)
}

/// Spoils each of two files beside the other.
fn spoil_each<R: Files + Threads + Wait + Sync + AllocGlobal>(
    rt: &R,
    words: &[&str],
    one: File<'_>,
    other: File<'_>,
    stream: &mut Numbers,
    said: &mut Said,
) -> Result<()> {
    spoil(rt, words, one, other, stream, said)?;
    spoil(rt, words, other, one, stream, said)
}

fn spoil_trace<R: Files + Threads + Wait + Sync + AllocGlobal>(
    rt: &R,
    trace: &str,
    stream: &mut Numbers,
    said: &mut Said,
) -> Result<()> {
    let bytes = fs::read(rt, trace)?;
    let trace = File {
        name: "trace",
        bytes: &bytes,
    };
    let words = ["rvtl", "check", "trace"];
    spoil(rt, &words, trace, trace, stream, said)
}

/// Spoils a file in each way beside one that stays as it is.
fn spoil<R: Files + Threads + Wait + Sync + AllocGlobal>(
    rt: &R,
    words: &[&str],
    file: File<'_>,
    other: File<'_>,
    stream: &mut Numbers,
    said: &mut Said,
) -> Result<()> {
    for tenths in 0..10 {
        let bytes = cut(file.bytes, tenths);
        run_over(rt, words, File { bytes, ..file }, other, said)?;
    }
    let mut spoiled = Vec::new(rt.alloc());
    for _ in 0..RESETS {
        reset(&mut spoiled, file.bytes, stream)?;
        let bytes = spoiled.as_slice();
        run_over(rt, words, File { bytes, ..file }, other, said)?;
    }
    Ok(())
}

/// Runs the program over a spoiled file, beside one that stays as it is.
fn run_over<R: Files + Threads + Wait + Sync + AllocGlobal>(
    rt: &R,
    words: &[&str],
    spoiled: File<'_>,
    other: File<'_>,
    said: &mut Said,
) -> Result<()> {
    let mut folder = Folder::new(rt.alloc());
    put_all(&mut folder, &[other, spoiled])?;
    let mut files = Backed {
        folder: &mut folder,
        rt,
    };
    said.ask(rt, words, &mut files);
    ends_well(said)
}

fn put_all(folder: &mut Folder, files: &[File<'_>]) -> Result<()> {
    for file in files {
        folder.put(file.name, file.bytes)?;
    }
    Ok(())
}

fn ends_well(said: &Said) -> Result<()> {
    if let Some(objection) = objection_to(said) {
        bail!("status {}: {objection}", said.status);
    }
    Ok(())
}

/// What is to be objected to an end. The program's status is one of its five. Where it is neither a success nor a
/// verdict, the one line that it tells is its own, and nothing else is printed.
fn objection_to(said: &Said) -> Option<&'static str> {
    match said.status {
        0 if said.out.is_empty() => Some("a success printed nothing"),
        3 if !said.out.starts_with(b"fault ") => Some("no fault was printed"),
        0 | 3 => None,
        1 | 2 | 4 if !is_named_line(&said.err) => Some("no line of the program's"),
        1 | 2 | 4 if !said.out.is_empty() => Some("something was printed before a failure"),
        1 | 2 | 4 => None,
        _ => Some("no such status"),
    }
}

/// One line, which begins with the program's name.
fn is_named_line(text: &[u8]) -> bool {
    let mut newlines = 0usize;
    for byte in text {
        newlines = newlines.saturating_add(usize::from(*byte == b'\n'));
    }
    text.starts_with(b"rvtl: ") && text.ends_with(b"\n") && newlines == 1
}
