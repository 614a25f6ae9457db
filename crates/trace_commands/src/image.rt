//! The image that a trace began in.

ghost use Rattle.std.specs.Prelude.{◌≡◌, ◌≢◌, ◌+◌, ◌≤◌, IfErr, IfOk, IfSome, IsNone, length};
ghost use Rattle.trace_commands.specs.Images as spec;
ghost use Rattle.trace_commands.specs.Images.{HoldsNames, IsNamingFault};
ghost use Rattle.trace_text.specs.TraceLimits.{IsTrace};

use command_files::{Fault, Files, NamedImage, named_image_in, remark};
use command_settings::Replay;
use elf_loader::Image;
use elf_symbols::Symbols;
use machine_types::BASE;
use std::alloc::Global;
use std::fmt::{self, Display, Formatter};
use trace_recorder::Trace;

/// How many bytes two lists have in common at their beginnings.
fn common(one: &[u8], other: &[u8]) -> usize
    ensures value { result ≡ spec.common one.now other.now }
    ensures within { result ≤ length one.now }
{
    let mut count = 0;
    let mut rest = one;
    let mut others = other;
    while let [a, more @ ..] = rest {
        let [b, further @ ..] = others else {
            return count;
        };
        if a != b {
            return count;
        }
        count += 1;
        rest = more;
        others = further;
    }
    count
}

/// The address of the first word at which two images differ, unless their bytes are the same.
fn other_word(image: &Image, other: &Image) -> Option<u32>
    ensures same { IsNone result → image.now.bytes ≡ other.now.bytes }
    ensures first { IfSome result (λ address. (image.now.bytes ≢ other.now.bytes) × (address ≡ spec.first_other image.now other.now)) }
{
    if image.bytes() == other.bytes() {
        return None;
    }
    let offset = common(image.bytes(), other.bytes()) / 4 * 4;
    Some(BASE + offset as u32)
}

/// What the word at an address is in the image and in the trace.
#[derive(Clone, Copy)]
struct OtherNote<'a> {
    address: u32,
    image: &'a Image,
    began: &'a Image,
}

impl Display for OtherNote<'_> {
    fn fmt<W: fmt::Write>(&self, f: &mut Formatter<W>) -> fmt::Result {
        let address = self.address;
        if !self.image.has_word(address) || !self.began.has_word(address) {
            return Ok(());
        }
        let (image, began) = (self.image.word(address), self.began.word(address));
        write!(
            f,
            "IMAGE has {image:#010x} there, and the trace's I lines {began:#010x}: name the file that the trace is of, as it was then"
        )
    }
}

/// The names that the file of the image has for addresses, where the trace begins in that image.
pub(crate) fn names_of<'a, F: Files>(
    alloc: Global,
    files: &mut F,
    wanted: Replay<'a>,
    trace: &Trace,
) -> Result<Symbols, Fault<'a>>
    requires { IsTrace trace.now.history }
    ensures names { IfOk result (HoldsNames (F.held files.old) wanted.entry trace.now.history) }
    ensures told { IfErr result (IsNamingFault (F.held files.old) wanted.entry trace.now.history) }
    ensures spared { F.held files.new ≡ F.held files.old }
{
    let began = trace.image();
    let kib = began.size() / 1024;
    let NamedImage { image, names } = named_image_in(alloc, files, wanted.raw, wanted.image, kib)?;
    let Some(address) = other_word(&image, began) else {
        return Ok(names);
    };
    let why = OtherNote {
        address,
        image: &image,
        began,
    };
    remark(alloc, files, why);
    Err(Fault::OtherImage {
        file: wanted.script,
        address,
    })
}
