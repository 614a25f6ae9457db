//! A byte that a hart sends and neither was granted nor wrote, in words.
ghost use Rattle.std.specs.Prelude.{◌≡◌, ◌++◌, codes, option_map, slice_get};
ghost use Rattle.log_text.specs.Words.{address_text, at_text, unwritten_text};
ghost use Rattle.text_fields.specs.Writing.{Writes};
ghost use Rattle.trace_recorder.specs.declared.logged.Logged.{Logged as LoggedValue};

use crate::spelling::put_routed;
use std::io::{self, Write};
use text_fields::{put, word_text};
use trace_recorder::Logged;

/// A message with such a byte. Its text is as `ReleaseData 0x80000100 TtoN from hart 0: its byte at 0x80000105 is neither
/// the one that its hart was granted nor one that it wrote`.
#[derive(Clone, Copy, Debug)]
pub struct UnwrittenByte {
    pub entry: Logged,
    /// Where the byte is in memory.
    pub address: u64,
}

impl UnwrittenByte {
    /// Of the entry at `index` of a log. None beyond the log.
    pub fn of(log: &[Logged], index: usize, address: u64) -> Option<UnwrittenByte>
        ensures { result ≡ option_map (λ (e : LoggedValue). record { entry = e; address = address }) (slice_get log.now index) }
    {
        match log.get(index) {
            Some(entry) => Some(UnwrittenByte {
                entry: *entry,
                address,
            }),
            None => None,
        }
    }

    /// Writes it. After the writer's fault a beginning of it went out.
    pub fn put<W: Write>(&self, out: &mut W) -> io::Result<()>
        ensures { Writes (W.contents out.old) (W.contents out.new) (unwritten_text self.now) result }
    {
        put_routed(&self.entry, out)?;
        put_neither(self.address, out)
    }
}

// Where the byte is.
fn put_at<W: Write>(address: u64, out: &mut W) -> io::Result<()>
    ensures { Writes (W.contents out.old) (W.contents out.new) (at_text address) result }
{
    put(out, b": its byte at ")?;
    put_address(address, out)
}

fn put_address<W: Write>(address: u64, out: &mut W) -> io::Result<()>
    ensures { Writes (W.contents out.old) (W.contents out.new) (address_text address) result }
{
    if address < 1 << 32 {
        put(out, &word_text(address as u32))
    } else {
        put(out, b"an address over 32 bits")
    }
}

fn put_neither<W: Write>(address: u64, out: &mut W) -> io::Result<()>
    ensures { Writes (W.contents out.old) (W.contents out.new) (at_text address ++ codes " is neither the one that its hart was granted nor one that it wrote") result }
{
    put_at(address, out)?;
    put(
        out,
        b" is neither the one that its hart was granted nor one that it wrote",
    )
}
