//! Where a hart of a trace stands.

ghost use Rattle.std.specs.Prelude.{◌≡◌, ◌<◌, length};
ghost use Rattle.stop_text.specs.Standing.{standing as spec_standing};

use hart::Hart;
use rv32_decode::decode;
use trace_recorder::Trace;

/// The hart behind the entries of its list.
pub(crate) fn standing(trace: &Trace, hart: usize) -> Hart
    requires { hart < length trace.now.history.entries }
    ensures { result ≡ spec_standing trace.now.history hart }
{
    let harts = trace.harts();
    let mut standing = Hart::at_reset(hart as u8, trace.image().entry(), harts as u32);
    let mut rest = trace.entries(hart);
    while let [entry, tail @ ..] = rest {
        if let Some(instr) = decode(entry.word) {
            standing.retire(entry, &instr);
        }
        rest = tail;
    }
    standing
}
