//! Which bytes of a line were granted or written.
ghost use Rattle.std.specs.Prelude.{◌≡◌, List};
ghost use Rattle.memory_model.specs.declared.operation.Operation.{Operation as OperationValue};
ghost use Rattle.written_lines.specs.Stores.{AreStoresOf};
ghost use Rattle.written_lines.specs.Written as spec;

use crate::stores::Stores;
use trace_operations::behind;

/// Of the bytes from this address on, the first that is neither the one that was granted in its place nor one that the
/// hart wrote there.
pub(crate) fn other_byte(
    stores: &Stores,
    hart: u8,
    address: u32,
    granted: &[u8],
    bytes: &[u8],
) -> Option<u64>
    ensures { (performed : List OperationValue) → AreStoresOf stores.now performed → result ≡ spec.other_byte performed hart address granted.now bytes.now }
{
    let mut at = u64::from(address);
    let mut before = granted;
    let mut rest = bytes;
    while let [byte, tail @ ..] = rest {
        if !is_first(*byte, before) && !stores.have(hart, at, *byte) {
            return Some(at);
        }
        at += 1;
        before = behind(before, 1);
        rest = tail;
    }
    None
}

fn is_first(byte: u8, bytes: &[u8]) -> bool
    ensures { result ≡ spec.is_first byte bytes.now }
{
    match bytes {
        [first, ..] => *first == byte,
        [] => false,
    }
}
