//! Which operations store to a byte, found without a walk over all.
ghost use Rattle.std.specs.Prelude.{ℕ, ◌≡◌, List, [], ◌∷◌, ◌++◌, IfOk, OnOk, filter, if◌then◌else◌};
ghost use Rattle.std.specs.List.{list_any};
ghost use Rattle.memory_model.specs.Operations as operations;
ghost use Rattle.memory_model.specs.declared.operation.Operation.{Operation as OperationValue};
ghost use Rattle.written_lines.specs.Stores.{AreStoresOf, stored_in};
ghost use Rattle.written_lines.specs.Written as spec;

use memory_model::Operation;
use std::alloc::{AllocError, Global};
use std::collections::HashMap;
use trace_operations::accesses::{end_of, stores_to, writes, written_at};

/// Operations by the bytes that they write.
#[derive(Drop)]
pub(crate) struct Stores {
    /// Those that store to each byte.
    pub(crate) by_byte: HashMap<u64, Vec<Operation>>,
}

impl Stores {
    /// Those among these operations.
    pub(crate) fn among(alloc: Global, performed: &[Operation]) -> Result<Stores, AllocError>
        ensures { IfOk result (λ stores. AreStoresOf stores performed.now) }
    {
        let mut by_byte = HashMap::new(alloc);
        for operation in performed {
            if writes(operation.kind) {
                push_bytes(&mut by_byte, operation)?;
            }
        }
        Ok(Stores { by_byte })
    }

    /// Whether one of the hart's wrote this byte there.
    pub(crate) fn have(&self, hart: u8, at: u64, byte: u8) -> bool
        ensures { (performed : List OperationValue) → AreStoresOf self.now performed → result ≡ list_any (spec.wrote hart at byte) performed }
    {
        match self.by_byte.get(&at) {
            Some(stores) => have_written(stores.as_slice(), hart, at, byte),
            None => false,
        }
    }
}

fn have_written(stores: &[Operation], hart: u8, at: u64, byte: u8) -> bool
    ensures { result ≡ list_any (spec.wrote hart at byte) stores.now }
{
    stores
        .iter()
        .any(|operation| wrote(hart, at, byte, operation))
}

/// Puts an operation behind the others to each of its bytes.
fn push_bytes(
    by_byte: &mut HashMap<u64, Vec<Operation>>,
    operation: &Operation,
) -> Result<(), AllocError>
    ensures { OnOk result ((x : ℕ) → stored_in by_byte.new x
        ≡ stored_in by_byte.old x ++ (if operations.touches x operation.now then operation.now ∷ [] else [])) }
{
    for x in u64::from(operation.address)..end_of(operation) {
        by_byte.entry(x)?.or_default().push(*operation)?;
    }
    Ok(())
}

/// Whether the operation is the hart's, and wrote this byte there.
fn wrote(hart: u8, at: u64, byte: u8, operation: &Operation) -> bool
    ensures { result ≡ spec.wrote hart at byte operation.now }
{
    operation.hart == hart
        && stores_to(at, operation)
        && written_at(operation, at) == u32::from(byte)
}
