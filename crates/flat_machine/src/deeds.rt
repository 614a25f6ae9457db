//! What an instruction that retires does beside its hart's pc, registers and status.
ghost use Rattle.std.specs.Prelude.{◌≡◌, ◌<◌, None, Some, OnOk, length};
ghost use Rattle.flat_machine.specs.States.{flat_of, unlisted};
ghost use Rattle.flat_model.specs.Changing.{does, with_reservation, writes_word};
ghost use Rattle.word_accesses.specs.Changing.{put_behind};
ghost use Rattle.word_accesses.specs.Words.{bytes_of_word};
ghost use Rattle.word_accesses.specs.TheVariants as deed;
ghost use Rattle.store_buffer.specs.ByteMask.{marks_of_access};

use crate::state::State;
use machine_types::MemoryModel;
use std::alloc::{AllocError, Global};
use store_buffer::{Store, StoreBuffer};
use word_accesses::machine_model::Deed;

// A store waits; under Ztso a group holds one word. A buffer in which it doesn't fit is an error.
fn put_store(buffer: &mut StoreBuffer, model: MemoryModel, store: &Store) -> Result<(), AllocError>
    ensures ok { OnOk result (buffer.new ≡ put_behind model store.now buffer.old) }
{
    let Store {
        word,
        mask,
        value,
        op,
    } = *store;
    let put = match model {
        MemoryModel::Rvwmo => buffer.put(word, mask, value, op),
        MemoryModel::Ztso => buffer.put_single(word, mask, value, op),
    };
    match put {
        Ok(()) => Ok(()),
        Err(_) => Err(AllocError),
    }
}

fn bytes_of(value: u32) -> [u8; 4]
    ensures { result ≡ bytes_of_word value }
{
    value.to_le_bytes()
}

impl State<'_> {
    /// What an instruction does as it retires. The only error is want of memory.
    pub(crate) fn carry_out(
        &mut self,
        alloc: Global,
        hart: u8,
        deed: &Deed,
    ) -> Result<(), AllocError>
        requires hart { hart < length self.old.nodes.items }
        ensures ok { OnOk result (flat_of self.new ≡ unlisted (does self.old.config.model hart deed.now (flat_of self.old))) }
    {
        match deed {
            Deed::Private | Deed::Load => Ok(()),
            Deed::Output(number) => self.put_out(hart, *number),
            Deed::Store(store) => self.put(hart, store),
            Deed::Seal => {
                self.nodes[hart as usize].buffer.seal();
                Ok(())
            }
            Deed::Lr(word) => {
                self.nodes[hart as usize].reservation.set(*word);
                Ok(())
            }
            Deed::Fail => {
                self.end_reservation(hart);
                Ok(())
            }
            Deed::Sc { word, value } => {
                self.write_word(alloc, *word, *value)?;
                self.end_reservation(hart);
                Ok(())
            }
            Deed::Amo { word, value } => self.write_word(alloc, *word, *value),
        }
    }

    fn put_out(&mut self, hart: u8, number: u32) -> Result<(), AllocError>
        requires hart { hart < length self.old.nodes.items }
        ensures ok { OnOk result (flat_of self.new ≡ does self.old.config.model hart (deed.Output number) (flat_of self.old)) }
    {
        self.nodes[hart as usize].output.push(number)?;
        Ok(())
    }

    fn put(&mut self, hart: u8, store: &Store) -> Result<(), AllocError>
        requires hart { hart < length self.old.nodes.items }
        ensures ok { OnOk result (flat_of self.new ≡ does self.old.config.model hart (deed.Store store.now) (flat_of self.old)) }
    {
        let model = self.config.model;
        put_store(&mut self.nodes[hart as usize].buffer, model, store)
    }

    fn end_reservation(&mut self, hart: u8)
        requires hart { hart < length self.old.nodes.items }
        ensures { flat_of self.new ≡ with_reservation hart None (flat_of self.old) }
    {
        self.nodes[hart as usize].reservation.clear();
    }

    // The number goes to the word.
    fn write_word(&mut self, alloc: Global, word: u32, value: u32) -> Result<(), AllocError>
        ensures ok { OnOk result (flat_of self.new ≡ writes_word word (marks_of_access 0 4) (bytes_of_word value) (flat_of self.old)) }
        ensures nodes { self.new.nodes.items ≡ self.old.nodes.items }
    {
        self.memory.write(alloc, word, [true; 4], bytes_of(value))
    }
}
