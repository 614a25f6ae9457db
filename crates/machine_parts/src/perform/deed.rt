//! What an instruction that retires does beside its hart's pc, registers and status.

ghost use Rattle.std.specs.Prelude.{◌≡◌, ◌<◌, IsTrue, None, OnErr, OnOk, Some, length};
ghost use Rattle.machine_model.specs.declared.act.Deed.TheVariants as deed;
ghost use Rattle.machine_model.specs.Changing.{does, performs_own, put_behind, with_buffer, with_reservation, writes_word};
ghost use Rattle.machine_model.specs.Ready.{IsReadyDeed, IsSound, IsWritable};
ghost use Rattle.machine_model.specs.Views.{node_at};
ghost use Rattle.machine_model.specs.Words.{bytes_of_word};
ghost use Rattle.machine_parts.specs.Lists.{KeepsLists};
ghost use Rattle.store_buffer.specs.ByteMask.{marks_of_access};
ghost use Rattle.store_buffer.specs.Groups.{after_seal, fits};

use crate::parts::Parts;
use machine_model::Deed;
use machine_types::MemoryModel;
use std::alloc::AllocError;
use store_buffer::{PutError, Store, StoreBuffer};
use trace_recorder::OpId;

/// What an instruction does as it retires. An error leaves everything as it was.
pub(crate) fn carry_out(parts: &mut Parts, hart: u8, deed: &Deed) -> Result<(), AllocError>
    requires sound { IsSound parts.old.state }
    requires hart { hart < length parts.old.state.views.nodes }
    requires room { 0 < parts.old.room.performed }
    requires ready { IsReadyDeed hart deed.now parts.old.state }
    ensures ok { OnOk result (parts.new.state ≡ does parts.old.state.views.config.model hart deed.now parts.old.state) }
    ensures err { OnErr result (parts.new.state ≡ parts.old.state) }
    ensures kept { KeepsLists parts.old parts.new }
{
    match deed {
        Deed::Output(number) => put_out(parts, hart, *number),
        Deed::Store(store) => put(parts, hart, store),
        Deed::Private => Ok(()),
        Deed::Load => {
            perform_own(parts, hart);
            Ok(())
        }
        Deed::Seal => {
            seal(parts, hart);
            Ok(())
        }
        Deed::Lr(word) => {
            reserve_word(parts, hart, *word);
            Ok(())
        }
        Deed::Fail => {
            end_reservation(parts, hart);
            Ok(())
        }
        Deed::Sc { word, value } => {
            store_conditional(parts, hart, *word, *value);
            Ok(())
        }
        Deed::Amo { word, value } => {
            update(parts, hart, *word, *value);
            Ok(())
        }
    }
}

fn put_out(parts: &mut Parts, hart: u8, number: u32) -> Result<(), AllocError>
    requires hart { hart < length parts.old.state.views.nodes }
    ensures ok { OnOk result (parts.new.state ≡ does parts.old.state.views.config.model hart (deed.Output number) parts.old.state) }
    ensures err { OnErr result (parts.new.state ≡ parts.old.state) }
    ensures kept { KeepsLists parts.old parts.new }
{
    parts.nodes[hart as usize].output.push(number)?;
    Ok(())
}

fn put(parts: &mut Parts, hart: u8, store: &Store) -> Result<(), AllocError>
    requires hart { hart < length parts.old.state.views.nodes }
    requires fits { IsTrue (fits store.now.word (node_at parts.old.state hart).buffer) }
    ensures ok { OnOk result (parts.new.state ≡ does parts.old.state.views.config.model hart (deed.Store store.now) parts.old.state) }
    ensures err { OnErr result (parts.new.state ≡ parts.old.state) }
    ensures kept { KeepsLists parts.old parts.new }
{
    let model = parts.config.model;
    put_store(&mut parts.nodes[hart as usize].buffer, model, store)?;
    Ok(())
}

// A store waits; under Ztso a group holds one word.
fn put_store(buffer: &mut StoreBuffer, model: MemoryModel, store: &Store) -> Result<(), AllocError>
    requires fits { IsTrue (fits store.now.word buffer.old) }
    ensures ok { OnOk result (buffer.new ≡ put_behind model store.now buffer.old) }
    ensures err { OnErr result (buffer.new ≡ buffer.old) }
{
    let Store {
        word,
        mask,
        value,
        op,
    } = *store;
    let put = match model {
        MemoryModel::Rvwmo => buffer.put(word, mask, value, op),
        MemoryModel::Ztso => buffer.put_single(word, mask, value, op),
    };
    match put {
        Ok(()) => Ok(()),
        Err(PutError::NoMemory) => Err(AllocError),
        Err(PutError::Full) => unreachable!(),
    }
}

fn seal(parts: &mut Parts, hart: u8)
    requires hart { hart < length parts.old.state.views.nodes }
    ensures state { parts.new.state ≡ with_buffer hart (after_seal (node_at parts.old.state hart).buffer) parts.old.state }
    ensures kept { KeepsLists parts.old parts.new }
{
    parts.nodes[hart as usize].buffer.seal();
}

// The operation of the instruction that retires is performed.
fn perform_own(parts: &mut Parts, hart: u8)
    requires hart { hart < length parts.old.state.trace.entries }
    requires room { 0 < parts.old.room.performed }
    ensures state { parts.new.state ≡ performs_own hart parts.old.state }
    ensures kept { KeepsLists parts.old parts.new }
{
    let place = parts.trace.entries(hart as usize).len() as u32;
    parts.trace.perform(OpId { hart, place });
}

fn reserve_word(parts: &mut Parts, hart: u8, word: u32)
    requires sound { IsSound parts.old.state }
    requires hart { hart < length parts.old.state.views.nodes }
    requires room { 0 < parts.old.room.performed }
    ensures state { parts.new.state ≡ with_reservation hart (Some word) (performs_own hart parts.old.state) }
    ensures kept { KeepsLists parts.old parts.new }
{
    perform_own(parts, hart);
    parts.nodes[hart as usize].reservation.set(word);
}

fn end_reservation(parts: &mut Parts, hart: u8)
    requires hart { hart < length parts.old.state.views.nodes }
    ensures state { parts.new.state ≡ with_reservation hart None parts.old.state }
    ensures kept { KeepsLists parts.old parts.new }
{
    parts.nodes[hart as usize].reservation.clear();
}

// The number goes to the hart's copy of the word.
fn write(parts: &mut Parts, hart: u8, word: u32, value: u32)
    requires sound { IsSound parts.old.state }
    requires hart { hart < length parts.old.state.views.nodes }
    requires writable { IsWritable hart word parts.old.state }
    ensures state { parts.new.state ≡ writes_word hart word (marks_of_access 0 4) (bytes_of_word value) parts.old.state }
    ensures room { parts.new.room ≡ parts.old.room }
    ensures kept { KeepsLists parts.old parts.new }
{
    let line = parts.config.line.line_of(word);
    parts.nodes[hart as usize]
        .cache
        .write_word(line, word, [true; 4], value.to_le_bytes());
}

fn update(parts: &mut Parts, hart: u8, word: u32, value: u32)
    requires sound { IsSound parts.old.state }
    requires hart { hart < length parts.old.state.views.nodes }
    requires room { 0 < parts.old.room.performed }
    requires writable { IsWritable hart word parts.old.state }
    ensures state { parts.new.state ≡ writes_word hart word (marks_of_access 0 4) (bytes_of_word value) (performs_own hart parts.old.state) }
    ensures kept { KeepsLists parts.old parts.new }
{
    write(parts, hart, word, value);
    perform_own(parts, hart);
}

fn store_conditional(parts: &mut Parts, hart: u8, word: u32, value: u32)
    requires sound { IsSound parts.old.state }
    requires hart { hart < length parts.old.state.views.nodes }
    requires room { 0 < parts.old.room.performed }
    requires writable { IsWritable hart word parts.old.state }
    ensures state { parts.new.state ≡ with_reservation hart None (writes_word hart word (marks_of_access 0 4) (bytes_of_word value) (performs_own hart parts.old.state)) }
    ensures kept { KeepsLists parts.old parts.new }
{
    update(parts, hart, word, value);
    end_reservation(parts, hart);
}
