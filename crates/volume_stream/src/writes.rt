//! From the bytes of a record to the event of a write.

ghost use Rattle.std.specs.Prelude.{◌≡◌, IfOk, map};
ghost use Rattle.redo_core.specs.Data.{plain};
ghost use Rattle.redo_core.specs.Body.{patches_of};
ghost use Rattle.redo_wire.specs.FactReading.{decoded_fact};
ghost use Rattle.volume_stream.specs.EventFrames.{said_by, is_first, write_of, write_in};

use crate::heard::Heard;
use redo_core::{Body, Fact, Patch, Record, Write};
use redo_wire::{WireError, decode_fact};
use std::alloc::{AllocError, Global};
use volume::Event;

/// What the bytes after `write` say: those of a record with number 1, no backlinks and epoch 0. It fails only if memory runs out.
pub(crate) fn write_event(alloc: Global, bytes: &[u8]) -> Result<Heard, AllocError>
    ensures { IfOk result (λ h. said_by h ≡ write_in (decoded_fact bytes.now)) }
{
    match decode_fact(alloc, bytes) {
        Ok(Fact::Record(redo)) => write_of(alloc, &redo),
        Ok(_) => Ok(Heard::Unknown),
        Err(WireError::Memory) => Err(AllocError),
        Err(WireError::Fault(_)) => Ok(Heard::Unknown),
    }
}

fn write_of(alloc: Global, redo: &Record) -> Result<Heard, AllocError>
    ensures { IfOk result (λ h. said_by h ≡ write_of redo.now) }
{
    if !is_first(redo) {
        return Ok(Heard::Unknown);
    }
    Ok(Heard::Event(Event::Write {
        page: redo.page(),
        init: redo.init(),
        patches: copied(alloc, redo.body())?,
    }))
}

/// Whether a record has number 1, no backlinks and epoch 0.
fn is_first(redo: &Record) -> bool
    ensures { result ≡ is_first redo.now }
{
    redo.number() == 1 && redo.back() == 0 && redo.block_back() == 0 && redo.epoch() == 0
}

/// The patches of a record.
fn copied(alloc: Global, body: Body<'_>) -> Result<Vec<Patch>, AllocError>
    ensures { IfOk result (λ v. v.items ≡ patches_of body.entry) }
{
    match body {
        Body::Writes(writes) => of_writes(alloc, writes),
        Body::Patches(patches) => of_patches(alloc, patches),
    }
}

fn of_writes(alloc: Global, writes: &[Write]) -> Result<Vec<Patch>, AllocError>
    ensures { IfOk result (λ v. v.items ≡ plain writes.now) }
{
    let mut patches = Vec::new(alloc);
    for write in writes {
        patches.push(Patch::Bytes(write.copy()?))?;
    }
    Ok(patches)
}

fn of_patches(alloc: Global, listed: &[Patch]) -> Result<Vec<Patch>, AllocError>
    ensures { IfOk result (λ v. v.items ≡ listed.now) }
{
    let mut patches = Vec::new(alloc);
    for patch in listed {
        patches.push(patch.copy()?)?;
    }
    Ok(patches)
}
