//! Reading and writing records, each in its one form: the plain form of writes alone, or the full form with flags and kinds.

ghost use Rattle.std.specs.Prelude.{◌≡◌, ◌++◌, ◌||◌, not, length, OnOk};
ghost use Rattle.redo_core.specs.Body.{patches_of};
ghost use Rattle.redo_wire.specs.Outcomes.{Gives};
ghost use Rattle.redo_wire.specs.Records.{IsWireRecord, is_full, is_full_body, head_bytes, body_bytes, record_bytes};
ghost use Rattle.redo_wire.specs.RecordReading.{head_at, record_part_at, record_at};

use crate::faults::{WireError, WireFault};
use crate::fields::{put_u16, put_u48, read_byte, read_u16, read_u48};
use crate::forms::{put_form, put_within, read_form, read_within};
use crate::lists::read_list;
use crate::patches::{PatchList, body_has_fill, has_fill, patch_count, put_patches};
use crate::tags;
use bytes::{BufMut, BytesMut};
use redo_core::{Body, MAX_BYTES, MAX_PATCHES, Patch, Record, RecordFault, RecordHead};
use std::alloc::{AllocError, Global};
use std::mem::size_of;

const PATCH_SIZE: usize = size_of::<Patch>();

// ---- reading

#[tactic(auto, unfolding(crate::specs::RecordReading::head_at))]
fn read_head(bytes: &[u8]) -> Result<(RecordHead, &[u8]), WireError>
    ensures { Gives (λ x. (x.0, x.1.now)) result (head_at bytes.now) }
{
    let (epoch, rest) = read_u16(bytes)?;
    let (number, rest) = read_u48(rest)?;
    if number == 0 {
        return Err(WireError::Fault(WireFault::Shape));
    }
    let (back, rest) = read_u48(rest)?;
    if back >= number {
        return Err(WireError::Fault(WireFault::Shape));
    }
    let (page, rest) = read_u16(rest)?;
    let (block_back, rest) = read_u48(rest)?;
    if block_back > back {
        return Err(WireError::Fault(WireFault::Shape));
    }
    Ok((
        RecordHead {
            epoch,
            number,
            back,
            page,
            block_back,
        },
        rest,
    ))
}

#[tactic(auto, unfolding(crate::specs::RecordReading::record_part_at))]
fn read_record_part(
    alloc: Global,
    is_full: bool,
    bytes: &[u8],
) -> Result<(Record, &[u8]), WireError>
    ensures { Gives (λ x. (x.0, x.1.now)) result (record_part_at is_full bytes.now) }
{
    let (head, rest) = read_head(bytes)?;
    let (flags, rest) = read_within(is_full, 0, 0, 1, rest)?;
    let init = flags == 1;
    let (count, rest) = read_byte(rest)?;
    if count as usize > MAX_PATCHES {
        return Err(WireError::Fault(WireFault::Shape));
    }
    let form = PatchList { is_full };
    let (patches, rest) = read_list(form, MAX_BYTES, PATCH_SIZE, count as usize, alloc, rest)?;
    if !may_have_form(is_full, init, &patches) {
        return Err(WireError::Fault(WireFault::Shape));
    }
    match Record::with(
        head.epoch,
        head.number,
        head.back,
        head.page,
        head.block_back,
        init,
        patches,
    ) {
        Ok(record) => Ok((record, rest)),
        Err(refused) => match refused.fault {
            RecordFault::Shape(_) => Err(WireError::Fault(WireFault::Shape)),
            RecordFault::Memory => Err(WireError::Memory),
        },
    }
}

/// Whether the form may encode this: the full form only what the plain form cannot.
fn may_have_form(is_full: bool, init: bool, patches: &[Patch]) -> bool
    ensures { result ≡ (not is_full || is_full_body init patches.now) }
{
    !is_full || init || has_fill(patches)
}

/// A record with its tag. Another fact's tag is unknown here.
#[tactic(auto, unfolding(crate::specs::RecordReading::record_at))]
pub(crate) fn read_record(alloc: Global, bytes: &[u8]) -> Result<(Record, &[u8]), WireError>
    ensures { Gives (λ x. (x.0, x.1.now)) result (record_at bytes.now) }
{
    let (is_full, rest) = read_form(tags::RECORD, tags::FULL_RECORD, bytes)?;
    read_record_part(alloc, is_full, rest)
}

// ---- writing

/// Whether the full form alone can encode the record.
pub(crate) fn is_full_record(redo: &Record) -> bool
    ensures { result ≡ is_full redo.now }
{
    redo.init() || body_has_fill(&redo.body())
}

fn put_head(out: &mut BytesMut, redo: &Record) -> Result<(), AllocError>
    ensures ok { OnOk result (out.new.items ≡ out.old.items ++ head_bytes redo.now) }
    ensures wire { OnOk result (IsWireRecord redo.now) }
{
    put_u16(out, redo.epoch())?;
    put_u48(out, redo.number())?;
    put_u48(out, redo.back())?;
    put_u16(out, redo.page())?;
    put_u48(out, redo.block_back())?;
    Ok(())
}

fn put_body(out: &mut BytesMut, is_full: bool, redo: &Record) -> Result<(), AllocError>
    ensures { OnOk result (out.new.items ≡ out.old.items ++ body_bytes is_full redo.now) }
{
    let body = redo.body();
    put_within(out, is_full, if redo.init() { 1 } else { 0 })?;
    out.put_u8(patch_count(&body) as u8)?;
    put_patches(out, is_full, &body)?;
    Ok(())
}

/// Appends the record with its tag.
pub(crate) fn put_record(out: &mut BytesMut, redo: &Record) -> Result<(), AllocError>
    ensures ok { OnOk result (out.new.items ≡ out.old.items ++ record_bytes redo.now) }
    ensures wire { OnOk result (IsWireRecord redo.now) }
{
    let is_full = is_full_record(redo);
    put_form(out, tags::RECORD, tags::FULL_RECORD, is_full)?;
    put_head(out, redo)?;
    put_body(out, is_full, redo)?;
    Ok(())
}
