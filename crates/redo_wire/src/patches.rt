//! Reading and writing the patches of records: writes and fills.

ghost use Rattle.std.specs.Prelude.{◌≡◌, ◌≤◌, ◌+◌, ◌++◌, ◌&&◌, true, false, length, nat_lt, nat_le, OnOk};
ghost use Rattle.std.specs.List.{list_any, flat_map};
ghost use Rattle.redo_core.specs.Data.{plain};
ghost use Rattle.redo_core.specs.Body.{patches_of};
ghost use Rattle.redo_core.specs.declared.patches.Patch.TheVariants.{Bytes, Fill};
ghost use Rattle.redo_core.specs.Shape.{is_off_page, is_patch_off_page, page_len};
ghost use Rattle.redo_wire.specs.Outcomes.{Gives};
ghost use Rattle.redo_wire.specs.Records.{is_fill, write_bytes, patch_bytes};
ghost use Rattle.redo_wire.specs.RecordReading.{write_at, fill_at, patch_at};

use crate::faults::{WireError, WireFault};
use crate::fields::{put_u16, read_byte, read_bytes, read_u16};
use crate::forms::put_within;
use crate::lists::ListReader;
use crate::tags;
use bytes::{BufMut, BytesMut};
use redo_core::{Body, PAGE_LEN, Patch, Write};
use std::alloc::{AllocError, Global};

/// The patches of a record in its plain or its full form, read one after the other.
#[derive(Clone, Copy)]
pub struct PatchList {
    pub is_full: bool,
}

impl ListReader for PatchList {
    ghost use Rattle.redo_wire.specs.RecordReading.{patch_at, left_after};

    type Item = Patch;

    /// How many bytes the writes from here on may have.
    type State = usize;

    ghost step = { λ l. patch_at l.is_full };

    ghost next = { left_after };

    fn read_next(
        self,
        left: usize,
        alloc: Global,
        bytes: &[u8],
    ) -> Result<(Patch, &[u8]), WireError> {
        read_patch(alloc, self.is_full, left, bytes)
    }

    fn state_after(self, left: usize, patch: &Patch) -> usize {
        left.saturating_sub(patch.bytes_in())
    }
}

// ---- reading

#[tactic(auto, unfolding(crate::specs::RecordReading::write_at))]
fn read_write(alloc: Global, left: usize, bytes: &[u8]) -> Result<(Write, &[u8]), WireError>
    ensures { Gives (λ x. (x.0, x.1.now)) result (write_at left bytes.now) }
{
    let (offset, rest) = read_u16(bytes)?;
    let (len, rest) = read_u16(rest)?;
    let len = len as usize;
    if !is_placed(offset, len) {
        return Err(WireError::Fault(WireFault::Shape));
    }
    if len > left {
        return Err(WireError::Fault(WireFault::Shape));
    }
    let (text, rest) = read_bytes(len, rest)?;
    Ok((Write::of_slice(alloc, offset, text)?, rest))
}

/// Whether a range from the offset on is not empty, and ends inside the page.
fn is_placed(offset: u16, len: usize) -> bool
    requires { len ≤ 65535 }
    ensures { result ≡ (nat_lt 0 len && nat_le (offset + len) page_len) }
{
    0 < len && offset as usize + len <= PAGE_LEN
}

#[tactic(auto, unfolding(crate::specs::RecordReading::fill_at))]
fn read_fill(bytes: &[u8]) -> Result<(Patch, &[u8]), WireError>
    ensures { Gives (λ x. (x.0, x.1.now)) result (fill_at bytes.now) }
{
    let (offset, rest) = read_u16(bytes)?;
    let (len, rest) = read_u16(rest)?;
    if !is_placed(offset, len as usize) {
        return Err(WireError::Fault(WireFault::Shape));
    }
    let (byte, rest) = read_byte(rest)?;
    Ok((Patch::Fill { offset, len, byte }, rest))
}

#[tactic(auto, unfolding(crate::specs::RecordReading::patch_at))]
fn read_patch(
    alloc: Global,
    is_full: bool,
    left: usize,
    bytes: &[u8],
) -> Result<(Patch, &[u8]), WireError>
    ensures { Gives (λ x. (x.0, x.1.now)) result (patch_at is_full left bytes.now) }
{
    if !is_full {
        let (write, rest) = read_write(alloc, left, bytes)?;
        return Ok((Patch::Bytes(write), rest));
    }
    let (kind, rest) = read_byte(bytes)?;
    match kind {
        tags::BYTES_KIND => {
            let (write, rest) = read_write(alloc, left, rest)?;
            Ok((Patch::Bytes(write), rest))
        }
        tags::FILL_KIND => read_fill(rest),
        _ => Err(WireError::Fault(WireFault::UnknownTag)),
    }
}

// ---- writing

fn put_write(out: &mut BytesMut, write: &Write) -> Result<(), AllocError>
    requires { write.now.offset + length write.now.bytes ≤ page_len }
    ensures { OnOk result (out.new.items ≡ out.old.items ++ write_bytes write.now) }
{
    put_u16(out, write.offset())?;
    put_u16(out, write.bytes().len() as u16)?;
    out.put_slice(write.bytes())?;
    Ok(())
}

fn put_fill(out: &mut BytesMut, offset: u16, len: u16, byte: u8) -> Result<(), AllocError>
    ensures { OnOk result (out.new.items ≡ out.old.items ++ patch_bytes true (Fill offset len byte)) }
{
    out.put_u8(tags::FILL_KIND)?;
    put_u16(out, offset)?;
    put_u16(out, len)?;
    out.put_u8(byte)?;
    Ok(())
}

fn put_patch(out: &mut BytesMut, is_full: bool, patch: &Patch) -> Result<(), AllocError>
    requires { is_patch_off_page patch.now ≡ false }
    ensures { OnOk result (out.new.items ≡ out.old.items ++ patch_bytes is_full patch.now) }
{
    match patch {
        Patch::Bytes(w) => {
            put_within(out, is_full, tags::BYTES_KIND)?;
            put_write(out, w)
        }
        Patch::Fill { offset, len, byte } => put_fill(out, *offset, *len, *byte),
    }
}

fn put_writes(out: &mut BytesMut, is_full: bool, writes: &[Write]) -> Result<(), AllocError>
    requires { list_any is_off_page writes.now ≡ false }
    ensures { OnOk result (out.new.items ≡ out.old.items ++ flat_map (λ w. patch_bytes is_full (Bytes w)) writes.now) }
{
    for w in writes {
        put_within(out, is_full, tags::BYTES_KIND)?;
        put_write(out, w)?;
    }
    Ok(())
}

fn put_listed(out: &mut BytesMut, is_full: bool, patches: &[Patch]) -> Result<(), AllocError>
    requires { list_any is_patch_off_page patches.now ≡ false }
    ensures { OnOk result (out.new.items ≡ out.old.items ++ flat_map (patch_bytes is_full) patches.now) }
{
    for p in patches {
        put_patch(out, is_full, p)?;
    }
    Ok(())
}

/// Appends the patches of a record, in the plain or the full form; each must be within its page. It fails only if memory runs out: some
/// of the bytes may then be appended.
pub(crate) fn put_patches(out: &mut BytesMut, is_full: bool, body: &Body) -> Result<(), AllocError>
    requires { list_any is_patch_off_page (patches_of body.now) ≡ false }
    ensures { OnOk result (out.new.items ≡ out.old.items ++ flat_map (patch_bytes is_full) (patches_of body.now)) }
{
    match body {
        Body::Writes(writes) => put_writes(out, is_full, writes),
        Body::Patches(patches) => put_listed(out, is_full, patches),
    }
}

// ---- what decides on the form

/// Whether some patch is a fill.
pub(crate) fn has_fill(patches: &[Patch]) -> bool
    ensures { result ≡ list_any is_fill patches.now }
{
    patches.iter().any(|p| match p {
        Patch::Fill { .. } => true,
        _ => false,
    })
}

/// Whether a record's body has a fill, which only the full form can encode.
pub(crate) fn body_has_fill(body: &Body) -> bool
    ensures { result ≡ list_any is_fill (patches_of body.now) }
{
    match body {
        Body::Writes(_) => false,
        Body::Patches(patches) => has_fill(patches),
    }
}

/// How many patches there are.
pub(crate) fn patch_count(body: &Body) -> usize
    ensures { result ≡ length (patches_of body.now) }
{
    match body {
        Body::Writes(writes) => writes.len(),
        Body::Patches(patches) => patches.len(),
    }
}
