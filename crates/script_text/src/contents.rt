//! What a record does to its page: the text after the numbers of its line.

ghost use Rattle.std.specs.Prelude.{true, ◌≡◌, ◌≤◌, ◌<◌, ◌*◌, [], ◌∷◌, length, slice_get, Some, None, IfOk, IfErr, option_map};
ghost use Rattle.std.specs.Fmt.{decimal};
ghost use Rattle.redo_core.specs.Shape.{max_patches};
ghost use Rattle.text.specs.Parts.{parts_at};
ghost use Rattle.text.specs.Fields.{field_of};
ghost use Rattle.script_text.specs.FactLine.{write_of, fill_of, patch_of, each_patch, contents, contents_of, record_of_patches, record_of_contents};
ghost use Rattle.script_text.specs.ContentsReasons.{IsListReason};
ghost use Rattle.script_text.specs.FactReasons.{IsShape, fault_with, IsPatchesReason, IsBodyReason};
ghost use Rattle.script_text.specs.LineReasons.{IfBad};

use crate::field_reasons::count_parts;
use crate::patch_reasons::patch_fault;
use crate::reasons::{FactError, LineReason};
use redo_core::{Fact, MAX_PATCHES, Patch, Record, RecordFault, RecordHead, Write};
use std::alloc::{AllocError, Global};
use text::limits::{PAGE, SHORT};
use text::{decoded, first_part, is_word, number_before, put_bytes, read_number};

/// So many bytes stand in a write itself, with no memory of their own.
const SHORT_WRITE: usize = 16;

/// The patch of at most so many bytes from an offset on.
#[tactic(auto, using(text::proofs::Numbers::decimal_is_read))]
fn short_write(alloc: Global, offset: u16, digits: &[u8]) -> Result<Option<Patch>, AllocError>
    requires { length digits.now ≤ 2 * SHORT_WRITE }
    ensures { IfOk result (λ o. o ≡ write_of (decimal offset) digits.now) }
{
    let mut room = [0u8; SHORT_WRITE];
    let bytes = &mut room[..digits.len() / 2];
    if !put_bytes(digits, bytes) || bytes.is_empty() {
        return Ok(None);
    }
    let write = Write::of_slice(alloc, offset, bytes)?;
    Ok(Some(Patch::Bytes(write)))
}

/// The patch of any number of bytes from an offset on.
#[tactic(auto, using(text::proofs::Numbers::decimal_is_read))]
fn long_write(alloc: Global, offset: u16, digits: &[u8]) -> Result<Option<Patch>, AllocError>
    ensures { IfOk result (λ o. o ≡ write_of (decimal offset) digits.now) }
{
    let Some(bytes) = decoded(alloc, digits)? else {
        return Ok(None);
    };
    if bytes.is_empty() {
        return Ok(None);
    }
    Ok(Some(Patch::Bytes(Write::new(offset, bytes))))
}

/// The patch of the bytes that digits stand for, from an offset on.
fn write(alloc: Global, offset: u16, digits: &[u8]) -> Result<Option<Patch>, AllocError>
    ensures { IfOk result (λ o. o ≡ write_of (decimal offset) digits.now) }
{
    if digits.len() <= 2 * SHORT_WRITE {
        short_write(alloc, offset, digits)
    } else {
        long_write(alloc, offset, digits)
    }
}

/// The patch of the one byte that digits stand for, from an offset on over a length.
fn fill(offset: &[u8], len: &[u8], digits: &[u8]) -> Option<Patch>
    ensures { result ≡ fill_of offset.now len.now digits.now }
{
    if digits.len() != 2 {
        return None;
    }
    let mut byte = [0u8; 1];
    if !put_bytes(digits, &mut byte) {
        return None;
    }
    let offset = read_number(offset, SHORT)?;
    let len = read_number(len, PAGE)?;
    Some(Patch::Fill {
        offset: offset as u16,
        len: len as u16,
        byte: byte[0],
    })
}

/// The offset in front of the first colon, and what stands behind it, where the place is a number alone.
#[inline]
fn offset_before(text: &[u8]) -> Option<(u16, &[u8])>
    ensures { option_map (λ p. (p.0, parts_at 58 p.1.now)) result ≡ field_of 65535 (parts_at 58 text.now) }
{
    let (offset, rest) = number_before(text, SHORT)?;
    match rest {
        [b':', digits @ ..] => Some((offset as u16, digits)),
        _ => None,
    }
}

/// The patch that a place and hexadecimal digits encode; None where they encode none. It fails only if memory runs out.
#[tactic(auto, using(crate::proofs::RecordContents::write_is, crate::proofs::RecordContents::no_place), unfolding(crate::specs::FactLine::patch_from))]
fn patch(alloc: Global, text: &[u8]) -> Result<Option<Patch>, AllocError>
    ensures { IfOk result (λ o. o ≡ patch_of text.now) }
{
    // Most patches are writes, and no search is needed for where their place ends.
    if let Some((offset, digits)) = offset_before(text) {
        return write(alloc, offset, digits);
    }
    // What is left is a fill, since no place without a star is a number here. A second colon is no digit, and a second star none of a
    // number.
    let Some((place, digits)) = first_part(text, b':') else {
        return Ok(None);
    };
    match first_part(place, b'*') {
        None => Ok(None),
        Some((offset, len)) => Ok(fill(offset, len, digits)),
    }
}

/// Why a list of patches is wrong whose first wrong one is this, after so many others.
fn list_reason(
    alloc: Global,
    list: &[u8],
    before: usize,
    text: &[u8],
) -> Result<LineReason, AllocError>
    requires place { slice_get (parts_at 44 list.now) before ≡ Some text.now }
    requires wrong { before < max_patches → patch_of text.now ≡ None }
    ensures { IfOk result (IsListReason (parts_at 44 list.now)) }
{
    if count_parts(list, b',') > MAX_PATCHES {
        return Ok(LineReason::ManyPatches);
    }
    let fault = patch_fault(alloc, text)?;
    Ok(LineReason::Patch {
        at: before + 1,
        fault,
    })
}

/// The patch of a list after so many others; or why the list is wrong, also where a record has no more.
fn next_patch(alloc: Global, list: &[u8], before: usize, text: &[u8]) -> Result<Patch, FactError>
    requires { slice_get (parts_at 44 list.now) before ≡ Some text.now }
    ensures patch { IfOk result (λ p. patch_of text.now ≡ Some p) }
    ensures reason { IfErr result (IfBad (IsListReason (parts_at 44 list.now))) }
{
    if before >= MAX_PATCHES {
        return Err(FactError::Bad(list_reason(alloc, list, before, text)?));
    }
    match patch(alloc, text)? {
        Some(patch) => Ok(patch),
        None => Err(FactError::Bad(list_reason(alloc, list, before, text)?)),
    }
}

/// The patches between commas; or why they are none, also where there are more than a record has.
fn each_patch(alloc: Global, list: &[u8]) -> Result<Vec<Patch>, FactError>
    ensures patches { IfOk result (λ v. each_patch (parts_at 44 list.now) ≡ Some v.items) }
    ensures reason { IfErr result (IfBad (IsListReason (parts_at 44 list.now))) }
{
    let mut patches = Vec::with_capacity(alloc, 2)?;
    let mut rest = list;
    while let Some((piece, behind)) = first_part(rest, b',') {
        let next = next_patch(alloc, list, patches.len(), piece)?;
        patches.push(next)?;
        rest = behind;
    }
    let last = next_patch(alloc, list, patches.len(), rest)?;
    patches.push(last)?;
    Ok(patches)
}

/// The record of a list of patches, or the fault of its shape.
#[tactic(auto, unfolding(crate::specs::FactLine::shaped))]
fn of_list(head: RecordHead, init: bool, patches: Vec<Patch>) -> Result<Fact, FactError>
    ensures fact { IfOk result (λ f. record_of_patches head init (Some patches.items) ≡ Some f) }
    ensures reason { IfErr result (IfBad (IsShape (fault_with head (contents init patches.items)))) }
{
    let RecordHead {
        epoch,
        number,
        back,
        page,
        block_back,
    } = head;
    match Record::with(epoch, number, back, page, block_back, init, patches) {
        Ok(redo) => Ok(Fact::Record(redo)),
        Err(refused) => match refused.fault {
            RecordFault::Shape(fault) => Err(FactError::Bad(LineReason::Shape(fault))),
            RecordFault::Memory => Err(FactError::Memory),
        },
    }
}

/// The same of one patch.
fn of_listed(alloc: Global, head: RecordHead, init: bool, text: &[u8]) -> Result<Fact, FactError>
    ensures fact { IfOk result (λ f. record_of_patches head init (each_patch (text.now ∷ [])) ≡ Some f) }
    ensures reason { IfErr result (IfBad (IsPatchesReason head init (text.now ∷ []))) }
{
    let Some(patch) = patch(alloc, text)? else {
        let fault = patch_fault(alloc, text)?;
        return Err(FactError::Bad(LineReason::Patch { at: 1, fault }));
    };
    of_list(head, init, vec![in alloc; patch]?)
}

/// The record of one patch, with no list unless it has a fault.
#[tactic(auto, unfolding(crate::specs::FactLine::shaped))]
fn of_one(alloc: Global, head: RecordHead, init: bool, text: &[u8]) -> Result<Fact, FactError>
    ensures fact { IfOk result (λ f. record_of_patches head init (each_patch (text.now ∷ [])) ≡ Some f) }
    ensures reason { IfErr result (IfBad (IsPatchesReason head init (text.now ∷ []))) }
{
    let Some(patch) = patch(alloc, text)? else {
        return of_listed(alloc, head, init, text);
    };
    match Record::with_one(alloc, head, init, patch)? {
        Some(redo) => Ok(Fact::Record(redo)),
        None => of_listed(alloc, head, init, text),
    }
}

/// The record of patches between commas.
fn of_many(alloc: Global, head: RecordHead, init: bool, text: &[u8]) -> Result<Fact, FactError>
    ensures fact { IfOk result (λ f. record_of_patches head init (each_patch (parts_at 44 text.now)) ≡ Some f) }
    ensures reason { IfErr result (IfBad (IsPatchesReason head init (parts_at 44 text.now))) }
{
    let patches = each_patch(alloc, text)?;
    of_list(head, init, patches)
}

/// The record whose page begins anew, with one patch or more.
fn anew(alloc: Global, head: RecordHead, text: &[u8]) -> Result<Fact, FactError>
    ensures fact { IfOk result (λ f. record_of_patches head true (each_patch (parts_at 44 text.now)) ≡ Some f) }
    ensures reason { IfErr result (IfBad (IsPatchesReason head true (parts_at 44 text.now))) }
{
    match first_part(text, b',') {
        None => of_one(alloc, head, true, text),
        Some(_) => of_many(alloc, head, true, text),
    }
}

/// The record of contents with no comma.
#[tactic(auto, unfolding(crate::specs::FactLine::contents_of, crate::specs::FactLine::contents_from))]
fn of_word(alloc: Global, head: RecordHead, text: &[u8]) -> Result<Fact, FactError>
    requires { parts_at 44 text.now ≡ text.now ∷ [] }
    ensures fact { IfOk result (λ f. record_of_contents head (contents_of text.now) ≡ Some f) }
    ensures reason { IfErr result (IfBad (IsBodyReason head text.now)) }
{
    if is_word(text, b"-") {
        of_list(head, false, Vec::new(alloc))
    } else if is_word(text, b"init") {
        of_list(head, true, Vec::new(alloc))
    } else {
        of_one(alloc, head, false, text)
    }
}

/// The record of these numbers and contents: a dash for no patches, and else patches between commas, after the word `init` or without
/// it. Or why the contents, or the record's shape, are wrong.
pub(crate) fn record_of(alloc: Global, head: RecordHead, text: &[u8]) -> Result<Fact, FactError>
    ensures fact { IfOk result (λ f. record_of_contents head (contents_of text.now) ≡ Some f) }
    ensures reason { IfErr result (IfBad (IsBodyReason head text.now)) }
{
    let Some((front, behind)) = first_part(text, b',') else {
        return of_word(alloc, head, text);
    };
    if is_word(front, b"init") {
        anew(alloc, head, behind)
    } else {
        of_many(alloc, head, false, text)
    }
}
