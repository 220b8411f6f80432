//! Reading and writing deltas.

ghost use Rattle.std.specs.Prelude.{◌≡◌, ◌↔◌, ◌⊎◌, ◌++◌, Bool, ℕ, List, true, false, IfOk, IfErr, OnOk, OnErr, Ok, IsErrOf};
ghost use Rattle.redo_wire.specs.declared.faults.WireError.{WireError};
ghost use Rattle.redo_wire.specs.declared.faults.WireFault.TheVariants.{TooLong};
ghost use Rattle.redo_wire.specs.Outcomes.{Gives, GivesRead};
ghost use Rattle.messages.specs.Deltas.{DeltaData, delta_of};
ghost use Rattle.redo_wire.specs.BookReading.{book_at};
ghost use Rattle.redo_wire.specs.Deltas.{IsWireDelta, is_long_delta, delta_bytes, EncodesDelta};
ghost use Rattle.redo_wire.specs.DeltaReading.{may_have, delta_part_at, delta_at, decoded_delta};

use crate::books::{is_long_book, put_book, read_book};
use crate::faults::{WireError, WireFault};
use crate::fields::{put_u32, put_u48, read_u32, read_u48};
use crate::forms::{put_form, read_form};
use crate::images::ImageList;
use crate::limits::COUNT32_END;
use crate::lists::{put_list, read_list};
use crate::record_lists::{RECORD_SIZE, RecordList};
use crate::tags;
use bytes::BytesMut;
use messages::{Book, Delta, PageImage};
use redo_core::{Key, Record};
use std::alloc::{AllocError, Global};
use std::mem::size_of;

const IMAGE_SIZE: usize = size_of::<PageImage>();

/// The delta that the bytes encode, all of them.
///
/// Errors: the first fault from front to back (never `TooLong`), or `Memory`.
pub fn decode_delta(alloc: Global, bytes: &[u8]) -> Result<Delta, WireError>
    // What is read is what the bytes encode.
    ensures found { IfOk result (λ d. EncodesDelta d bytes.now) }

    // What the bytes encode is read, unless memory runs out.
    ensures encoded { (d : DeltaData) → EncodesDelta d bytes.now → GivesRead result (Ok d) }

    // Which fault is returned where they encode nothing.
    ensures fault { GivesRead result (decoded_delta bytes.now) }
{
    whole_delta(alloc, bytes)
}

/// Appends the one encoding of the delta.
///
/// Errors: `TooLong`, exactly where a list is longer than its count field holds, or `Memory`. Nothing has changed then.
pub fn encode_delta(out: &mut BytesMut, delta: &Delta) -> Result<(), WireError>
    ensures ok { OnOk result (out.new.items ≡ out.old.items ++ delta_bytes delta.now) }
    ensures encoded { OnOk result (EncodesDelta delta.now (delta_bytes delta.now)) }
    ensures err { OnErr result (out.new.items ≡ out.old.items) }
    ensures too_long { IsErrOf result (WireError.Fault TooLong) ↔ (is_long_delta delta.now ≡ true) }
    ensures only { IfErr result (λ e. (e ≡ WireError.Fault TooLong) ⊎ (e ≡ WireError.Memory)) }
{
    if is_long_delta(delta) {
        return Err(WireError::Fault(WireFault::TooLong));
    }
    let mut text = BytesMut::new(*out.allocator());
    put_delta(&mut text, delta)?;
    out.extend_from_slice(text.as_slice())?;
    Ok(())
}

// ---- reading

fn may_have_pages(base: u64, pages: u32) -> bool
    ensures { result ≡ may_have base pages }
{
    0 < base || pages == 0
}

#[tactic(auto, unfolding(crate::specs::DeltaReading::delta_part_at))]
fn read_delta_part(alloc: Global, has_many: bool, bytes: &[u8]) -> Result<(Delta, &[u8]), WireError>
    ensures { Gives (λ x. (x.0, x.1.now)) result (delta_part_at has_many bytes.now) }
{
    let (book, rest) = read_book(alloc, has_many, bytes)?;
    let ((base, pages, records), rest) = read_delta_lists(alloc, &book, rest)?;
    Ok((Delta::new(book, base, pages, records), rest))
}

// The base, the pages and the records of a delta, after its book.
#[tactic(auto, unfolding(crate::specs::DeltaReading::delta_part_at))]
fn read_delta_lists<'a>(
    alloc: Global,
    book: &Book,
    bytes: &'a [u8],
) -> Result<((u64, Vec<PageImage>, Vec<Record>), &'a [u8]), WireError>
    ensures { (many : Bool) (whole : List ℕ) → book_at many whole ≡ Ok (book.now, bytes.now)
        → Gives (λ x. (delta_of book.now x.0.0 x.0.1.items x.0.2.items, x.1.now)) result (delta_part_at many whole) }
{
    let (base, rest) = read_u48(bytes)?;
    if base > book.min() {
        return Err(WireError::Fault(WireFault::Shape));
    }
    let (page_count, rest) = read_u32(rest)?;
    if !may_have_pages(base, page_count) {
        return Err(WireError::Fault(WireFault::Shape));
    }
    let (pages, rest) = read_list(ImageList, 0, IMAGE_SIZE, page_count as usize, alloc, rest)?;
    let (record_count, rest) = read_u32(rest)?;
    let count = record_count as usize;
    let (records, rest) = read_list(
        RecordList,
        Key {
            epoch: 0,
            number: 0,
        },
        RECORD_SIZE,
        count,
        alloc,
        rest,
    )?;
    Ok(((base, pages, records), rest))
}

#[tactic(auto, unfolding(crate::specs::DeltaReading::delta_at))]
fn read_delta(alloc: Global, bytes: &[u8]) -> Result<(Delta, &[u8]), WireError>
    ensures { Gives (λ x. (x.0, x.1.now)) result (delta_at bytes.now) }
{
    let (has_many, rest) = read_form(tags::DELTA, tags::ROSTER_DELTA, bytes)?;
    read_delta_part(alloc, has_many, rest)
}

fn whole_delta(alloc: Global, bytes: &[u8]) -> Result<Delta, WireError>
    ensures { GivesRead result (decoded_delta bytes.now) }
{
    let (delta, rest) = read_delta(alloc, bytes)?;
    if !rest.is_empty() {
        return Err(WireError::Fault(WireFault::Rest));
    }
    Ok(delta)
}

// ---- writing

/// Whether a list is longer than its count field holds.
fn is_long_delta(delta: &Delta) -> bool
    ensures { result ≡ is_long_delta delta.now }
{
    is_long_book(delta.book())
        || delta.pages().len() >= COUNT32_END
        || delta.records().len() >= COUNT32_END
}

fn put_delta(out: &mut BytesMut, delta: &Delta) -> Result<(), AllocError>
    requires { is_long_delta delta.now ≡ false }
    ensures ok { OnOk result (out.new.items ≡ out.old.items ++ delta_bytes delta.now) }
    ensures wire { OnOk result (IsWireDelta delta.now) }
{
    let book = delta.book();
    let pages = delta.pages();
    let records = delta.records();
    put_form(out, tags::DELTA, tags::ROSTER_DELTA, book.has_many())?;
    put_book(out, book)?;
    put_u48(out, delta.base())?;
    put_u32(out, pages.len() as u32)?;
    put_list(ImageList, out, pages)?;
    put_u32(out, records.len() as u32)?;
    put_list(RecordList, out, records)?;
    Ok(())
}
