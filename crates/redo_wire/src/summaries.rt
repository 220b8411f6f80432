//! Reading and writing summaries.

ghost use Rattle.std.specs.Prelude.{◌≡◌, ◌↔◌, ◌⊎◌, ◌++◌, Bool, ℕ, List, true, false, IfOk, IfErr, OnOk, OnErr, Ok, IsErrOf};
ghost use Rattle.redo_wire.specs.declared.faults.WireError.{WireError};
ghost use Rattle.redo_wire.specs.declared.faults.WireFault.TheVariants.{TooLong};
ghost use Rattle.redo_wire.specs.Outcomes.{Gives, GivesRead};
ghost use Rattle.messages.specs.Summaries.{SummaryData, summary_of};
ghost use Rattle.redo_wire.specs.BookReading.{book_at};
ghost use Rattle.redo_wire.specs.Summaries.{IsWireSummary, is_long_summary, summary_bytes, EncodesSummary};
ghost use Rattle.redo_wire.specs.SummaryReading.{summary_part_at, summary_at, decoded_summary};

use crate::books::{is_long_book, put_book, read_book};
use crate::faults::{WireError, WireFault};
use crate::fields::{put_u32, put_u48, read_u32, read_u48};
use crate::forms::{put_form, read_form};
use crate::keys::KeyList;
use crate::limits::COUNT32_END;
use crate::lists::{put_list, read_list};
use crate::tags;
use bytes::BytesMut;
use messages::{Book, Summary};
use redo_core::Key;
use std::alloc::{AllocError, Global};
use std::mem::size_of;

const KEY_SIZE: usize = size_of::<Key>();

/// The summary that the bytes encode, all of them.
///
/// Errors: the first fault from front to back (never `TooLong`), or `Memory`.
pub fn decode_summary(alloc: Global, bytes: &[u8]) -> Result<Summary, WireError>
    // What is read is what the bytes encode.
    ensures found { IfOk result (λ s. EncodesSummary s bytes.now) }

    // What the bytes encode is read, unless memory runs out.
    ensures encoded { (s : SummaryData) → EncodesSummary s bytes.now → GivesRead result (Ok s) }

    // Which fault is returned where they encode nothing.
    ensures fault { GivesRead result (decoded_summary bytes.now) }
{
    whole_summary(alloc, bytes)
}

/// Appends the one encoding of the summary.
///
/// Errors: `TooLong`, exactly where a list is longer than its count field holds, or `Memory`. Nothing has changed then.
pub fn encode_summary(out: &mut BytesMut, summary: &Summary) -> Result<(), WireError>
    ensures ok { OnOk result (out.new.items ≡ out.old.items ++ summary_bytes summary.now) }
    ensures encoded { OnOk result (EncodesSummary summary.now (summary_bytes summary.now)) }
    ensures err { OnErr result (out.new.items ≡ out.old.items) }
    ensures too_long { IsErrOf result (WireError.Fault TooLong) ↔ (is_long_summary summary.now ≡ true) }
    ensures only { IfErr result (λ e. (e ≡ WireError.Fault TooLong) ⊎ (e ≡ WireError.Memory)) }
{
    if is_long_summary(summary) {
        return Err(WireError::Fault(WireFault::TooLong));
    }
    let mut text = BytesMut::new(*out.allocator());
    put_summary(&mut text, summary)?;
    out.extend_from_slice(text.as_slice())?;
    Ok(())
}

// ---- reading

#[tactic(auto, unfolding(crate::specs::SummaryReading::summary_part_at))]
fn read_summary_part(
    alloc: Global,
    has_many: bool,
    bytes: &[u8],
) -> Result<(Summary, &[u8]), WireError>
    ensures { Gives (λ x. (x.0, x.1.now)) result (summary_part_at has_many bytes.now) }
{
    let (book, rest) = read_book(alloc, has_many, bytes)?;
    let ((anchor, keys), rest) = read_summary_keys(alloc, &book, rest)?;
    Ok((Summary::new(book, anchor, keys), rest))
}

// The anchor and the keys of a summary, after its book.
#[tactic(auto, unfolding(crate::specs::SummaryReading::summary_part_at))]
fn read_summary_keys<'a>(
    alloc: Global,
    book: &Book,
    bytes: &'a [u8],
) -> Result<((u64, Vec<Key>), &'a [u8]), WireError>
    ensures { (many : Bool) (whole : List ℕ) → book_at many whole ≡ Ok (book.now, bytes.now)
        → Gives (λ x. (summary_of book.now x.0.0 x.0.1.items, x.1.now)) result (summary_part_at many whole) }
{
    let (anchor, rest) = read_u48(bytes)?;
    if anchor > book.min() {
        return Err(WireError::Fault(WireFault::Shape));
    }
    let (count, rest) = read_u32(rest)?;
    let (keys, rest) = read_list(
        KeyList,
        Key {
            epoch: 0,
            number: 0,
        },
        KEY_SIZE,
        count as usize,
        alloc,
        rest,
    )?;
    Ok(((anchor, keys), rest))
}

#[tactic(auto, unfolding(crate::specs::SummaryReading::summary_at))]
fn read_summary(alloc: Global, bytes: &[u8]) -> Result<(Summary, &[u8]), WireError>
    ensures { Gives (λ x. (x.0, x.1.now)) result (summary_at bytes.now) }
{
    let (has_many, rest) = read_form(tags::SUMMARY, tags::ROSTER_SUMMARY, bytes)?;
    read_summary_part(alloc, has_many, rest)
}

fn whole_summary(alloc: Global, bytes: &[u8]) -> Result<Summary, WireError>
    ensures { GivesRead result (decoded_summary bytes.now) }
{
    let (summary, rest) = read_summary(alloc, bytes)?;
    if !rest.is_empty() {
        return Err(WireError::Fault(WireFault::Rest));
    }
    Ok(summary)
}

// ---- writing

/// Whether a list is longer than its count field holds.
fn is_long_summary(summary: &Summary) -> bool
    ensures { result ≡ is_long_summary summary.now }
{
    is_long_book(summary.book()) || summary.keys().len() >= COUNT32_END
}

fn put_summary(out: &mut BytesMut, summary: &Summary) -> Result<(), AllocError>
    requires { is_long_summary summary.now ≡ false }
    ensures ok { OnOk result (out.new.items ≡ out.old.items ++ summary_bytes summary.now) }
    ensures wire { OnOk result (IsWireSummary summary.now) }
{
    let book = summary.book();
    let keys = summary.keys();
    put_form(out, tags::SUMMARY, tags::ROSTER_SUMMARY, book.has_many())?;
    put_book(out, book)?;
    put_u48(out, summary.anchor())?;
    put_u32(out, keys.len() as u32)?;
    put_list(KeyList, out, keys)?;
    Ok(())
}
