//! Reading and writing pieces.

ghost use Rattle.std.specs.Prelude.{◌≡◌, ◌≤◌, ◌↔◌, ◌⊎◌, ◌++◌, ◌&&◌, ◌∷◌, [], true, false, length, nat_lt, nat_le, IfOk, IfErr, OnOk, OnErr, Ok, IsErrOf};
ghost use Rattle.std.specs.List.{AllByRecursion, flat_map};
ghost use Rattle.redo_wire.specs.declared.faults.WireError.{WireError};
ghost use Rattle.redo_wire.specs.declared.faults.WireFault.TheVariants.{TooLong};
ghost use Rattle.redo_wire.specs.Reading.{known};
ghost use Rattle.redo_wire.specs.Fields.{byte_at, u48};
ghost use Rattle.redo_wire.specs.Outcomes.{Gives, GivesRead};
ghost use Rattle.redo_wire.specs.Records.{IsWireRecord, record_bytes};
ghost use Rattle.messages.specs.Books.{has_many};
ghost use Rattle.messages.specs.Pieces.{PieceData, IsContent, max_batch};
ghost use Rattle.redo_wire.specs.Books.{IsWireBook, is_long_book, book_bytes};
ghost use Rattle.redo_wire.specs.Pieces.{IsWireContent, IsWirePiece, kind_of, is_for_many, is_long_content, is_long_piece, content_bytes, piece_bytes, EncodesPiece};
ghost use Rattle.redo_wire.specs.PieceReading.{last_kind, is_in_place, head_content_at, records_content_at, content_at, piece_part_at, piece_at, decoded_piece};

use crate::books::{is_long_book, put_book, read_book};
use crate::faults::{WireError, WireFault};
use crate::fields::{put_u32, put_u48, put_u64, read_byte, read_u32, read_u48, read_u64};
use crate::forms::{put_form, read_form};
use crate::images::{ImageList, read_image};
use crate::lists::{ListWriter, put_list, read_list};
use crate::record_lists::{RECORD_SIZE, RecordList};
use crate::tags;
use bytes::{BufMut, BytesMut};
use messages::{Book, MAX_BATCH, Piece, PieceContent, RecordBatch};
use redo_core::{Key, Record};
use std::alloc::{AllocError, Global};

/// The piece that the bytes encode, all of them.
///
/// Errors: the first fault from front to back (never `TooLong`), or `Memory`.
pub fn decode_piece(alloc: Global, bytes: &[u8]) -> Result<Piece, WireError>
    // What is read is what the bytes encode.
    ensures found { IfOk result (λ p. EncodesPiece p bytes.now) }

    // What the bytes encode is read, unless memory runs out.
    ensures encoded { (p : PieceData) → EncodesPiece p bytes.now → GivesRead result (Ok p) }

    // Which fault is returned where they encode nothing.
    ensures fault { GivesRead result (decoded_piece bytes.now) }
{
    whole_piece(alloc, bytes)
}

/// Appends the one encoding of the piece.
///
/// Errors: `TooLong`, exactly where a list is longer than its count field holds, or `Memory`. Nothing has changed then.
pub fn encode_piece(out: &mut BytesMut, piece: &Piece) -> Result<(), WireError>
    ensures ok { OnOk result (out.new.items ≡ out.old.items ++ piece_bytes piece.now) }
    ensures encoded { OnOk result (EncodesPiece piece.now (piece_bytes piece.now)) }
    ensures err { OnErr result (out.new.items ≡ out.old.items) }
    ensures too_long { IsErrOf result (WireError.Fault TooLong) ↔ (is_long_piece piece.now ≡ true) }
    ensures only { IfErr result (λ e. (e ≡ WireError.Fault TooLong) ⊎ (e ≡ WireError.Memory)) }
{
    if is_long_content(piece.content()) {
        return Err(WireError::Fault(WireFault::TooLong));
    }
    let mut text = BytesMut::new(*out.allocator());
    put_piece(&mut text, piece)?;
    out.extend_from_slice(text.as_slice())?;
    Ok(())
}

// ---- reading

#[tactic(auto, unfolding(crate::specs::PieceReading::head_content_at))]
fn read_head_content(
    alloc: Global,
    has_many: bool,
    bytes: &[u8],
) -> Result<(PieceContent, &[u8]), WireError>
    ensures { Gives (λ x. (x.0, x.1.now)) result (head_content_at has_many bytes.now) }
{
    let (book, rest) = read_book(alloc, has_many, bytes)?;
    let (anchor, rest) = read_u48(rest)?;
    if anchor > book.min() {
        return Err(WireError::Fault(WireFault::Shape));
    }
    Ok((PieceContent::Head { book, anchor }, rest))
}

/// Whether a piece may have this many records.
fn is_batch_size(count: usize) -> bool
    ensures { result ≡ (nat_lt 0 count && nat_le count max_batch) }
{
    0 < count && count <= MAX_BATCH
}

#[tactic(auto, unfolding(crate::specs::PieceReading::records_content_at))]
fn read_records_content(alloc: Global, bytes: &[u8]) -> Result<(PieceContent, &[u8]), WireError>
    ensures { Gives (λ x. (x.0, x.1.now)) result (records_content_at bytes.now) }
{
    let (count, rest) = read_byte(bytes)?;
    let count = count as usize;
    if !is_batch_size(count) {
        return Err(WireError::Fault(WireFault::Shape));
    }
    let (records, rest) = read_list(
        RecordList,
        Key {
            epoch: 0,
            number: 0,
        },
        RECORD_SIZE,
        count,
        alloc,
        rest,
    )?;
    Ok((PieceContent::Records(RecordBatch::new(records)), rest))
}

/// What a piece of a kind contains.
#[tactic(auto, unfolding(crate::specs::PieceReading::content_at))]
fn read_content(
    alloc: Global,
    has_many: bool,
    kind: u8,
    bytes: &[u8],
) -> Result<(PieceContent, &[u8]), WireError>
    ensures { Gives (λ x. (x.0, x.1.now)) result (content_at has_many kind bytes.now) }
{
    match kind {
        tags::HEAD_KIND => read_head_content(alloc, has_many, bytes),
        tags::PAGE_KIND => match read_image(alloc, bytes) {
            Ok((image, rest)) => Ok((PieceContent::Page(image), rest)),
            Err(e) => Err(e),
        },
        _ => read_records_content(alloc, bytes),
    }
}

/// The last of the kinds. For several readers there are heads alone.
fn last_kind_of(has_many: bool) -> u8
    ensures { result ≡ last_kind has_many }
{
    if has_many {
        tags::HEAD_KIND
    } else {
        tags::RECORDS_KIND
    }
}

fn read_kind(has_many: bool, bytes: &[u8]) -> Result<(u8, &[u8]), WireError>
    ensures { Gives (λ x. (x.0, x.1.now)) result (known (λ k. nat_le k (last_kind has_many)) (byte_at bytes.now)) }
{
    let (kind, rest) = read_byte(bytes)?;
    if kind > last_kind_of(has_many) {
        return Err(WireError::Fault(WireFault::UnknownTag));
    }
    Ok((kind, rest))
}

/// Whether a piece of the index may have the kind.
fn may_stand(index: u32, kind: u8) -> bool
    ensures { result ≡ is_in_place index kind }
{
    if index == 0 {
        kind == tags::HEAD_KIND
    } else {
        kind != tags::HEAD_KIND
    }
}

#[tactic(auto, unfolding(crate::specs::PieceReading::piece_part_at))]
fn read_piece_part(alloc: Global, has_many: bool, bytes: &[u8]) -> Result<(Piece, &[u8]), WireError>
    ensures { Gives (λ x. (x.0, x.1.now)) result (piece_part_at has_many bytes.now) }
{
    let (name, rest) = read_u64(bytes)?;
    let (index, rest) = read_u32(rest)?;
    let (total, rest) = read_u32(rest)?;
    if index >= total {
        return Err(WireError::Fault(WireFault::Shape));
    }
    let (kind, rest) = read_kind(has_many, rest)?;
    if !may_stand(index, kind) {
        return Err(WireError::Fault(WireFault::Shape));
    }
    let (content, rest) = read_content(alloc, has_many, kind, rest)?;
    Ok((Piece::new(name, index, total, content), rest))
}

#[tactic(auto, unfolding(crate::specs::PieceReading::piece_at))]
fn read_piece(alloc: Global, bytes: &[u8]) -> Result<(Piece, &[u8]), WireError>
    ensures { Gives (λ x. (x.0, x.1.now)) result (piece_at bytes.now) }
{
    let (has_many, rest) = read_form(tags::PIECE, tags::ROSTER_PIECE, bytes)?;
    read_piece_part(alloc, has_many, rest)
}

fn whole_piece(alloc: Global, bytes: &[u8]) -> Result<Piece, WireError>
    ensures { GivesRead result (decoded_piece bytes.now) }
{
    let (piece, rest) = read_piece(alloc, bytes)?;
    if !rest.is_empty() {
        return Err(WireError::Fault(WireFault::Rest));
    }
    Ok(piece)
}

// ---- writing

fn is_long_content(content: &PieceContent) -> bool
    ensures { result ≡ is_long_content content.now }
{
    match content {
        PieceContent::Head { book, anchor: _ } => is_long_book(book),
        PieceContent::Page(_) => false,
        PieceContent::Records(_) => false,
    }
}

/// Whether the content has the form for several readers.
fn is_of_many(content: &PieceContent) -> bool
    ensures { result ≡ is_for_many content.now }
{
    match content {
        PieceContent::Head { book, anchor: _ } => book.has_many(),
        PieceContent::Page(_) => false,
        PieceContent::Records(_) => false,
    }
}

fn kind_tag(content: &PieceContent) -> u8
    ensures { result ≡ kind_of content.now }
{
    match content {
        PieceContent::Head { book: _, anchor: _ } => tags::HEAD_KIND,
        PieceContent::Page(_) => tags::PAGE_KIND,
        PieceContent::Records(_) => tags::RECORDS_KIND,
    }
}

fn put_head(out: &mut BytesMut, book: &Book, anchor: u64) -> Result<(), AllocError>
    requires { is_long_book book.now ≡ false }
    ensures ok { OnOk result (out.new.items ≡ out.old.items ++ (book_bytes (has_many book.now) book.now ++ u48 anchor)) }
    ensures wire { OnOk result (IsWireBook book.now) }
{
    put_book(out, book)?;
    put_u48(out, anchor)?;
    Ok(())
}

fn put_batch(out: &mut BytesMut, records: &[Record]) -> Result<(), AllocError>
    requires { length records.now ≤ max_batch }
    ensures ok { OnOk result (out.new.items ≡ out.old.items ++ ((length records.now ∷ []) ++ flat_map record_bytes records.now)) }
    ensures wire { OnOk result (AllByRecursion IsWireRecord records.now) }
{
    out.put_u8(records.len() as u8)?;
    put_list(RecordList, out, records)?;
    Ok(())
}

fn put_content(out: &mut BytesMut, content: &PieceContent) -> Result<(), AllocError>
    requires shape { IsContent content.now }
    requires short { is_long_content content.now ≡ false }
    ensures ok { OnOk result (out.new.items ≡ out.old.items ++ content_bytes (is_for_many content.now) content.now) }
    ensures wire { OnOk result (IsWireContent content.now) }
{
    match content {
        PieceContent::Head { book, anchor } => put_head(out, book, *anchor),
        PieceContent::Page(image) => ImageList.put(out, image),
        PieceContent::Records(batch) => put_batch(out, batch.records()),
    }
}

fn put_piece(out: &mut BytesMut, piece: &Piece) -> Result<(), AllocError>
    requires { is_long_piece piece.now ≡ false }
    ensures ok { OnOk result (out.new.items ≡ out.old.items ++ piece_bytes piece.now) }
    ensures wire { OnOk result (IsWirePiece piece.now) }
{
    let content = piece.content();
    put_form(out, tags::PIECE, tags::ROSTER_PIECE, is_of_many(content))?;
    put_u64(out, piece.name())?;
    put_u32(out, piece.index())?;
    put_u32(out, piece.total())?;
    out.put_u8(kind_tag(content))?;
    put_content(out, content)?;
    Ok(())
}
