//! Bodies of bytes, each kind after its word.

ghost use Rattle.std.specs.Prelude.{◌≡◌, ◌++◌, ◌+◌, ◌≤◌, IfOk, codes, drop, length};
ghost use Rattle.redo_core.specs.declared.facts.Fact.TheVariants as fact;
ghost use Rattle.redo_wire.specs.Facts.{fact_bytes};
ghost use Rattle.redo_wire.specs.Summaries.{summary_bytes, is_long_summary};
ghost use Rattle.redo_wire.specs.Deltas.{delta_bytes, is_long_delta};
ghost use Rattle.redo_wire.specs.Pieces.{piece_bytes, is_long_piece};
ghost use Rattle.node_stream.specs.Asking.{IsInside};
ghost use Rattle.node_stream.specs.Telling.{value_body, window_of};
ghost use Rattle.node_stream.specs.Telling.BodyData.{Raw};
ghost use Rattle.node_stream.specs.Bodies.{HasBody};

use crate::asked::Window;
use crate::bodies::{ReplyBody, too_long};
use bytes::BytesMut;
use redo_core::{Fact, Page, Record};
use redo_wire::{
    Delta, Piece, Summary, WireError, encode_delta, encode_fact, encode_piece, encode_summary,
};
use std::alloc::{AllocError, Global};

/// A word and a space, after which bytes are to follow.
fn begun(alloc: Global, word: &str) -> Result<BytesMut, AllocError>
    ensures { IfOk result (λ b. b.items ≡ word.now ++ codes " ") }
{
    let mut bytes = BytesMut::new(alloc);
    bytes.extend_from_slice(word.as_bytes())?;
    bytes.extend_from_slice(" ".as_bytes())?;
    Ok(bytes)
}

/// The bytes after their word and a space.
fn behind(word: &'static str, bytes: BytesMut) -> Result<ReplyBody, AllocError>
    requires few { length word.now ≤ 100 }
    requires begun { bytes.items ≡ word.now ++ (codes " " ++ drop (length word.now + 1) bytes.items) }
    ensures { IfOk result (λ t. HasBody t (Raw word.now (drop (length word.now + 1) bytes.items))) }
{
    match bytes.into_vec() {
        Ok(bytes) => Ok(ReplyBody::Bytes(word, bytes)),
        Err(_) => Err(AllocError),
    }
}

/// The bytes of a page that the request asks for.
pub fn page(alloc: Global, window: Window, image: &Page) -> Result<ReplyBody, AllocError>
    requires { IsInside window }
    ensures { IfOk result (λ t. HasBody t (Raw (codes "page") (window_of window image.now))) }
{
    let start = usize::from(window.offset);
    let len = usize::from(window.len);
    let mut bytes = begun(alloc, "page")?;
    bytes.extend_from_slice(&image.bytes()[start..start + len])?;
    behind("page", bytes)
}

/// A record as a fact.
pub fn record(alloc: Global, redo: &Record) -> Result<ReplyBody, AllocError>
    ensures { IfOk result (λ t. HasBody t (Raw (codes "record") (fact_bytes (fact.Record redo.now)))) }
{
    let mut bytes = begun(alloc, "record")?;
    encode_fact(&mut bytes, &Fact::Record(redo.copy()?))?;
    behind("record", bytes)
}

#[tactic(auto, using(crate::proofs::Long::values))]
pub fn summary(alloc: Global, summary: &Summary) -> Result<ReplyBody, AllocError>
    ensures { IfOk result (λ t. HasBody t (value_body (codes "summary") (is_long_summary summary.now) (summary_bytes summary.now))) }
{
    let mut bytes = begun(alloc, "summary")?;
    match encode_summary(&mut bytes, summary) {
        Ok(()) => behind("summary", bytes),
        Err(WireError::Memory) => Err(AllocError),
        Err(WireError::Fault(_)) => Ok(ReplyBody::Short(too_long("summary"))),
    }
}

#[tactic(auto, using(crate::proofs::Long::values))]
pub fn delta(alloc: Global, delta: &Delta) -> Result<ReplyBody, AllocError>
    ensures { IfOk result (λ t. HasBody t (value_body (codes "delta") (is_long_delta delta.now) (delta_bytes delta.now))) }
{
    let mut bytes = begun(alloc, "delta")?;
    match encode_delta(&mut bytes, delta) {
        Ok(()) => behind("delta", bytes),
        Err(WireError::Memory) => Err(AllocError),
        Err(WireError::Fault(_)) => Ok(ReplyBody::Short(too_long("delta"))),
    }
}

#[tactic(auto, using(crate::proofs::Long::values))]
pub fn piece(alloc: Global, piece: &Piece) -> Result<ReplyBody, AllocError>
    ensures { IfOk result (λ t. HasBody t (value_body (codes "piece") (is_long_piece piece.now) (piece_bytes piece.now))) }
{
    let mut bytes = begun(alloc, "piece")?;
    match encode_piece(&mut bytes, piece) {
        Ok(()) => behind("piece", bytes),
        Err(WireError::Memory) => Err(AllocError),
        Err(WireError::Fault(_)) => Ok(ReplyBody::Short(too_long("piece"))),
    }
}
