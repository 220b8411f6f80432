use crate::answer::Answer;
use crate::keeping::{add, or_fault};
use bytes::BytesMut;
use case_io::Row;
use redo_wire::{Piece, PieceContent, WireError, encode_piece};
use segment_core::Segment;
use snapshot::{AddFault, FinishFault, Snapshot, Staging, freeze};
use std::alloc::{AllocError, Global};

fn encoded(alloc: Global, piece: &Piece) -> Result<BytesMut, WireError> {
    let mut bytes = BytesMut::new(alloc);
    encode_piece(&mut bytes, piece)?;
    Ok(bytes)
}

fn put_piece(alloc: Global, pieces: &mut Vec<BytesMut>, piece: &Piece) -> Result<(), AllocError> {
    match encoded(alloc, piece) {
        Ok(bytes) => Ok(pieces.push(bytes)?),
        Err(_) => Err(AllocError),
    }
}

/// Appends the bytes of each piece of a snapshot.
fn put_pieces(
    alloc: Global,
    pieces: &mut Vec<BytesMut>,
    snapshot: &Snapshot,
) -> Result<(), AllocError> {
    for index in 0..snapshot.pieces() {
        put_piece(alloc, pieces, &snapshot.piece(index)?)?;
    }
    Ok(())
}

fn keep_pieces(
    snapshot: &Snapshot,
    messages: &mut Vec<BytesMut>,
    row: &Row,
) -> Result<Answer, AllocError> {
    let mut pieces = Vec::new(row.alloc);
    put_pieces(row.alloc, &mut pieces, snapshot)?;
    messages.append(&mut pieces)?;
    Ok(Answer::Numbered("Pieces", u64::from(snapshot.pieces())))
}

/// Freezes a segment under a name, stores its pieces as messages, all or none, and returns their number.
pub fn freeze_all(
    segment: &Segment,
    messages: &mut Vec<BytesMut>,
    row: &Row,
) -> Result<Answer, AllocError> {
    match freeze(segment, row.number(1)) {
        Ok(snapshot) => keep_pieces(&snapshot, messages, row),
        Err(_) => Err(AllocError),
    }
}

/// The index of a piece, and what it contains: a head its anchor, a page its number, and records their count.
pub fn format_piece(row: &Row, piece: &Piece) -> Result<Answer, AllocError> {
    let (kind, number) = match piece.content() {
        PieceContent::Head { book: _, anchor } => ("Head", *anchor),
        PieceContent::Page(image) => ("Page", u64::from(image.number())),
        PieceContent::Records(batch) => ("Records", batch.records().len() as u64),
    };
    Answer::parts(
        row.alloc,
        "Piece",
        &(piece.index(), piece.total(), kind, number),
    )
}

/// Adds a piece to a staging.
pub fn stage(staging: &mut Staging, piece: Piece, row: &Row) -> Result<Answer, AllocError> {
    match or_fault(staging.add(piece)) {
        Ok(()) => Ok(Answer::Word("Staged")),
        Err(fault) => Answer::refused(row.alloc, "Unstaged", &fault, &AddFault::Memory),
    }
}

/// Makes a segment of the staged pieces, or answers why there is none.
pub fn finish(
    staging: &Staging,
    segments: &mut Vec<Segment>,
    row: &Row,
) -> Result<Answer, AllocError> {
    match staging.finish() {
        Ok(made) => add("Segment", segments, made),
        Err(fault) => Answer::refused(row.alloc, "Unfinished", &fault, &FinishFault::Memory),
    }
}
