//! The decoders and encoders of the wire.

use crate::answer::Answer;
use crate::given;
use bytes::BytesMut;
use case_io::Row;
use redo_wire::{
    Book, PieceContent, WireError, WireValue, decode_delta, decode_fact, decode_piece,
    decode_summary, decode_value, encode_delta, encode_fact, encode_piece, encode_summary,
};
use script_text::fact_text;
use std::alloc::{AllocError, Global};

// 0 for a value, else the fault's number.
fn outcome<T: Drop>(decoded: Result<T, WireError>) -> Result<u64, AllocError> {
    match decoded {
        Ok(_) => Ok(0),
        Err(WireError::Memory) => Err(AllocError),
        Err(WireError::Fault(fault)) => Ok(u64::from(fault.number())),
    }
}

fn judged(row: &Row, bytes: &[u8]) -> Result<u64, AllocError> {
    match row.name {
        "F" => outcome(decode_fact(row.alloc, bytes)),
        "S" => outcome(decode_summary(row.alloc, bytes)),
        "D" => outcome(decode_delta(row.alloc, bytes)),
        "P" => outcome(decode_piece(row.alloc, bytes)),
        _ => outcome(decode_value(row.alloc, bytes)),
    }
}

// Appends the value's bytes; of a delta those of its copy.
fn put(out: &mut BytesMut, value: &WireValue) -> Result<(), WireError> {
    match value {
        WireValue::Fact(fact) => Ok(encode_fact(out, fact)?),
        WireValue::Summary(summary) => encode_summary(out, summary),
        WireValue::Delta(delta) => encode_delta(out, &delta.copy()?),
        WireValue::Piece(piece) => encode_piece(out, piece),
    }
}

fn encoded(alloc: Global, value: &WireValue) -> Result<BytesMut, WireError> {
    let mut out = BytesMut::new(alloc);
    put(&mut out, value)?;
    Ok(out)
}

// Whether the value's encoding is the same again, and how long that is.
fn again(row: &Row, bytes: &[u8], value: &WireValue) -> Result<Answer, AllocError> {
    match encoded(row.alloc, value) {
        Ok(out) => Answer::parts(row.alloc, "Again", &(out.as_slice() == bytes, out.len())),
        Err(error) => fault(row.alloc, error),
    }
}

fn fault(alloc: Global, error: WireError) -> Result<Answer, AllocError> {
    match error {
        WireError::Memory => Err(AllocError),
        WireError::Fault(fault) => fault.to_string(alloc).map(Answer::Text),
    }
}

// The book of a value and its anchor or base; none of others.
fn book_of(value: &WireValue) -> Option<(&Book, u64)> {
    match value {
        WireValue::Summary(summary) => Some((summary.book(), summary.anchor())),
        WireValue::Delta(delta) => Some((delta.book(), delta.base())),
        WireValue::Piece(piece) => match piece.content() {
            PieceContent::Head { book, anchor } => Some((book, *anchor)),
            _ => None,
        },
        WireValue::Fact(_) => None,
    }
}

// The number of truncations, the complete epoch, the points, the number of waiting advances, and the minimum; then the anchor or base.
fn told_book(row: &Row, book: &Book, anchor: u64) -> Result<Answer, AllocError> {
    let (cuts, complete, points) = (book.cuts().len(), book.complete(), book.points());
    let (waits, min) = (book.waits().len(), book.min());
    Answer::parts(
        row.alloc,
        "Book",
        &(cuts, complete, points, waits, min, anchor),
    )
}

// The value's encoding, or else a fact's line, or the numbers of a value's book.
fn of_value(row: &Row, bytes: &[u8], value: &WireValue) -> Result<Answer, AllocError> {
    if row.name == "again" {
        return again(row, bytes, value);
    }
    if let WireValue::Fact(fact) = value {
        return fact_text(row.alloc, fact).map(Answer::Text);
    }
    match book_of(value) {
        Some((book, anchor)) => told_book(row, book, anchor),
        None => Ok(Answer::Word("NoBook")),
    }
}

fn read(row: &Row, bytes: &[u8]) -> Result<Answer, AllocError> {
    match decode_value(row.alloc, bytes) {
        Ok(value) => of_value(row, bytes, &value),
        Err(error) => fault(row.alloc, error),
    }
}

// How many proper prefixes of the bytes are rejected as too short.
fn beginnings(alloc: Global, bytes: &[u8]) -> Result<u64, AllocError> {
    let mut count: u64 = 0;
    for len in 0..bytes.len() {
        if outcome(decode_value(alloc, &bytes[..len]))? == 1 {
            count = count.saturating_add(1);
        }
    }
    Ok(count)
}

fn of_bytes(row: &Row, bytes: &[u8]) -> Result<Answer, AllocError> {
    match row.name {
        "again" | "read" => read(row, bytes),
        "beginnings" => beginnings(row.alloc, bytes).map(Answer::Number),
        _ => judged(row, bytes).map(Answer::Number),
    }
}

/// The answer of a call of the decoders.
pub fn answer(row: &Row) -> Result<Answer, AllocError> {
    match given::bytes(row.alloc, row.words)? {
        Some(bytes) => of_bytes(row, bytes.as_slice()),
        None => Ok(Answer::Unknown),
    }
}
