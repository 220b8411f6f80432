//! Calls on messages, which are named by their numbers.

use crate::answer::Answer;
use crate::given;
use crate::keeping::add;
use crate::message_calls::bench::Fixture;
use crate::message_calls::pieces::{finish, format_piece, freeze_all, stage};
use crate::outcomes::{refused, unread};
use bytes::BytesMut;
use case_io::{Row, nth, nth_mut};
use gossip_core::{AbsorbRefusal, absorb, reply, summary};
use redo_wire::{
    Delta, Piece, Summary, decode_delta, decode_piece, decode_summary, encode_delta, encode_summary,
};
use segment_core::{ReadFault, Segment};
use snapshot::Staging;
use std::alloc::{AllocError, Global};

/// The summary that the message of a number encodes.
fn summary_of(alloc: Global, messages: &[BytesMut], number: u64) -> Option<Summary> {
    decode_summary(alloc, nth(messages, number)?.as_slice()).ok()
}

fn delta_of(alloc: Global, messages: &[BytesMut], number: u64) -> Option<Delta> {
    decode_delta(alloc, nth(messages, number)?.as_slice()).ok()
}

fn piece_of(alloc: Global, messages: &[BytesMut], number: u64) -> Option<Piece> {
    decode_piece(alloc, nth(messages, number)?.as_slice()).ok()
}

/// Stores the message that words encode.
fn take_in(messages: &mut Vec<BytesMut>, row: &Row) -> Result<Answer, AllocError> {
    match given::bytes(row.alloc, row.words)? {
        Some(bytes) => add("Message", messages, bytes),
        None => Ok(Answer::Unknown),
    }
}

/// The hexadecimal digits of a message.
fn encode(messages: &[BytesMut], row: &Row) -> Result<Answer, AllocError> {
    match nth(messages, row.number(0)) {
        Some(bytes) => hex::encode(row.alloc, bytes.as_slice()).map(Answer::Text),
        None => Ok(Answer::Unknown),
    }
}

/// The number of truncations, the minimum read point, the number of waiting advances, the base, the number of pages and of records.
fn told_delta(row: &Row, delta: &Delta) -> Result<Answer, AllocError> {
    let book = delta.book();
    let (cuts, min, waits) = (book.cuts().len(), book.min(), book.waits().len());
    let (pages, records) = (delta.pages().len(), delta.records().len());
    Answer::parts(
        row.alloc,
        "Delta",
        &(cuts, min, waits, delta.base(), pages, records),
    )
}

/// The description of a delta or a piece.
fn tell(messages: &[BytesMut], row: &Row) -> Result<Answer, AllocError> {
    if let Some(delta) = delta_of(row.alloc, messages, row.number(0)) {
        return told_delta(row, &delta);
    }
    match piece_of(row.alloc, messages, row.number(0)) {
        Some(piece) => format_piece(row, &piece),
        None => Ok(Answer::Unknown),
    }
}

fn stage_one(
    staging: &mut Staging,
    messages: &[BytesMut],
    row: &Row,
) -> Result<Answer, AllocError> {
    match piece_of(row.alloc, messages, row.number(0)) {
        Some(piece) => stage(staging, piece, row),
        None => Ok(Answer::Unknown),
    }
}

fn ask(segment: &Segment, messages: &mut Vec<BytesMut>, row: &Row) -> Result<Answer, AllocError> {
    let mut bytes = BytesMut::new(row.alloc);
    match encode_summary(&mut bytes, &summary(segment)?) {
        Ok(()) => add("Message", messages, bytes),
        Err(_) => Err(AllocError),
    }
}

/// A segment's summary, or the pieces of its snapshot under a name.
fn send(
    segments: &[Segment],
    messages: &mut Vec<BytesMut>,
    row: &Row,
) -> Result<Answer, AllocError> {
    match nth(segments, row.number(0)) {
        Some(segment) if row.name == "ask" => ask(segment, messages, row),
        Some(segment) => freeze_all(segment, messages, row),
        None => Ok(Answer::Unknown),
    }
}

/// The bytes of a segment's answer to a summary.
fn replied(alloc: Global, segment: &Segment, asked: &Summary) -> Result<BytesMut, ReadFault> {
    let mut bytes = BytesMut::new(alloc);
    match encode_delta(&mut bytes, &reply(segment, asked)?) {
        Ok(()) => Ok(bytes),
        Err(_) => Err(ReadFault::Memory),
    }
}

/// The answer of the segment of a number to the message of another number; None where there is no such segment or summary.
fn answer_of(
    segments: &[Segment],
    messages: &[BytesMut],
    row: &Row,
) -> Option<Result<BytesMut, ReadFault>> {
    let segment = nth(segments, row.number(0))?;
    let asked = summary_of(row.alloc, messages, row.number(1))?;
    Some(replied(row.alloc, segment, &asked))
}

fn keep_answer(
    segments: &[Segment],
    messages: &mut Vec<BytesMut>,
    row: &Row,
) -> Result<Answer, AllocError> {
    match answer_of(segments, messages, row) {
        Some(Ok(bytes)) => add("Message", messages, bytes),
        Some(Err(fault)) => unread(row, fault),
        None => Ok(Answer::Unknown),
    }
}

/// Absorbs the answer of a number, which was made for the question of another number, in a segment.
fn absorbed(
    segments: &mut [Segment],
    messages: &[BytesMut],
    row: &Row,
) -> Option<Result<(), AbsorbRefusal>> {
    let segment = nth_mut(segments, row.number(0))?;
    let asked = summary_of(row.alloc, messages, row.number(1))?;
    absorbed_for(segment, &asked, messages, row)
}

fn absorbed_for(
    segment: &mut Segment,
    asked: &Summary,
    messages: &[BytesMut],
    row: &Row,
) -> Option<Result<(), AbsorbRefusal>> {
    let delta = delta_of(row.alloc, messages, row.number(2))?;
    Some(absorb(segment, asked, &delta))
}

fn told_absorbed(
    row: &Row,
    outcome: Option<Result<(), AbsorbRefusal>>,
) -> Result<Answer, AllocError> {
    match outcome {
        Some(Ok(())) => Ok(Answer::Word("Absorbed")),
        Some(Err(AbsorbRefusal::Uncovered { shown })) => Answer::one(
            row.alloc,
            "Uncovered",
            &shown,
        ),
        Some(Err(AbsorbRefusal::Refused(why))) => refused(row, why),
        None => Ok(Answer::Unknown),
    }
}

/// The answer of a call on messages.
pub fn answer(bench: &mut Fixture, row: &Row) -> Result<Answer, AllocError> {
    match row.name {
        "message" => take_in(&mut bench.messages, row),
        "encode" => encode(&bench.messages, row),
        "tell" => tell(&bench.messages, row),
        "stage" => stage_one(&mut bench.staging, &bench.messages, row),
        "ask" | "freeze" => send(&bench.segments, &mut bench.messages, row),
        "answer" => keep_answer(&bench.segments, &mut bench.messages, row),
        "absorb" => told_absorbed(row, absorbed(&mut bench.segments, &bench.messages, row)),
        "finish" => finish(&bench.staging, &mut bench.segments, row),
        _ => Ok(Answer::Unknown),
    }
}
