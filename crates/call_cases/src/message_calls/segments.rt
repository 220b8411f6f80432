use crate::answer::Answer;
use crate::given::patch;
use crate::keeping::{add, boxed};
use crate::outcomes::{discard, fold, is_same, taken};
use case_io::{Row, nth, nth_mut};
use redo_core::{Fact, Record, RecordHead, Roster};
use segment_core::Segment;
use std::alloc::{AllocError, Global};

/// A record of one byte at the beginning of its page, which no other record writes.
fn link(alloc: Global, number: u16) -> Result<Option<Record>, AllocError> {
    let head = RecordHead {
        epoch: 0,
        number: u64::from(number),
        back: u64::from(number).saturating_sub(1),
        page: number,
        block_back: 0,
    };
    Record::with_one(alloc, head, false, patch(alloc, 0, b'a', 1)?)
}

/// Whether a segment took a record.
fn has_taken(segment: &mut Segment, record: Option<Record>) -> bool {
    match record {
        Some(redo) => segment.take(Fact::Record(redo)).is_ok(),
        None => false,
    }
}

/// Has a segment take the records 1 to `last`, each linked to the one before it and of a page of its own.
fn take_chain(alloc: Global, segment: &mut Segment, last: u16) -> Result<(), AllocError> {
    for before in 0..last {
        if !has_taken(segment, link(alloc, before.saturating_add(1))?) {
            return Err(AllocError);
        }
    }
    Ok(())
}

/// Adds a new segment of the roster.
pub fn add_empty(
    segments: &mut Vec<Segment>,
    roster: Roster,
    row: &Row,
) -> Result<Answer, AllocError> {
    add("Segment", segments, Segment::new(row.alloc, roster)?)
}

/// Adds a segment that took a chain of records.
pub fn add_chain(
    segments: &mut Vec<Segment>,
    roster: Roster,
    row: &Row,
) -> Result<Answer, AllocError> {
    let mut made = boxed(row.alloc, Segment::new(row.alloc, roster))?;
    take_chain(row.alloc, &mut made, row.short(0))?;
    add("Segment", segments, Box::into_inner(made))
}

fn take(segment: &mut Segment, facts: &[Fact], row: &Row) -> Result<Answer, AllocError> {
    match nth(facts, row.number(1)) {
        Some(fact) => taken(row, segment.take(fact.copy()?)),
        None => Ok(Answer::Unknown),
    }
}

/// Changes the segment of a number by a call.
pub fn change(segments: &mut [Segment], facts: &[Fact], row: &Row) -> Result<Answer, AllocError> {
    let Some(segment) = nth_mut(segments, row.number(0)) else {
        return Ok(Answer::Unknown);
    };
    match row.name {
        "take" => take(segment, facts, row),
        "fold" => fold(segment, row, row.short(1)),
        _ => Ok(discard(segment)),
    }
}

/// The answer of a query of the segment of a number.
pub fn look(segments: &[Segment], row: &Row) -> Result<Answer, AllocError> {
    let Some(segment) = nth(segments, row.number(0)) else {
        return Ok(Answer::Unknown);
    };
    match (row.name, nth(segments, row.number(1))) {
        ("front", _) => Answer::one(row.alloc, "Front", &segment.front()),
        ("base", _) => Ok(Answer::Numbered("Base", segment.base_point())),
        ("same", Some(other)) => is_same(row, segment, other),
        _ => Ok(Answer::Unknown),
    }
}
