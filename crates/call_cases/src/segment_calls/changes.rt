use crate::answer::Answer;
use crate::given::{fact, give, images, page_of, pages};
use crate::keeping::done;
use crate::outcomes::{committed, discard, fold, taken, tidied};
use crate::segment_calls::bench::Fixture;
use crate::segment_calls::pairs;
use crate::segment_calls::questions::{ShownSegment, show};
use case_io::Row;
use redo_core::Fact;
use segment_core::{Folded, MergeTransaction, Segment};
use std::alloc::AllocError;

/// Commits an image that no fold made: its page, its version and its byte.
fn commit(segment: &mut Segment, row: &Row) -> Result<Answer, AllocError> {
    let folded = Folded {
        page: row.short(0),
        version: row.number(1),
        image: page_of(row.alloc, row.byte(2))?,
    };
    committed(row, segment.commit_fold(folded))
}

fn adopt(segment: &mut Segment, row: &Row, given: &[(u16, u64, u8)]) -> Result<Answer, AllocError> {
    let base = row.number(0);
    let pages = pages(row.alloc, given)?;
    if segment.front().min < base {
        return Ok(Answer::Word("Unfit"));
    }
    done(segment.adopt(base, pages))
}

fn unite(segment: &mut Segment, row: &Row, given: &[(u16, u64, u8)]) -> Result<Answer, AllocError> {
    let base = row.number(0);
    let images = images(row.alloc, given)?;
    if segment.front().min < base {
        return Ok(Answer::Word("Unfit"));
    }
    done(segment.unite(base, row.number(1), images))
}

/// Takes three facts in a merge transaction, and describes the segment then. Drops the transaction, which rolls the segment back.
fn shown_in_union(
    segment: &mut Segment,
    first: Fact,
    second: Fact,
    third: Fact,
) -> Result<ShownSegment, AllocError> {
    let mut saved = segment.savepoint()?;
    let mut union = MergeTransaction::begin(segment, &mut saved);
    let _first = union.take(first);
    let _second = union.take(second);
    let _third = union.take(third);
    show(union.segment())
}

/// Takes three facts in a merge transaction, and drops it: describes the segment before and after the drop.
fn rolled_back(
    segment: &mut Segment,
    row: &Row,
    first: Fact,
    second: Fact,
    third: Fact,
) -> Result<Answer, AllocError> {
    let after = shown_in_union(segment, first, second, third)?;
    Answer::parts(row.alloc, "RolledBack", &(after, show(segment)?))
}

fn roll_back(
    segment: &mut Segment,
    row: &Row,
    noted: &mut Vec<Fact>,
) -> Result<Answer, AllocError> {
    let (third, second, first) = (noted.pop(), noted.pop(), noted.pop());
    match (first, second, third) {
        (Some(first), Some(second), Some(third)) => rolled_back(segment, row, first, second, third),
        _ => Ok(Answer::Word("Unfit")),
    }
}

/// Takes the fact that the test case encodes, where it encodes one.
fn take(bench: &mut Fixture, row: &Row) -> Result<Answer, AllocError> {
    match fact(row, row.name)? {
        Some(fact) => taken(row, bench.segment.take(fact)),
        None => pairs::answer(bench, row),
    }
}

fn note(noted: &mut Vec<Fact>, row: &Row, name: &str) -> Result<Answer, AllocError> {
    match fact(row, name)? {
        Some(fact) => {
            noted.push(fact)?;
            Ok(Answer::Word("Done"))
        }
        None => Ok(Answer::Word("Unfit")),
    }
}

/// The answer of a change of the segment, or of another call.
pub fn answer(bench: &mut Fixture, row: &Row) -> Result<Answer, AllocError> {
    match row.name {
        "fold" => fold(&mut bench.segment, row, row.short(0)),
        "discard" => Ok(discard(&mut bench.segment)),
        "tidy" => tidied(row, bench.segment.tidy()),
        "commit" => commit(&mut bench.segment, row),
        "give" => give(&mut bench.given, row),
        "adopt" => adopt(&mut bench.segment, row, &bench.given),
        "unite" => unite(&mut bench.segment, row, &bench.given),
        "roll_back" => roll_back(&mut bench.segment, row, &mut bench.noted),
        _ => match row.name.strip_prefix("noted_") {
            Some(name) => note(&mut bench.noted, row, name),
            None => take(bench, row),
        },
    }
}
