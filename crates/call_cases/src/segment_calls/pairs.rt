use crate::answer::Answer;
use crate::outcomes::{is_same, refused};
use crate::segment_calls::bench::Fixture;
use crate::segment_calls::questions;
use case_io::Row;
use redo_core::{Key, Record};
use segment_core::{Segment, kept_of};
use segment_join::{covers, join, same};
use std::alloc::{AllocError, Global};

/// Whether the one covers the other, the other the one, and whether they mean the same.
fn compare(one: &Segment, other: &Segment, row: &Row) -> Result<Answer, AllocError> {
    Answer::parts(
        row.alloc,
        "Compared",
        &(covers(one, other), covers(other, one), same(one, other)),
    )
}

fn joined(segment: &mut Segment, other: &Segment, row: &Row) -> Result<Answer, AllocError> {
    match join(segment, other) {
        Ok(()) => Ok(Answer::Word("Done")),
        Err(why) => refused(row, why),
    }
}

fn keys_of(alloc: Global, records: &[&Record]) -> Result<Vec<Key>, AllocError> {
    let mut keys = Vec::new(alloc);
    for redo in records {
        keys.push(redo.key())?;
    }
    Ok(keys)
}

fn kept(segment: &Segment, row: &Row) -> Result<Answer, AllocError> {
    keys_of(row.alloc, &kept_of(segment)?).map(Answer::Keys)
}

fn compare_page(one: &Segment, other: &Segment, row: &Row) -> Result<Answer, AllocError> {
    let same = one.is_same_page(row.short(0), row.number(1), other, row.number(2));
    same.map(Answer::Flag)
}

/// The answer of a call over the segment and the other one, or of a query of the segment alone.
pub fn answer(bench: &mut Fixture, row: &Row) -> Result<Answer, AllocError> {
    match row.name {
        "join" => joined(&mut bench.segment, &bench.other, row),
        "compare" => compare(&bench.segment, &bench.other, row),
        "is_as_before" => is_same(row, &bench.segment, &bench.before),
        "kept_of" => kept(&bench.segment, row),
        "is_same_page" => compare_page(&bench.segment, &bench.other, row),
        _ => questions::answer(&bench.segment, row),
    }
}
