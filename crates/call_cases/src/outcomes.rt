//! The results of calls of a segment and of a log, as answers.

use crate::answer::Answer;
use crate::keeping::or_fault;
use case_io::Row;
use redo_core::{Fact, Page, Record, Refused};
use segment_core::{CommitFault, Folded, ReadFault, Refusal, Segment, Taken};
use segment_join::same;
use std::alloc::{AllocError, Global};

/// The answer of a refused change.
pub fn refused(row: &Row, why: Refusal) -> Result<Answer, AllocError> {
    Answer::refused(row.alloc, "Refused", &why, &Refusal::Memory)
}

/// The answer of a refused read.
pub fn unread(row: &Row, fault: ReadFault) -> Result<Answer, AllocError> {
    Answer::refused(row.alloc, "Unread", &fault, &ReadFault::Memory)
}

/// The answer of a take.
pub fn taken(
    row: &Row,
    outcome: Result<Taken, Refused<Fact, Refusal>>,
) -> Result<Answer, AllocError> {
    match or_fault(outcome) {
        Ok(Taken::Changed) => Ok(Answer::Word("Changed")),
        Ok(Taken::Unchanged) => Ok(Answer::Word("Unchanged")),
        Err(why) => refused(row, why),
    }
}

/// The first two bytes of a page, or why it is not read.
pub fn page(row: &Row, read: Result<Page, ReadFault>) -> Result<Answer, AllocError> {
    match read {
        Ok(page) => Answer::one(row.alloc, "Bytes", &&page.bytes()[..2]),
        Err(fault) => unread(row, fault),
    }
}

/// The answer of a tidy.
pub fn tidied(row: &Row, outcome: Result<(), ReadFault>) -> Result<Answer, AllocError> {
    match outcome {
        Ok(()) => Ok(Answer::Word("Done")),
        Err(fault) => unread(row, fault),
    }
}

/// The answer of a commit; where it is refused, the version of the returned fold, and why.
pub fn committed(
    row: &Row,
    outcome: Result<(), Refused<Folded, CommitFault>>,
) -> Result<Answer, AllocError> {
    match outcome {
        Ok(()) => Ok(Answer::Word("Done")),
        Err(refused) => uncommitted(row, &refused),
    }
}

fn uncommitted(row: &Row, refused: &Refused<Folded, CommitFault>) -> Result<Answer, AllocError> {
    match refused.fault {
        CommitFault::Memory => Err(AllocError),
        fault => Answer::parts(row.alloc, "Uncommitted", &(refused.value.version, fault)),
    }
}

/// Folds a page of a segment.
pub fn fold(segment: &mut Segment, row: &Row, page: u16) -> Result<Answer, AllocError> {
    match segment.plan_fold(page) {
        Ok(plan) => committed(row, segment.commit_fold(plan.fold())),
        Err(fault) => unread(row, fault),
    }
}

/// Discards from a segment.
pub fn discard(segment: &mut Segment) -> Answer {
    segment.discard();
    Answer::Word("Done")
}

/// Whether two segments mean the same.
pub fn is_same(row: &Row, one: &Segment, other: &Segment) -> Result<Answer, AllocError> {
    match same(one, other) {
        Ok(answer) => Ok(Answer::Flag(answer)),
        Err(fault) => unread(row, fault),
    }
}

fn numbers_of(alloc: Global, records: &[&Record]) -> Result<Vec<u64>, AllocError> {
    let mut numbers = Vec::new(alloc);
    for redo in records {
        numbers.push(redo.number())?;
    }
    Ok(numbers)
}

/// The LSNs of the records that were found.
pub fn numbers(row: &Row, found: Result<Vec<&Record>, AllocError>) -> Result<Answer, AllocError> {
    numbers_of(row.alloc, &found?).map(Answer::Numbers)
}
