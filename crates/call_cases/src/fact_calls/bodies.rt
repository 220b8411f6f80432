//! Calls over the stored facts: what their records do, and which of them are equal.

use crate::answer::Answer;
use crate::given::page_of;
use crate::keeping::or_shape_fault;
use case_io::Row;
use redo_core::{Body, Fact, Page, Patch, Record, Write, apply};
use script_text::fact_text;
use std::alloc::{AllocError, Global};

fn apply_all(facts: &[Fact], page: &mut Page) {
    for fact in facts {
        if let Fact::Record(redo) = fact {
            apply(redo, page);
        }
    }
}

// The first four bytes of a page of ones after the records.
fn applied(facts: &[Fact], row: &Row) -> Result<Answer, AllocError> {
    let mut page = page_of(row.alloc, 1)?;
    apply_all(facts, &mut page);
    Answer::one(row.alloc, "Bytes", &&page.copy()?.bytes()[..4])
}

// The indices of the facts that are equal to a fact.
fn same_places(alloc: Global, facts: &[Fact], fact: &Fact) -> Result<Vec<u64>, AllocError> {
    let mut places = Vec::new(alloc);
    for (place, other) in facts.iter().enumerate() {
        if fact.is_same(other) {
            places.push(place as u64 + 1)?;
        }
    }
    Ok(places)
}

// For each fact the indices of those that are equal to it.
fn same(facts: &[Fact], row: &Row) -> Result<Answer, AllocError> {
    let mut same = Vec::new(row.alloc);
    for fact in facts {
        same.push(same_places(row.alloc, facts, fact)?)?;
    }
    Answer::one(row.alloc, "Same", &same)
}

fn plain_patches(alloc: Global, writes: &[Write]) -> Result<Vec<Patch>, AllocError> {
    let mut list = Vec::new(alloc);
    for w in writes {
        list.push(Patch::Bytes(w.copy()?))?;
    }
    Ok(list)
}

fn plain_writes(alloc: Global, patches: &[Patch]) -> Result<Vec<Write>, AllocError> {
    let mut list = Vec::new(alloc);
    for p in patches {
        if let Patch::Bytes(w) = p {
            list.push(w.copy()?)?;
        }
    }
    Ok(list)
}

// The record's patches, where all of them are writes.
fn writes_of(alloc: Global, redo: &Record) -> Result<Vec<Write>, AllocError> {
    match redo.body() {
        Body::Writes(list) => plain_writes(alloc, &plain_patches(alloc, list)?),
        Body::Patches(list) => plain_writes(alloc, list),
    }
}

fn made_of_writes(redo: &Record, writes: Vec<Write>) -> Result<Option<Fact>, AllocError> {
    let (number, back, block_back) = (redo.number(), redo.back(), redo.block_back());
    let made = Record::new(redo.epoch(), number, back, redo.page(), block_back, writes);
    Ok(or_shape_fault(made)?.ok().map(Fact::Record))
}

fn made_of_patches(redo: &Record, patches: Vec<Patch>) -> Result<Option<Fact>, AllocError> {
    let (number, back, block_back) = (redo.number(), redo.back(), redo.block_back());
    let (epoch, page) = (redo.epoch(), redo.page());
    let made = Record::with(epoch, number, back, page, block_back, false, patches);
    Ok(or_shape_fault(made)?.ok().map(Fact::Record))
}

// A copy of a copy that was then dropped.
fn copy_of_copy(fact: &Fact) -> Result<Fact, AllocError> {
    let copied = fact.copy()?;
    copied.copy()
}

// Whether each of two facts is the other, and a copy of a copy is both.
fn are_one(one: &Fact, two: &Fact) -> Result<bool, AllocError> {
    let copied = copy_of_copy(one)?;
    Ok(one.is_same(two) && two.is_same(one) && copied.is_same(two) && two.is_same(&copied))
}

fn from_writes(alloc: Global, redo: &Record) -> Result<Option<Fact>, AllocError> {
    made_of_writes(redo, writes_of(alloc, redo)?)
}

fn from_patches(alloc: Global, redo: &Record) -> Result<Option<Fact>, AllocError> {
    let writes = writes_of(alloc, redo)?;
    made_of_patches(redo, plain_patches(alloc, &writes)?)
}

fn have_one_line(alloc: Global, one: &Fact, two: &Fact) -> Result<bool, AllocError> {
    Ok(fact_text(alloc, one)? == fact_text(alloc, two)?)
}

// Whether the record made of its writes and the one made of its patches are one fact, with one line.
fn has_one_form(alloc: Global, redo: &Record) -> Result<bool, AllocError> {
    match from_writes(alloc, redo)? {
        Some(one) => is_of_patches(alloc, redo, &one),
        None => Ok(false),
    }
}

fn is_of_patches(alloc: Global, redo: &Record, one: &Fact) -> Result<bool, AllocError> {
    match from_patches(alloc, redo)? {
        Some(two) => Ok(are_one(one, &two)? && have_one_line(alloc, one, &two)?),
        None => Ok(false),
    }
}

// Whether the copies of a fact are the fact, also a copy of a copy.
fn is_its_copies(fact: &Fact) -> Result<bool, AllocError> {
    are_one(&copy_of_copy(fact)?, fact)
}

/// The answer of a call over the stored facts.
pub fn answer(facts: &[Fact], row: &Row) -> Result<Answer, AllocError> {
    let [.., last] = facts else {
        return Ok(Answer::Unknown);
    };
    match (row.name, last) {
        ("apply", _) => applied(facts, row),
        ("same", _) => same(facts, row),
        ("last", _) => fact_text(row.alloc, last).map(Answer::Text),
        ("copies", _) => is_its_copies(last).map(Answer::Flag),
        ("forms", Fact::Record(redo)) => has_one_form(row.alloc, redo).map(Answer::Flag),
        _ => Ok(Answer::Unknown),
    }
}
