//! The facts of drills, by their index.

use crate::answer::Answer;
use case_io::Row;
use named_log::{Drill, LogFact};
use redo_core::Fact;
use script_text::fact_text;
use std::alloc::AllocError;

fn told<const N: u64>(row: &Row) -> Result<Answer, AllocError> {
    match LogFact::<Drill<N>>::at(row.alloc, row.number(1))? {
        Some(found) => placed(row, found.place(), &found.into_fact()),
        None => Ok(Answer::Word("None")),
    }
}

fn placed(row: &Row, place: u64, fact: &Fact) -> Result<Answer, AllocError> {
    Answer::parts(row.alloc, "Fact", &(place, fact_text(row.alloc, fact)?))
}

/// The answer of a call over a drill.
pub fn answer(row: &Row) -> Result<Answer, AllocError> {
    match row.number(0) {
        1 => told::<1>(row),
        64 => told::<64>(row),
        1048576 => told::<1048576>(row),
        1048577 => told::<1048577>(row),
        _ => Ok(Answer::Unknown),
    }
}
