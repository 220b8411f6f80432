//! Calls that make values of redo_core, each with its first fault.

use crate::answer::Answer;
use crate::keeping::or_shape_fault;
use case_io::Row;
use redo_core::{Advance, Cut, Patch, ReadPoints, Record, Roster, ShapeFault, Write};
use std::alloc::{AllocError, Global};

// So many writes, each of so many bytes from an offset on.
fn writes(alloc: Global, count: u64, offset: u16, len: u16) -> Result<Vec<Write>, AllocError> {
    let mut list = Vec::new(alloc);
    for _ in 0..count.min(99) {
        list.push(Write::new(offset, vec![in alloc; 1; usize::from(len)]?))?;
    }
    Ok(list)
}

fn fills(alloc: Global, count: u64, offset: u16, len: u16) -> Result<Vec<Patch>, AllocError> {
    let mut list = Vec::new(alloc);
    for _ in 0..count.min(99) {
        let byte = 9;
        list.push(Patch::Fill { offset, len, byte })?;
    }
    Ok(list)
}

fn made<T: Drop>(alloc: Global, outcome: Result<T, ShapeFault>) -> Result<Answer, AllocError> {
    match outcome {
        Ok(_) => Ok(Answer::Word("Made")),
        Err(fault) => fault.to_string(alloc).map(Answer::Text),
    }
}

fn record(row: &Row) -> Result<Answer, AllocError> {
    let writes = writes(row.alloc, row.number(3), row.short(4), row.short(5))?;
    let outcome = Record::new(0, row.number(0), row.number(1), 0, row.number(2), writes);
    made(row.alloc, or_shape_fault(outcome)?)
}

fn record_of_fills(row: &Row) -> Result<Answer, AllocError> {
    let fills = fills(row.alloc, row.number(0), row.short(1), row.short(2))?;
    let outcome = Record::with(0, 1, 0, 0, 0, true, fills);
    made(row.alloc, or_shape_fault(outcome)?)
}

// Raises the points by three advances, where the roster has their readers.
fn raise_all(points: &mut ReadPoints, row: &Row) {
    for place in 0..3 {
        let (reader, point) = (row.byte(2 * place + 1), row.number(2 * place + 2));
        if let Ok(advance) = Advance::of_reader(reader, 0, point) {
            if advance.reader() <= points.readers() {
                points.raise(advance);
            }
        }
    }
}

// The points of a roster after three advances, how many readers it has, and the least point.
fn points(row: &Row, roster: Roster) -> Result<Answer, AllocError> {
    let mut points = ReadPoints::new(row.alloc, roster)?;
    raise_all(&mut points, row);
    told_points(row, &points, points.copy()?.as_slice())
}

fn told_points(row: &Row, points: &ReadPoints, copied: &[u64]) -> Result<Answer, AllocError> {
    Answer::parts(
        row.alloc,
        "Points",
        &(copied, points.readers(), points.least()),
    )
}

fn of_roster(row: &Row) -> Result<Answer, AllocError> {
    match Roster::new(row.byte(0)) {
        Ok(roster) if row.name == "points" => points(row, roster),
        outcome => made(row.alloc, outcome),
    }
}

/// The answer of a call that makes a value.
pub fn answer(row: &Row) -> Result<Answer, AllocError> {
    match row.name {
        "record" => record(row),
        "fills" => record_of_fills(row),
        "cut" => {
            let cut = Cut::new(row.short(0), row.number(1), row.number(2));
            made(row.alloc, cut)
        }
        "advance" => {
            let advance = Advance::of_reader(row.byte(0), row.short(1), row.number(2));
            made(row.alloc, advance)
        }
        _ => of_roster(row),
    }
}
