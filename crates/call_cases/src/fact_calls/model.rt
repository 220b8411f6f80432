//! The answers of the reference model for the stored facts, beside those of the checker.

use crate::answer::Answer;
use case_io::{Row, eight, nth, size, word};
use log_law::{CheckFault, check_log};
use redo_core::{Fact, LawFault, Roster};
use reference_model::{
    ModelStanding, Position, anchor, complete_epoch, complete_point, covers, first_fault, is_alive,
    is_linked, min_point, page_at, point, points, position, same, standing,
};
use std::alloc::{AllocError, Global};

// The position of the first so many facts: complete epoch and point, the points, in two ways, minimum and anchor.
fn front(facts: &[Fact], roster: Roster, row: &Row) -> Result<Answer, AllocError> {
    let facts = &facts[..size(row.number(1)).min(facts.len())];
    let Position {
        epoch,
        complete,
        points: own,
        min,
        anchor,
    } = position(row.alloc, facts, roster)?;
    let points = points(row.alloc, facts, roster, complete_epoch(facts))?;
    Answer::parts(
        row.alloc,
        "Front",
        &(epoch, complete, own, points, min, anchor),
    )
}

// The first two bytes of a page.
fn beginning(facts: &[Fact], row: &Row) -> Result<Answer, AllocError> {
    let page = page_at(row.alloc, facts, row.short(0), row.short(1), row.number(2))?;
    Answer::one(row.alloc, "Bytes", &&page.bytes()[..2])
}

/// The first fault that the checker finds.
pub fn checked(
    alloc: Global,
    facts: &[Fact],
    roster: Roster,
) -> Result<Option<LawFault>, AllocError> {
    match check_log(alloc, facts, roster) {
        Ok(()) => Ok(None),
        Err(CheckFault::Unsound(fault)) => Ok(Some(fault)),
        Err(CheckFault::Memory) => Err(AllocError),
    }
}

// The index of a fault, and the number of its law.
fn placed(fault: Option<LawFault>) -> Option<(u64, u8)> {
    let LawFault { law, place } = fault?;
    Some((place, law.number()))
}

// The first fault that the model finds, and that the checker finds.
fn faults(facts: &[Fact], roster: Roster, row: &Row) -> Result<Answer, AllocError> {
    let found = placed(first_fault(facts, roster));
    let checked = placed(checked(row.alloc, facts, roster)?);
    Answer::parts(row.alloc, "Faults", &(found, checked))
}

/// The facts at the indices that a word lists, with commas between them.
fn facts_at(alloc: Global, facts: &[Fact], word: &str) -> Result<Vec<Fact>, AllocError> {
    let mut list = Vec::new(alloc);
    for place in word.split(',') {
        put_at(&mut list, facts, place.parse::<u64>().unwrap_or(0))?;
    }
    Ok(list)
}

fn put_at(list: &mut Vec<Fact>, facts: &[Fact], place: u64) -> Result<(), AllocError> {
    if let Some(fact) = nth(facts, place) {
        list.push(fact.copy()?)?;
    }
    Ok(())
}

// Whether the first list covers the second, the second the first, and whether they mean the same.
fn compared(facts: &[Fact], roster: Roster, row: &Row) -> Result<Answer, AllocError> {
    let one = facts_at(row.alloc, facts, word(row.words, 1))?;
    let two = facts_at(row.alloc, facts, word(row.words, 2))?;
    relation(&one, &two, roster, row)
}

fn relation(one: &[Fact], two: &[Fact], roster: Roster, row: &Row) -> Result<Answer, AllocError> {
    let there = covers(row.alloc, one, two, roster);
    let back = covers(row.alloc, two, one, roster);
    let is_same = same(row.alloc, one, two, roster);
    Answer::parts(row.alloc, "Compared", &(there, back, is_same))
}

// The answer of a call that requires a roster, whose size is the first word.
fn of_roster(facts: &[Fact], roster: Roster, row: &Row) -> Result<Answer, AllocError> {
    match row.name {
        "front" => front(facts, roster, row),
        "faults" => faults(facts, roster, row),
        "compare" => compared(facts, roster, row),
        _ => Ok(Answer::Unknown),
    }
}

// An LSN, or whether a record has a standing, in the view of the epoch that the first word names.
fn told(facts: &[Fact], row: &Row) -> Answer {
    let view = row.short(0);
    let (epoch, number) = (row.short(1), row.number(2));
    match row.name {
        "complete_point" => Answer::Number(complete_point(facts, view)),
        "anchor" => Answer::Number(anchor(facts, view, row.number(1))),
        "point" => Answer::Number(point(facts, view, row.byte(1))),
        "min_point" => Answer::Number(min_point(&eight(row.words))),
        "is_linked" => Answer::Flag(is_linked(facts, view, row.number(1))),
        "is_alive" => Answer::Flag(is_alive(facts, view, epoch, number)),
        "waits" => Answer::Flag(standing(facts, view, epoch, number) == ModelStanding::Waiting),
        "is_dead" => Answer::Flag(standing(facts, view, epoch, number) == ModelStanding::Dead),
        _ => Answer::Unknown,
    }
}

/// The answer of a call of the reference model.
pub fn answer(facts: &[Fact], row: &Row) -> Result<Answer, AllocError> {
    if row.name == "page" {
        return beginning(facts, row);
    }
    match (told(facts, row), Roster::new(row.byte(0))) {
        (Answer::Unknown, Ok(roster)) => of_roster(facts, roster, row),
        (answer, _) => Ok(answer),
    }
}
