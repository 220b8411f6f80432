use crate::answer::Answer;
use crate::given::{advance, cut};
use crate::keeping::renew;
use crate::store_calls::bench::Fixture;
use crate::store_calls::image_calls;
use case_io::Row;
use epoch_book::{BookRefusal, EpochBook, Learnt};
use std::alloc::AllocError;

fn learnt(row: &Row, outcome: Result<Learnt, BookRefusal>) -> Result<Answer, AllocError> {
    match outcome {
        Ok(learnt) => Answer::one(row.alloc, "Learnt", &learnt),
        Err(refusal) => Answer::refused(row.alloc, "BookRefused", &refusal, &BookRefusal::Memory),
    }
}

fn with_cut(book: &mut EpochBook, row: &Row) -> Result<Answer, AllocError> {
    match cut(row) {
        Some(cut) if row.name == "has_cut" => Ok(Answer::Flag(book.has_cut(cut))),
        Some(cut) => learnt(row, book.learn_cut(cut)),
        None => Ok(Answer::Word("Misshapen")),
    }
}

fn with_advance(book: &mut EpochBook, row: &Row) -> Result<Answer, AllocError> {
    match advance(row) {
        Some(advance) if row.name == "has_advance" => Ok(Answer::Flag(book.has_advance(advance))),
        Some(advance) => learnt(row, book.learn_advance(advance)),
        None => Ok(Answer::Word("Misshapen")),
    }
}

fn copy_book(book: &mut EpochBook) -> Result<Answer, AllocError> {
    let copied = book.copy();
    renew(book, copied)
}

/// The answer of a change of the book, or of another call.
pub fn answer(bench: &mut Fixture, row: &Row) -> Result<Answer, AllocError> {
    match row.name {
        "cut" | "has_cut" => with_cut(&mut bench.book, row),
        "advance" | "has_advance" => with_advance(&mut bench.book, row),
        "copy_book" => copy_book(&mut bench.book),
        _ => image_calls::answer(bench, row),
    }
}

// The complete epoch, the minimum read point, and the number of waiting advances.
fn told(book: &EpochBook, row: &Row) -> Result<Answer, AllocError> {
    Answer::parts(
        row.alloc,
        "Told",
        &(book.complete_epoch(), book.min_point(), book.waits().len()),
    )
}

/// The answer of a query of the book.
pub fn shown(book: &EpochBook, row: &Row) -> Result<Answer, AllocError> {
    match row.name {
        "points" => Answer::one(row.alloc, "Numbers", &book.points()),
        "told" => told(book, row),
        "stands" => Answer::one(
            row.alloc,
            "Stands",
            &book.stands(row.short(0), row.number(1)),
        ),
        _ => Ok(number(book, row)),
    }
}

// A number that the book returns.
fn number(book: &EpochBook, row: &Row) -> Answer {
    match row.name {
        "cuts" => Answer::Number(book.cuts().len() as u64),
        "least_lo" => Answer::Found(book.least_lo(row.short(0))),
        "last_cut_at" => Answer::Number(u64::from(book.last_cut_at(row.number(0)))),
        _ => Answer::Unknown,
    }
}
