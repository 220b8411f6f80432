use crate::answer::Answer;
use crate::given::key;
use crate::keeping::{or_shape_fault, renew};
use crate::store_calls::bench::Fixture;
use crate::store_calls::book_calls;
use case_io::Row;
use epoch_book::EpochBook;
use hot_log::{HotLog, PutFault};
use redo_core::{Record, Refused};
use std::alloc::AllocError;

// Puts a record that writes nothing: epoch, LSN, segment backlink and page.
fn put(log: &mut HotLog, row: &Row, init: bool) -> Result<Answer, AllocError> {
    let (epoch, number, back, page) = (row.short(0), row.number(1), row.number(2), row.short(3));
    let made = Record::with(epoch, number, back, page, 0, init, Vec::new(row.alloc));
    match or_shape_fault(made)? {
        Ok(redo) => put_record(log, row, redo),
        Err(_) => Ok(Answer::Word("Misshapen")),
    }
}

fn put_record(log: &mut HotLog, row: &Row, redo: Record) -> Result<Answer, AllocError> {
    match log.put(redo) {
        Ok(put) => Answer::one(row.alloc, "Put", &put),
        Err(refused) => unput(row, &refused),
    }
}

// The backlink of the returned record, and why it was refused.
fn unput(row: &Row, refused: &Refused<Record, PutFault>) -> Result<Answer, AllocError> {
    match refused.fault {
        PutFault::OtherRecord => Answer::parts(
            row.alloc,
            "PutRefused",
            &(refused.value.back(), refused.fault),
        ),
        PutFault::Memory => Err(AllocError),
    }
}

fn remove(log: &mut HotLog, row: &Row) -> Answer {
    log.remove(key(row));
    Answer::Word("Done")
}

fn remove_dead(log: &mut HotLog, book: &EpochBook) -> Answer {
    log.remove_dead(book);
    Answer::Word("Done")
}

fn remove_folded(log: &mut HotLog, book: &EpochBook, row: &Row) -> Answer {
    log.remove_folded(book, row.short(0), row.number(1), row.number(2));
    Answer::Word("Done")
}

fn copy_log(log: &mut HotLog) -> Result<Answer, AllocError> {
    let copied = log.copy();
    renew(log, copied)
}

/// The answer of a change of a log, or of another call.
pub fn answer(bench: &mut Fixture, row: &Row) -> Result<Answer, AllocError> {
    match row.name {
        "put" => put(&mut bench.log, row, false),
        "put_init" => put(&mut bench.log, row, true),
        "put_other" => put(&mut bench.other, row, false),
        "copy_log" => copy_log(&mut bench.log),
        "remove" => Ok(remove(&mut bench.log, row)),
        "remove_dead" => Ok(remove_dead(&mut bench.log, &bench.book)),
        "remove_folded" => Ok(remove_folded(&mut bench.log, &bench.book, row)),
        _ => book_calls::answer(bench, row),
    }
}
