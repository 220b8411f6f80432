use crate::answer::Answer;
use crate::given::key;
use crate::outcomes::numbers;
use crate::store_calls::bench::Fixture;
use crate::store_calls::book_calls;
use case_io::Row;
use hot_log::{BookView, Steps};
use redo_core::Record;
use std::alloc::AllocError;

fn record(found: Option<&Record>) -> Answer {
    match found {
        Some(redo) => {
            let page = redo.page();
            Answer::Record(Some((redo.epoch(), redo.number(), redo.back(), page)))
        }
        None => Answer::Record(None),
    }
}

// The greatest linked LSN, and how many records the search for it visits.
fn linked(view: BookView, row: &Row) -> Result<Answer, AllocError> {
    let (from, limit) = (row.number(0), row.number(1));
    let mut steps = Steps::new();
    let linked = view.linked_counted(from, limit.max(from), &mut steps);
    Answer::parts(row.alloc, "Linked", &(linked, steps.count))
}

/// A list that a log returns, or the answer of another call.
pub fn answer(bench: &Fixture, row: &Row) -> Result<Answer, AllocError> {
    let (view, alloc) = (bench.view(), row.alloc);
    let (page, from, to) = (row.short(0), row.number(1), row.number(2));
    match row.name {
        "linked" => linked(view, row),
        "records_of" => numbers(row, view.records_of(alloc, page, from, to)),
        "records_since_init" => numbers(row, view.records_since_init(alloc, page, from, to)),
        "missing" => numbers(row, view.held.missing(alloc, &bench.other)),
        "kept_keys" => view.kept_keys(alloc, row.number(0)).map(Answer::Keys),
        _ => plain(bench, row),
    }
}

// The answer of a query of stored records, of the chain, or of the book.
fn plain(bench: &Fixture, row: &Row) -> Result<Answer, AllocError> {
    match held(bench, row) {
        Answer::Unknown => book_calls::shown(&bench.book, row),
        known => Ok(known),
    }
}

// The answer of a query of stored records, whatever their standing, or of another call.
fn held(bench: &Fixture, row: &Row) -> Answer {
    let log = &bench.log;
    match row.name {
        "len" => Answer::Number(log.len() as u64),
        "is_empty" => Answer::Flag(log.is_empty()),
        "get" => record(log.get(key(row))),
        "holds_key" => Answer::Flag(log.holds_key(key(row))),
        "first_key" => Answer::Key(log.key_after(None)),
        "key_after" => Answer::Key(log.key_after(Some(key(row)))),
        "first_page" => Answer::Page(log.page_after(None)),
        "page_after" => Answer::Page(log.page_after(Some(row.short(0)))),
        _ => chain(bench.view(), row),
    }
}

// The answer of a query of the chain from an LSN on, or of another call.
fn chain(view: BookView, row: &Row) -> Answer {
    let (first, second) = (row.number(0), row.number(1));
    match row.name {
        "linked_to" => Answer::Number(view.linked_to(first, second.max(first))),
        "next_after" => Answer::Found(view.next_after(first)),
        "contiguous_end" => Answer::Found(view.contiguous_end(first)),
        "linked_record" => record(view.linked_record(first, second)),
        "last_alive" => record(view.last_alive(first)),
        "opens_below" => Answer::Flag(view.opens_below(row.short(0), second)),
        "has_none_above" => Answer::Flag(view.has_none_above(first, 0)),
        _ => of_page(view, row),
    }
}

// The first or the last record of a page.
fn of_page(view: BookView, row: &Row) -> Answer {
    let (page, from, to) = (row.short(0), row.number(1), row.number(2));
    match row.name {
        "next_of" => record(view.next_of(page, from, to)),
        "last_of" => record(view.last_of(page, from, to)),
        "greatest_linked_of" => record(view.greatest_linked_of(page, from, to)),
        _ => Answer::Unknown,
    }
}
