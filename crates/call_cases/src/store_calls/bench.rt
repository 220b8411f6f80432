use crate::answer::Answer;
use crate::keeping::renew;
use crate::store_calls::log_changes;
use case_io::Row;
use epoch_book::EpochBook;
use hot_log::{BookView, HotLog};
use page_base::BaseStore;
use redo_core::Roster;
use std::alloc::{AllocError, Global};

/// What the calls are made on.
#[derive(Drop)]
pub struct Fixture {
    pub book: EpochBook,
    pub log: HotLog,
    /// The log that `log` is compared with.
    pub other: HotLog,
    pub store: BaseStore,
    /// The store that `swap_stores` exchanges with `store`.
    pub spare: BaseStore,
    /// Page, version and byte of the images that `adopt` and `merge` are given.
    pub given: Vec<(u16, u64, u8)>,
}

impl Fixture {
    /// The view of `log` by `book`.
    pub fn view(&self) -> BookView<'_> {
        BookView {
            book: &self.book,
            held: &self.log,
        }
    }
}

/// A new book of the roster, and empty logs and stores.
pub fn new_bench(alloc: Global, roster: Roster) -> Result<Fixture, AllocError> {
    Ok(Fixture {
        book: EpochBook::new(alloc, roster)?,
        log: HotLog::new(alloc),
        other: HotLog::new(alloc),
        store: BaseStore::new(alloc),
        spare: BaseStore::new(alloc),
        given: Vec::new(alloc),
    })
}

fn begin_anew(bench: &mut Fixture, row: &Row) -> Result<Answer, AllocError> {
    match Roster::new(row.byte(0)) {
        Ok(roster) => renew(bench, new_bench(row.alloc, roster)),
        Err(_) => Ok(Answer::Word("Misshapen")),
    }
}

/// The answer of a test case.
pub fn answer(bench: &mut Fixture, row: &Row) -> Result<Answer, AllocError> {
    match row.name {
        "fresh" => begin_anew(bench, row),
        _ => log_changes::answer(bench, row),
    }
}
