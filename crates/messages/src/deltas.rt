ghost use Rattle.std.specs.Prelude.{◌≡◌, IfOk};
ghost use Rattle.messages.specs.Deltas.{delta_of, IsDelta};

use crate::books::Book;
use crate::images::PageImage;
use redo_core::Record;
use std::alloc::AllocError;
use std::marker::Model;

/// What one segment sends to another: its book, a base point up to the minimum read point with the pages there, none of
/// zeros, by page number, and records by epoch and LSN. At base 0 there are no pages.
#[derive(Drop)]
pub struct Delta {
    book: Book,
    base: u64,
    pages: Vec<PageImage>,
    records: Vec<Record>,
}

impl Model for Delta {
    ghost use Rattle.messages.specs.Deltas.{DeltaData, delta_of, IsDelta};

    ghost Value = { DeltaData };

    ghost view = { λ d. delta_of d.book d.base d.pages.items d.records.items };

    ghost invariant = { λ d. IsDelta (delta_of d.book d.base d.pages.items d.records.items) };
}

impl Delta {
    /// A delta of a book, a base, pages and records.
    pub fn new(book: Book, base: u64, pages: Vec<PageImage>, records: Vec<Record>) -> Self
        requires { IsDelta (delta_of book base pages.items records.items) }
        ensures { result ≡ delta_of book base pages.items records.items }
    {
        Delta {
            book,
            base,
            pages,
            records,
        }
    }

    /// The book of the sender.
    pub fn book(&self) -> &Book
        ensures book { result.now ≡ self.now.book }
        ensures shape { IsDelta self.now }
    {
        &self.book
    }

    /// The base point, up to the minimum read point.
    pub fn base(&self) -> u64
        ensures base { result ≡ self.now.base }
        ensures shape { IsDelta self.now }
    {
        self.base
    }

    /// The pages at the base point, rising by page number; a page that is missing is zeros.
    pub fn pages(&self) -> &[PageImage]
        ensures pages { result.now ≡ self.now.pages }
        ensures shape { IsDelta self.now }
    {
        &self.pages
    }

    /// The records, rising by epoch and LSN.
    pub fn records(&self) -> &[Record]
        ensures records { result.now ≡ self.now.records }
        ensures shape { IsDelta self.now }
    {
        &self.records
    }

    /// Does nothing. Callers use its contract: a delta satisfies the invariant of deltas.
    pub fn opens_form(&self)
        ensures form { IsDelta self.now }
    {
        let _base = self.base;
    }

    /// An equal delta, which shares the pages. The only error is an allocation failure.
    pub fn copy(&self) -> Result<Self, AllocError>
        ensures { IfOk result (λ d. d ≡ self.now) }
    {
        let book = self.book.copy()?;
        let pages = self.pages.clone()?;
        let records = self.records.clone()?;
        Ok(Delta::new(book, self.base, pages, records))
    }
}
