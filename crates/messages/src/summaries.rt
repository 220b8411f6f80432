ghost use Rattle.std.specs.Prelude.{◌≡◌, IfOk};
ghost use Rattle.messages.specs.Summaries.{summary_of, IsSummary};

use crate::books::Book;
use redo_core::Key;
use std::alloc::AllocError;
use std::marker::Model;

/// What one segment sends another of itself: its book, its anchor up to the minimum read point, and the keys of the records
/// that it keeps, by epoch and LSN, each LSN from 1 to 2^48 - 1.
#[derive(Drop)]
pub struct Summary {
    book: Book,
    anchor: u64,
    keys: Vec<Key>,
}

impl Model for Summary {
    ghost use Rattle.messages.specs.Summaries.{SummaryData, summary_of, IsSummary};

    ghost Value = { SummaryData };

    ghost view = { λ s. summary_of s.book s.anchor s.keys.items };

    ghost invariant = { λ s. IsSummary (summary_of s.book s.anchor s.keys.items) };
}

impl Summary {
    /// A summary of a book, an anchor and keys.
    pub fn new(book: Book, anchor: u64, keys: Vec<Key>) -> Self
        requires { IsSummary (summary_of book anchor keys.items) }
        ensures { result ≡ summary_of book anchor keys.items }
    {
        Summary { book, anchor, keys }
    }

    /// The book of the sender.
    pub fn book(&self) -> &Book
        ensures book { result.now ≡ self.now.book }
        ensures shape { IsSummary self.now }
    {
        &self.book
    }

    /// The anchor, up to the minimum read point.
    pub fn anchor(&self) -> u64
        ensures anchor { result ≡ self.now.anchor }
        ensures shape { IsSummary self.now }
    {
        self.anchor
    }

    /// The keys of the kept records, rising by epoch and LSN.
    pub fn keys(&self) -> &[Key]
        ensures keys { result.now ≡ self.now.keys }
        ensures shape { IsSummary self.now }
    {
        &self.keys
    }

    /// An equal summary with memory of its own. The only error is an allocation failure.
    pub fn copy(&self) -> Result<Self, AllocError>
        ensures { IfOk result (λ s. s ≡ self.now) }
    {
        let book = self.book.copy()?;
        let keys = self.keys.to_vec(*self.keys.allocator())?;
        Ok(Summary::new(book, self.anchor, keys))
    }
}
