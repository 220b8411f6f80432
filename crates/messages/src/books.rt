ghost use Rattle.std.specs.Prelude.{◌≡◌, IfOk};
ghost use Rattle.redo_core.specs.Book.{book_of, roster_of, IsBook};
ghost use Rattle.messages.specs.Books.{book_min, has_many};

use redo_core::{Advance, Cut, ReadPoints};
use std::alloc::{AllocError, Global};
use std::marker::Model;

/// The part that summaries, deltas and pieces share: the truncations by epoch and their complete epoch, the point of each reader of
/// the roster, and the waiting advances by epoch, reader and point, each of an epoch above the complete one.
#[derive(Drop)]
pub struct Book {
    cuts: Vec<Cut>,
    complete: u16,
    points: ReadPoints,
    waits: Vec<Advance>,
}

impl Model for Book {
    ghost use Rattle.redo_core.specs.Book.{BookData, book_of, IsBook};

    ghost Value = { BookData };

    ghost view = { λ b. book_of b.cuts.items b.complete b.points b.waits.items };

    ghost invariant = { λ b. IsBook (book_of b.cuts.items b.complete b.points b.waits.items) };
}

impl Book {
    /// A book of truncations with their complete epoch, the points of 1 to 15 readers, each up to 2^48 - 1, and waiting advances.
    pub fn new(cuts: Vec<Cut>, complete: u16, points: Vec<u64>, waits: Vec<Advance>) -> Self
        requires { IsBook (book_of cuts.items complete points.items waits.items) }
        ensures { result ≡ book_of cuts.items complete points.items waits.items }
    {
        Book {
            cuts,
            complete,
            points: ReadPoints::from_vec(points),
            waits,
        }
    }

    /// The truncations, rising by epoch.
    pub fn cuts(&self) -> &[Cut]
        ensures cuts { result.now ≡ self.now.cuts }
        ensures shape { IsBook self.now }
    {
        &self.cuts
    }

    /// The complete epoch: the last one up to which every truncation is known.
    pub fn complete(&self) -> u16
        ensures complete { result ≡ self.now.complete }
        ensures shape { IsBook self.now }
    {
        self.complete
    }

    /// The point of each reader, from reader 1 on, each up to 2^48 - 1.
    pub fn points(&self) -> &[u64]
        ensures points { result.now ≡ self.now.points }
        ensures shape { IsBook self.now }
    {
        self.points.as_slice()
    }

    /// The minimum read point, the least reader's point, up to 2^48 - 1.
    pub fn min(&self) -> u64
        ensures min { result ≡ book_min self.now }
        ensures shape { IsBook self.now }
    {
        self.points.least()
    }

    /// The waiting advances, rising by epoch, reader and point.
    pub fn waits(&self) -> &[Advance]
        ensures waits { result.now ≡ self.now.waits }
        ensures shape { IsBook self.now }
    {
        &self.waits
    }

    /// An equal book with memory of its own. The only error is an allocation failure.
    pub fn copy(&self) -> Result<Self, AllocError>
        ensures { IfOk result (λ b. b ≡ self.now) }
    {
        Ok(Book {
            cuts: self.cuts.clone()?,
            complete: self.complete,
            points: self.points.copy()?,
            waits: self.waits.clone()?,
        })
    }

    /// The book, borrowed.
    pub fn lend(&self) -> BookRef<'_>
        ensures { result ≡ self.now }
    {
        BookRef {
            cuts: &self.cuts,
            complete: self.complete,
            points: self.points.as_slice(),
            waits: &self.waits,
        }
    }

    /// How many readers the roster has, 1 to 15.
    pub fn readers(&self) -> u8
        ensures readers { result ≡ roster_of self.now }
        ensures shape { IsBook self.now }
    {
        self.points.readers()
    }

    /// Whether the roster has several readers.
    pub fn has_many(&self) -> bool
        ensures { result ≡ has_many self.now }
    {
        self.points.readers() > 1
    }
}

/// A borrowed book: that of a message, or the one that a segment exports.
#[derive(Drop)]
pub struct BookRef<'a> {
    cuts: &'a [Cut],
    complete: u16,
    points: &'a [u64],
    waits: &'a [Advance],
}

impl<'a> Model for BookRef<'a> {
    ghost use Rattle.redo_core.specs.Book.{BookData, book_of, IsBook};

    ghost Value = { BookData };

    ghost view = { λ b. book_of b.cuts.now b.complete b.points.now b.waits.now };

    ghost invariant = { λ b. IsBook (book_of b.cuts.now b.complete b.points.now b.waits.now) };
}

impl<'a> BookRef<'a> {
    /// The book of truncations with their complete epoch, the points of 1 to 15 readers, each up to 2^48 - 1, and waiting advances.
    pub fn new(
        cuts: &'a [Cut],
        complete: u16,
        points: &'a [u64],
        waits: &'a [Advance],
    ) -> BookRef<'a>
        requires { IsBook (book_of cuts.now complete points.now waits.now) }
        ensures { result ≡ book_of cuts.now complete points.now waits.now }
    {
        BookRef {
            cuts,
            complete,
            points,
            waits,
        }
    }

    /// The truncations, rising by epoch.
    pub fn cuts(&self) -> &'a [Cut]
        ensures cuts { result.now ≡ self.now.cuts }
        ensures shape { IsBook self.now }
    {
        self.cuts
    }

    /// The complete epoch: the last one up to which every truncation is known.
    pub fn complete(&self) -> u16
        ensures complete { result ≡ self.now.complete }
        ensures shape { IsBook self.now }
    {
        self.complete
    }

    /// The point of each reader, from reader 1 on, each up to 2^48 - 1.
    pub fn points(&self) -> &'a [u64]
        ensures points { result.now ≡ self.now.points }
        ensures shape { IsBook self.now }
    {
        self.points
    }

    /// The waiting advances, rising by epoch, reader and point.
    pub fn waits(&self) -> &'a [Advance]
        ensures waits { result.now ≡ self.now.waits }
        ensures shape { IsBook self.now }
    {
        self.waits
    }

    /// An equal book with memory of its own. The only error is an allocation failure.
    pub fn to_book(&self, alloc: Global) -> Result<Book, AllocError>
        ensures { IfOk result (λ b. b ≡ self.now) }
    {
        let cuts = Vec::from_slice(alloc, self.cuts)?;
        let points = Vec::from_slice(alloc, self.points)?;
        let waits = Vec::from_slice(alloc, self.waits)?;
        Ok(Book::new(cuts, self.complete, points, waits))
    }
}
