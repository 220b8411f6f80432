//! Which pieces of a staging are in place.
ghost use Rattle.std.specs.Prelude.{◌≡◌, ◌↔◌, ℕ, ◌≤◌, ◌<◌, length, IsTrue, IfSome, IsNone};
ghost use Rattle.std.specs.List.{Contains, All};
ghost use Rattle.redo_core.specs.Book.{BookData};
ghost use Rattle.redo_core.specs.Data.{RecordData};
ghost use Rattle.redo_core.specs.Order.{IsRising, RecordBefore};
ghost use Rattle.redo_core.specs.Standing.{SparesIn};
ghost use Rattle.epoch_book.specs.Contradicted.{IsContradicted as HasContradiction};
ghost use Rattle.hot_log.specs.Found.{IsLeast};
ghost use Rattle.messages.specs.Pieces.{IsContent};
ghost use Rattle.snapshot.specs.Stagings.{IsMissingPiece, IsStaging};
ghost use Rattle.snapshot.specs.Placing.{IsComplete, IsMisplaced, IsKeptFor, PageFollows, RecordsFollow, CanFollow, CanStand, HasHead};

use crate::snapshot::BATCH;
use crate::staging::Staging;
use epoch_book::is_contradicted;
use messages::{Book, PageImage, PieceContent};
use redo_core::{Cut, Record};

impl Staging {
    /// The least index whose piece is missing. Each snapshot has a head, so where the total is 0 the head is missing.
    pub(crate) fn first_missing(&self) -> Option<u32>
        ensures { IsLeast (IsMissingPiece self.now) result }
    {
        for index in 0..self.total.max(1) {
            if self.get(index).is_none() {
                return Some(index);
            }
        }
        None
    }

    /// The least index whose piece is not in place, where none is missing.
    pub(crate) fn first_misplaced(&self) -> Option<u32>
        requires { IsComplete self.now }
        ensures { IsLeast (IsMisplaced self.now) result }
    {
        let Some((book, anchor)) = self.head() else {
            return Some(0);
        };
        if is_contradicted(book.cuts(), book.complete(), book.points(), book.waits()) {
            return Some(0);
        }
        self.first_not_following(book, anchor)
    }

    /// The least index, above 0, whose piece cannot follow the one before it.
    fn first_not_following(&self, book: &Book, anchor: u64) -> Option<u32>
        requires head { HasHead self.now book.now anchor }
        requires first { CanStand self.now 0 }
        requires total { 0 < self.now.total }
        ensures { IsLeast (IsMisplaced self.now) result }
    {
        for index in 1..self.total {
            if !self.can_stand(book, anchor, index) {
                return Some(index);
            }
        }
        None
    }

    /// The book and the anchor of the head, where it has come.
    pub(crate) fn head(&self) -> Option<(&Book, u64)>
        ensures some { IfSome result (λ h. HasHead self.now h.0.now h.1) }
        ensures total { IfSome result (λ h. 0 < self.now.total) }
        ensures none { IsNone result → (book : BookData) (anchor : ℕ) → HasHead self.now book anchor → ⊥ }
        ensures form { IsStaging self.now }
    {
        match self.get(0)?.content() {
            PieceContent::Head { book, anchor } => Some((book, *anchor)),
            PieceContent::Page(_) => None,
            PieceContent::Records(_) => None,
        }
    }

    /// Whether the piece of an index above 0 can follow the one before it.
    fn can_stand(&self, book: &Book, anchor: u64, index: u32) -> bool
        requires head { HasHead self.now book.now anchor }
        requires behind { 1 ≤ index }
        ensures { IsTrue result ↔ CanStand self.now index }
    {
        let Some(before) = self.get(index - 1) else {
            return false;
        };
        let Some(here) = self.get(index) else {
            return false;
        };
        // Records are in order.
        before.opens_form();
        here.opens_form();
        can_follow(book, anchor, before.content(), here.content())
    }
}

/// Whether a piece can follow another one, after a head of this book and anchor.
fn can_follow(book: &Book, anchor: u64, before: &PieceContent, here: &PieceContent) -> bool
    requires before { IsContent before.now }
    requires here { IsContent here.now }
    ensures { IsTrue result ↔ CanFollow book.now anchor before.now here.now }
{
    match here {
        PieceContent::Head { book: _, anchor: _ } => false,
        PieceContent::Page(image) => 0 < anchor && page_follows(before, image),
        PieceContent::Records(batch) => {
            records_follow(before, batch.records()) && are_kept(book, anchor, batch.records())
        }
    }
}

fn page_follows(before: &PieceContent, image: &PageImage) -> bool
    ensures { IsTrue result ↔ PageFollows before.now image.now }
{
    match before {
        PieceContent::Head { book: _, anchor: _ } => true,
        PieceContent::Page(lower) => lower.number() < image.number(),
        PieceContent::Records(_) => false,
    }
}

fn records_follow(before: &PieceContent, records: &[Record]) -> bool
    requires before { IsContent before.now }
    requires some { 0 < length records.now }
    requires rising { IsRising RecordBefore records.now }
    ensures { IsTrue result ↔ RecordsFollow before.now records.now }
{
    match before {
        PieceContent::Head { book: _, anchor: _ } => true,
        PieceContent::Page(_) => true,
        PieceContent::Records(lower) => {
            let lower = lower.records();
            lower.len() == BATCH && is_before(&lower[BATCH - 1], &records[0])
        }
    }
}

/// Whether a record's key is below another's.
fn is_before(redo: &Record, other: &Record) -> bool
    ensures { IsTrue result ↔ RecordBefore redo.now other.now }
{
    (redo.epoch(), redo.number()) < (other.epoch(), other.number())
}

/// Whether each record waits, or is alive above the anchor.
fn are_kept(book: &Book, anchor: u64, records: &[Record]) -> bool
    ensures { IsTrue result ↔ ((r : RecordData) → Contains records.now r → IsKeptFor book.now anchor r) }
{
    for redo in records {
        if !is_kept(book, anchor, redo) {
            return false;
        }
    }
    true
}

/// Whether a record waits, or is alive above the anchor.
fn is_kept(book: &Book, anchor: u64, redo: &Record) -> bool
    ensures { IsTrue result ↔ IsKeptFor book.now anchor redo.now }
{
    if redo.epoch() > book.complete() {
        return true;
    }
    anchor < redo.number() && are_sparing(book.cuts(), book.complete(), redo)
}

/// Whether no truncation up to the complete epoch annuls the record.
fn are_sparing(cuts: &[Cut], complete: u16, redo: &Record) -> bool
    ensures { IsTrue result ↔ All (SparesIn complete redo.now.epoch redo.now.number) cuts.now }
{
    for cut in cuts {
        if !is_sparing(*cut, complete, redo) {
            return false;
        }
    }
    true
}

fn is_sparing(cut: Cut, complete: u16, redo: &Record) -> bool
    ensures { IsTrue result ↔ SparesIn complete redo.now.epoch redo.now.number cut }
{
    if cut.epoch() == redo.epoch() {
        return cut.hi() < redo.number();
    }
    cut.epoch() < redo.epoch() || complete < cut.epoch() || redo.number() <= cut.lo()
}
