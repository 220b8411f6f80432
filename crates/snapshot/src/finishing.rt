ghost use Rattle.std.specs.Prelude.{◌≡◌, ◌↔◌, ◌++◌, ℕ, List, Some, Err as ErrOf, IfOk, IfErr, OnOk};
ghost use Rattle.std.specs.List.{Contains};
ghost use Rattle.redo_core.specs.Meaning.{ImageData};
ghost use Rattle.redo_core.specs.Order.{Lists, RecordBefore};
ghost use Rattle.page_base.specs.Adopting.{first_given};
ghost use Rattle.hot_log.specs.Found.{IsLeast};
ghost use Rattle.snapshot.specs.Stagings.{IsMissingPiece, IsStaging};
ghost use Rattle.snapshot.specs.Placing.{IsMisplaced, IsComplete, IsInOrder};
ghost use Rattle.snapshot.specs.Hydrating.{Hydrates, MeansFrozen, IsOfSoundState, BringsPage, BringsRecord, IsBrought, records_of, pages_of};
ghost use Rattle.snapshot.specs.declared.finishing.FinishFault.TheVariants.{Missing as MissingOf, Malformed as MalformedOf, Memory as MemoryOf};

use crate::snapshot::add_copies;
use crate::staging::Staging;
use epoch_book::EpochBook;
use messages::{Book, Piece, PieceContent};
use redo_core::{ReadPoints, Record, SharedPage};
use segment_core::Segment;
use segment_theorems::restore_keeps;
use std::alloc::{AllocError, Global};
use thiserror::Error;

/// Why no segment is put together.
#[derive(Clone, Copy, Debug, PartialEq, Eq, Error)]
pub enum FinishFault {
    /// The piece of this index has not come; each below it has.
    #[error("piece {index} is missing")]
    Missing { index: u32 },
    /// The piece of this index cannot follow those before it.
    #[error("piece {index} cannot follow the piece before it")]
    Malformed { index: u32 },
    #[error("out of memory")]
    Memory,
}

impl Staging {
    /// The segment that the pieces make. The staging stays as it is, so that a missing piece can still be added.
    ///
    /// Errors: `Missing` with the least index whose piece has not come, which is 0 where the total is 0; else `Malformed` with the least one
    /// whose piece cannot follow those before it, never for the pieces of one snapshot of a sound log; `Memory`.
    pub fn finish(&self) -> Result<Segment, FinishFault>
        // Each piece is of the staging's name and total, under its own index.
        ensures form { IsStaging self.now }
        // Inside a sound log, for the pieces of one snapshot.
        ensures means { IfOk result (MeansFrozen self.now) }
        ensures sound { IfErr result (λ e. IsOfSoundState self.now → (index : ℕ) → e ≡ MalformedOf index → ⊥) }
        // For arbitrary pieces.
        ensures hydrates { IfOk result (Hydrates self.now) }
        ensures missing { (index : ℕ) → (result ≡ ErrOf (MissingOf index)) ↔ IsLeast (IsMissingPiece self.now) (Some index) }
        ensures malformed { (index : ℕ) → (result ≡ ErrOf (MalformedOf index)) ↔ (IsComplete self.now × IsLeast (IsMisplaced self.now) (Some index)) }
        ensures memory { IfErr result (λ e. e ≡ MemoryOf → IsInOrder self.now) }
    {
        // For the invariant: each piece is stored under its own index.
        let _ = &self.alloc;
        restore_keeps();
        if let Some(index) = self.first_missing() {
            return Err(FinishFault::Missing { index });
        }
        if let Some(index) = self.first_misplaced() {
            return Err(FinishFault::Malformed { index });
        }
        match self.restored() {
            Ok(segment) => Ok(segment),
            Err(_) => Err(FinishFault::Memory),
        }
    }

    /// The segment that pieces make which are all in place.
    fn restored(&self) -> Result<Segment, AllocError>
        requires { IsInOrder self.now }
        ensures { IfOk result (Hydrates self.now) }
    {
        let Some((book, anchor)) = self.head() else {
            return Err(AllocError);
        };
        let own = book_from(self.alloc, book)?;
        let records = self.records()?;
        let pages = self.pages()?;
        Segment::restore(self.alloc, own, records, anchor, pages)
    }

    /// Copies of the records of all pieces, rising by key.
    fn records(&self) -> Result<Vec<Record>, AllocError>
        requires { IsInOrder self.now }
        ensures { IfOk result (λ v. Lists RecordBefore (BringsRecord self.now) v.items) }
    {
        let mut records = Vec::new(self.alloc);
        for index in 0..self.total {
            if let Some(piece) = self.get(index) {
                add_records(&mut records, piece)?;
            }
        }
        Ok(records)
    }

    /// The pages of all pieces, shared with them.
    fn pages(&self) -> Result<Vec<(u16, SharedPage)>, AllocError>
        requires { IsInOrder self.now }
        ensures brought { IfOk result (λ v. (page : ℕ) → IsBrought self.now page (first_given v.items page)) }
        ensures only { IfOk result (λ v. (g : ℕ × List ℕ) → Contains v.items g → (image : ImageData) × BringsPage self.now image) }
    {
        let mut pages = Vec::new(self.alloc);
        for index in 0..self.total {
            if let Some(piece) = self.get(index) {
                add_page(&mut pages, piece)?;
            }
        }
        Ok(pages)
    }
}

/// Adds copies of a piece's records, where it contains any.
fn add_records(records: &mut Vec<Record>, piece: &Piece) -> Result<(), AllocError>
    ensures { OnOk result (records.new.items ≡ records.old.items ++ records_of piece.now.content) }
{
    if let PieceContent::Records(batch) = piece.content() {
        add_copies(records, batch.records())?;
    }
    Ok(())
}

/// Adds a piece's page, where it contains one.
fn add_page(pages: &mut Vec<(u16, SharedPage)>, piece: &Piece) -> Result<(), AllocError>
    ensures { OnOk result (pages.new.items ≡ pages.old.items ++ pages_of piece.now.content) }
{
    if let PieceContent::Page(image) = piece.content() {
        pages.push((image.number(), image.shared_page().share()?))?;
    }
    Ok(())
}

/// The book of a head, as segments have it. It fails only if memory runs out.
fn book_from(alloc: Global, book: &Book) -> Result<EpochBook, AllocError>
    ensures { IfOk result (λ b. b ≡ book.now) }
{
    let cuts = Vec::from_slice(alloc, book.cuts())?;
    let points = ReadPoints::from_vec(Vec::from_slice(alloc, book.points())?);
    let waits = Vec::from_slice(alloc, book.waits())?;
    EpochBook::from_parts(alloc, cuts, book.complete(), points, waits)
}
