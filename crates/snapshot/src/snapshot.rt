ghost use Rattle.std.specs.Prelude.{◌≡◌, ◌<◌, ◌≤◌, ◌+◌, ◌*◌, ◌++◌, length, take, drop, IfOk, OnOk};
ghost use Rattle.messages.specs.Pieces.{max_batch};
ghost use Rattle.snapshot.specs.Snapshots.{snapshot_of, IsSnapshot, IsContentAt, IsPieceOf};

use messages::{Book, PageImage, Piece, PieceContent, RecordBatch};
use redo_core::Record;
use std::alloc::{AllocError, Global};
use std::marker::Model;

/// The most records of a piece.
pub(crate) const BATCH: usize = 64;

/// A snapshot of a segment under a name, which is exported in pieces.
#[derive(Drop)]
pub struct Snapshot {
    name: u64,
    total: u32,
    book: Book,
    anchor: u64,
    pages: Vec<PageImage>,
    records: Vec<Record>,
}

impl Model for Snapshot {
    ghost use Rattle.snapshot.specs.Snapshots.{SnapshotData, snapshot_of, IsSnapshot};

    ghost Value = { SnapshotData };

    ghost view = { λ s. snapshot_of s.name s.total s.book s.anchor s.pages.items s.records.items };

    ghost invariant = { λ s. IsSnapshot (snapshot_of s.name s.total s.book s.anchor s.pages.items s.records.items) };
}

impl Snapshot {
    pub(crate) fn new(
        name: u64,
        total: u32,
        book: Book,
        anchor: u64,
        pages: Vec<PageImage>,
        records: Vec<Record>,
    ) -> Self
        requires { IsSnapshot (snapshot_of name total book anchor pages.items records.items) }
        ensures { result ≡ snapshot_of name total book anchor pages.items records.items }
    {
        Snapshot {
            name,
            total,
            book,
            anchor,
            pages,
            records,
        }
    }

    /// How many pieces there are, at least 1.
    pub fn pieces(&self) -> u32
        ensures total { result ≡ self.now.total }
        ensures form { IsSnapshot self.now }
    {
        self.total
    }

    /// The piece of an index, from 0 to below `pieces()`, which the caller keeps. It fails only if memory runs out.
    pub fn piece(&self, index: u32) -> Result<Piece, AllocError>
        requires { index < self.now.total }
        ensures piece { IfOk result (IsPieceOf self.now) }
        ensures index { IfOk result (λ p. p.index ≡ index) }
    {
        let content = self.content(index)?;
        Ok(Piece::new(self.name, index, self.total, content))
    }

    fn content(&self, index: u32) -> Result<PieceContent, AllocError>
        requires { index < self.now.total }
        ensures { IfOk result (IsContentAt self.now index) }
    {
        if index == 0 {
            return Ok(PieceContent::Head {
                book: self.book.copy()?,
                anchor: self.anchor,
            });
        }
        let place = index as usize - 1;
        if place < self.pages.len() {
            return Ok(PieceContent::Page(self.pages[place].copy()?));
        }
        let records = self.batch(place - self.pages.len())?;
        Ok(PieceContent::Records(RecordBatch::new(records)))
    }

    /// Copies of the records of a batch.
    fn batch(&self, place: usize) -> Result<Vec<Record>, AllocError>
        requires { max_batch * place < length self.now.records }
        ensures { IfOk result (λ v. v.items ≡ take max_batch (drop (max_batch * place) self.now.records)) }
    {
        let rest = &self.records[BATCH * place..];
        let len = rest.len().min(BATCH);
        copies(*self.records.allocator(), &rest[..len])
    }
}

fn copies(alloc: Global, records: &[Record]) -> Result<Vec<Record>, AllocError>
    ensures { IfOk result (λ v. v.items ≡ records.now) }
{
    let mut copied = Vec::with_capacity(alloc, records.len())?;
    add_copies(&mut copied, records)?;
    Ok(copied)
}

pub(crate) fn add_copies(copied: &mut Vec<Record>, records: &[Record]) -> Result<(), AllocError>
    ensures { OnOk result (copied.new.items ≡ copied.old.items ++ records.now) }
{
    for redo in records {
        copied.push(redo.copy()?)?;
    }
    Ok(())
}
