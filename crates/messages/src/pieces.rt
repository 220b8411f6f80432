ghost use Rattle.std.specs.Prelude.{◌≡◌};
ghost use Rattle.messages.specs.Pieces.{piece_of, IsPiece};

use crate::books::Book;
use crate::images::PageImage;
use redo_core::Record;
use std::marker::Model;

/// The most records of one piece.
pub const MAX_BATCH: usize = 64;

/// Records of one piece, by epoch and LSN.
#[derive(Drop)]
pub struct RecordBatch {
    records: Vec<Record>,
}

impl Model for RecordBatch {
    ghost use Rattle.std.specs.Prelude.{List};
    ghost use Rattle.redo_core.specs.Data.{RecordData};

    ghost Value = { List RecordData };

    ghost view = { λ b. b.records.items };
}

impl RecordBatch {
    /// A batch of these records. A piece has 1 to 64, in order.
    pub fn new(records: Vec<Record>) -> Self
        ensures { result ≡ records.items }
    {
        RecordBatch { records }
    }

    /// The records, rising by epoch and LSN.
    pub fn records(&self) -> &[Record]
        ensures { result.now ≡ self.now }
    {
        &self.records
    }

    /// The records, moved out without allocation.
    pub fn into_records(self) -> Vec<Record>
        ensures { result.items ≡ self }
    {
        self.records
    }
}

/// What a piece contains: the head with the book and the anchor, the image of a page, or records.
#[derive(Drop)]
pub enum PieceContent {
    Head { book: Book, anchor: u64 },
    Page(PageImage),
    Records(RecordBatch),
}

/// A piece of a snapshot: the name of the snapshot, the index of the piece and how many there are, and its content. The head is
/// piece 0, its anchor up to the minimum read point; a page is not all zeros; records are 1 to 64, by epoch and LSN.
#[derive(Drop)]
pub struct Piece {
    name: u64,
    index: u32,
    total: u32,
    content: PieceContent,
}

impl Model for Piece {
    ghost use Rattle.messages.specs.Pieces.{PieceData, piece_of, IsPiece};

    ghost Value = { PieceData };

    ghost view = { λ p. piece_of p.name p.index p.total p.content };

    ghost invariant = { λ p. IsPiece (piece_of p.name p.index p.total p.content) };
}

impl Piece {
    /// The piece of this index, from 0 to below the total, of the snapshot of a name.
    pub fn new(name: u64, index: u32, total: u32, content: PieceContent) -> Self
        requires { IsPiece (piece_of name index total content) }
        ensures { result ≡ piece_of name index total content }
    {
        Piece {
            name,
            index,
            total,
            content,
        }
    }

    /// The name of the snapshot.
    pub fn name(&self) -> u64
        ensures name { result ≡ self.now.name }
        ensures shape { IsPiece self.now }
    {
        self.name
    }

    /// The index of the piece: 0 for the head, and below the total.
    pub fn index(&self) -> u32
        ensures index { result ≡ self.now.index }
        ensures shape { IsPiece self.now }
    {
        self.index
    }

    /// How many pieces the snapshot has, at least 1.
    pub fn total(&self) -> u32
        ensures total { result ≡ self.now.total }
        ensures shape { IsPiece self.now }
    {
        self.total
    }

    /// The content, borrowed.
    pub fn content(&self) -> &PieceContent
        ensures content { result.now ≡ self.now.content }
        ensures shape { IsPiece self.now }
    {
        &self.content
    }

    /// Does nothing. Callers use its contract: a piece satisfies the invariant of pieces.
    pub fn opens_form(&self)
        ensures form { IsPiece self.now }
    {
        let _index = self.index;
    }

    /// The content, moved out without allocation.
    pub fn into_content(self) -> PieceContent
        ensures content { result ≡ self.content }
        ensures shape { IsPiece self }
    {
        self.content
    }
}
