//! What the contracts determine, so that no other body meets them: a value by its parts, and in one way. Each function states a
//! theorem and is called by nobody.

ghost use Rattle.std.specs.Prelude.{◌≡◌, IfOk};

use crate::books::Book;
use crate::deltas::Delta;
use crate::images::PageImage;
use crate::pieces::{Piece, PieceContent, RecordBatch};
use crate::summaries::Summary;
use redo_core::{Advance, Cut, Record};
use std::alloc::{AllocError, Global};

fn book_is_told_one_way(
    book: &Book,
) -> (
    (&[Cut], u16, &[u64], &[Advance]),
    (&[Cut], u16, &[u64], &[Advance]),
)
    ensures cuts { result.0.0.now ≡ result.1.0.now }
    ensures complete { result.0.1 ≡ result.1.1 }
    ensures points { result.0.2.now ≡ result.1.2.now }
    ensures waits { result.0.3.now ≡ result.1.3.now }
{
    (
        (book.cuts(), book.complete(), book.points(), book.waits()),
        (book.cuts(), book.complete(), book.points(), book.waits()),
    )
}

fn summary_is_its_parts(alloc: Global, summary: &Summary) -> Result<Summary, AllocError>
    ensures { IfOk result (λ made. made ≡ summary.now) }
{
    let keys = summary.keys().to_vec(alloc)?;
    Ok(Summary::new(summary.book().copy()?, summary.anchor(), keys))
}

fn delta_is_told_one_way(
    delta: &Delta,
) -> (
    (u64, &[PageImage], &[Record]),
    (u64, &[PageImage], &[Record]),
)
    ensures base { result.0.0 ≡ result.1.0 }
    ensures pages { result.0.1.now ≡ result.1.1.now }
    ensures records { result.0.2.now ≡ result.1.2.now }
{
    (
        (delta.base(), delta.pages(), delta.records()),
        (delta.base(), delta.pages(), delta.records()),
    )
}

fn image_is_its_parts(image: &PageImage) -> Result<PageImage, AllocError>
    ensures { IfOk result (λ made. made ≡ image.now) }
{
    Ok(PageImage::new(image.number(), image.shared_page().share()?))
}

fn image_is_its_page(image: PageImage) -> PageImage
    ensures { result ≡ image }
{
    PageImage::new(image.number(), image.into_page())
}

fn piece_is_its_parts(piece: Piece) -> Piece
    ensures { result ≡ piece }
{
    let (name, index, total) = (piece.name(), piece.index(), piece.total());
    Piece::new(name, index, total, piece.into_content())
}

fn piece_is_told_one_way(piece: &Piece) -> (&PieceContent, &PieceContent)
    ensures { result.0.now ≡ result.1.now }
{
    (piece.content(), piece.content())
}

fn batch_is_its_records(batch: RecordBatch) -> RecordBatch
    ensures { result ≡ batch }
{
    RecordBatch::new(batch.into_records())
}

fn batch_is_told_one_way(batch: &RecordBatch) -> (&[Record], &[Record])
    ensures { result.0.now ≡ result.1.now }
{
    (batch.records(), batch.records())
}

fn book_copies_are_one(book: &Book) -> Result<(Book, Book), AllocError>
    ensures { IfOk result (λ both. both.0 ≡ both.1) }
{
    Ok((book.copy()?, book.copy()?))
}

fn summary_copies_are_one(summary: &Summary) -> Result<(Summary, Summary), AllocError>
    ensures { IfOk result (λ both. both.0 ≡ both.1) }
{
    Ok((summary.copy()?, summary.copy()?))
}

fn delta_copies_are_one(delta: &Delta) -> Result<(Delta, Delta), AllocError>
    ensures { IfOk result (λ both. both.0 ≡ both.1) }
{
    Ok((delta.copy()?, delta.copy()?))
}

fn image_copies_are_one(image: &PageImage) -> Result<(PageImage, PageImage), AllocError>
    ensures { IfOk result (λ both. both.0 ≡ both.1) }
{
    Ok((image.copy()?, image.copy()?))
}
