//! A segment's book, as messages carry it.
ghost use Rattle.std.specs.Prelude.{◌≡◌, IfOk};
ghost use Rattle.segment_core.specs.Form.{IsSegment};

use crate::segment::Segment;
use messages::{Book, BookRef};
use std::alloc::AllocError;

/// Borrows the book of a segment: its truncations, complete epoch, readers' points and waiting advances.
pub fn book_ref(segment: &Segment) -> BookRef<'_>
    ensures book { result ≡ segment.now.book }
    ensures form { IsSegment segment.now }
{
    let complete = segment.front().epoch;
    BookRef::new(segment.cuts(), complete, segment.points(), segment.waits())
}

/// The book of a segment, with memory of its own. It fails only if memory runs out.
pub fn book_of(segment: &Segment) -> Result<Book, AllocError>
    ensures book { IfOk result (λ b. b ≡ segment.now.book) }
    ensures form { IsSegment segment.now }
{
    book_ref(segment).to_book(segment.allocator())
}
