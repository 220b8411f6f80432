//! Reading and writing books.

ghost use Rattle.std.specs.Prelude.{◌≡◌, ◌++◌, false, OnOk};
ghost use Rattle.redo_wire.specs.Outcomes.{Gives};
ghost use Rattle.messages.specs.Books.{has_many};
ghost use Rattle.redo_wire.specs.Books.{IsWireBook, is_long_book, book_bytes};
ghost use Rattle.redo_wire.specs.BookReading.{complete, book_at};

use crate::advances::{AdvanceList, WaitList};
use crate::cuts::CutList;
use crate::faults::WireError;
use crate::fields::{put_u16, put_u32, put_u48, read_u16, read_u32, read_u48};
use crate::forms::{put_within, read_within};
use crate::limits::{COUNT16_END, COUNT32_END};
use crate::lists::{ListReader, ListWriter, put_list, read_list};
use bytes::BytesMut;
use messages::Book;
use redo_core::{Advance, Cut, MAX_READERS};
use std::alloc::{AllocError, Global};
use std::mem::size_of;

const CUT_SIZE: usize = size_of::<Cut>();

const POINT_SIZE: usize = size_of::<u64>();

const ADVANCE_SIZE: usize = size_of::<Advance>();

/// The complete epoch of truncations that rise by epoch.
fn complete_of(cuts: &[Cut]) -> u16
    ensures { result ≡ complete cuts.now }
{
    let mut k = 0;
    for cut in cuts {
        if cut.epoch() as u32 != k as u32 + 1 {
            return k;
        }
        k = cut.epoch();
    }
    k
}

/// Readers' points, in any order.
#[derive(Clone, Copy)]
struct PointList;

impl ListReader for PointList {
    ghost use Rattle.redo_wire.specs.BookReading.{next_point_at, last_point};

    type Item = u64;

    /// The point before.
    type State = u64;

    ghost step = { λ _. next_point_at };

    ghost next = { last_point };

    fn read_next(
        self,
        _last: u64,
        _alloc: Global,
        bytes: &[u8],
    ) -> Result<(u64, &[u8]), WireError> {
        read_u48(bytes)
    }

    fn state_after(self, _last: u64, point: &u64) -> u64 {
        *point
    }
}

impl ListWriter for PointList {
    ghost use Rattle.std.specs.Prelude.{⊤};
    ghost use Rattle.redo_wire.specs.Fields.{u48};

    type Item = u64;

    ghost encode = { λ _. u48 };

    ghost fits = { λ _ _. ⊤ };

    fn put(self, out: &mut BytesMut, point: &u64) -> Result<(), AllocError> {
        put_u48(out, *point)
    }
}

/// A book in the form for one reader or for several; its complete epoch is that of its truncations.
#[tactic(auto, unfolding(crate::specs::BookReading::book_at))]
pub(crate) fn read_book(
    alloc: Global,
    has_many: bool,
    bytes: &[u8],
) -> Result<(Book, &[u8]), WireError>
    ensures { Gives (λ x. (x.0, x.1.now)) result (book_at has_many bytes.now) }
{
    let (count, rest) = read_u16(bytes)?;
    let (cuts, rest) = read_list(CutList, 0, CUT_SIZE, count as usize, alloc, rest)?;
    let (readers, rest) = read_within(has_many, 1, 2, MAX_READERS, rest)?;
    let (points, rest) = read_list(PointList, 0, POINT_SIZE, readers as usize, alloc, rest)?;
    let (count, rest) = read_u32(rest)?;
    let complete = complete_of(&cuts);
    let waiting = WaitList {
        has_many,
        complete,
        readers,
    };
    let (waits, rest) = read_list(
        waiting,
        (0, 0, 0),
        ADVANCE_SIZE,
        count as usize,
        alloc,
        rest,
    )?;
    Ok((Book::new(cuts, complete, points, waits), rest))
}

/// Whether a list is longer than its count field holds.
pub(crate) fn is_long_book(book: &Book) -> bool
    ensures { result ≡ is_long_book book.now }
{
    book.cuts().len() >= COUNT16_END || book.waits().len() >= COUNT32_END
}

/// Appends the book in the form for its roster. The complete epoch has no bytes of its own.
pub(crate) fn put_book(out: &mut BytesMut, book: &Book) -> Result<(), AllocError>
    requires { is_long_book book.now ≡ false }
    ensures ok { OnOk result (out.new.items ≡ out.old.items ++ book_bytes (has_many book.now) book.now) }
    ensures wire { OnOk result (IsWireBook book.now) }
{
    let has_many = book.has_many();
    let cuts = book.cuts();
    let points = book.points();
    let waits = book.waits();
    put_u16(out, cuts.len() as u16)?;
    put_list(CutList, out, cuts)?;
    put_within(out, has_many, points.len() as u8)?;
    put_list(PointList, out, points)?;
    put_u32(out, waits.len() as u32)?;
    put_list(AdvanceList { has_many }, out, waits)?;
    Ok(())
}
