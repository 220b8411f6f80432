//! A record that joins the stored ones, and the points with it.
ghost use Rattle.std.specs.Prelude.{◌≡◌, IfOk, IfErr, OnErr};
ghost use Rattle.hot_log.specs.Held.{IsHeld};
ghost use Rattle.hot_log.specs.Putting.{Puts, RefusesPut};
ghost use Rattle.segment_core.specs.Points.{HasPoints};

use crate::points::Points;
use epoch_book::EpochBook;
use hot_log::{BookView, HotLog, Put, PutFault};
use redo_core::{Record, Refused};

/// Stores one more record, and moves the points to where it links them. Each error returns the record and leaves all as it was.
pub(crate) fn put_record(
    points: &mut Points,
    hot: &mut HotLog,
    book: &EpochBook,
    base: u64,
    redo: Record,
) -> Result<Put, Refused<Record, PutFault>>
    requires { HasPoints book.now hot.old base points.old }
    ensures put { IfOk result (Puts hot.old redo hot.new) }
    ensures refused { IfErr result (λ e. (e.value ≡ redo) × RefusesPut hot.old redo e.fault) }
    ensures unchanged { OnErr result (hot.new ≡ hot.old) }
    ensures form { IsHeld hot.new }
    ensures points { HasPoints book.now hot.new base points.new }
{
    let (number, back) = (redo.number(), redo.back());
    let met = points.met(book, &redo);
    let may_link = met.may_link(book, base, &redo);
    let at_end = met.is_at_end(&BookView { book, held: hot }, may_link, back);
    match hot.put(redo)? {
        Put::Known => Ok(Put::Known),
        Put::New => {
            *points = met;
            if may_link {
                let view = BookView { book, held: hot };
                *points = if points.straight && back == points.complete {
                    points.joined(&view, number, at_end)
                } else {
                    Points::anew(&view, base)
                };
            }
            Ok(Put::New)
        }
    }
}
