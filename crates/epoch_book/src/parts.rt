//! Books that are built from their parts at once, and not one fact after another.
ghost use Rattle.std.specs.Prelude.{◌≡◌, ◌↔◌, ◌<◌, length, IsTrue, IfOk};
ghost use Rattle.redo_core.specs.Roster.{IsRoster};
ghost use Rattle.epoch_book.specs.Book.{IsBook, book_of};
ghost use Rattle.epoch_book.specs.Contradicted.{IsContradicted};
ghost use Rattle.epoch_book.specs.Refusing.{OthersPast};

use crate::book::EpochBook;
use crate::lows;
use crate::points::is_past;
use crate::wait_list::WaitList;
use redo_core::{Advance, Cut, ReadPoints};
use std::alloc::{AllocError, Global};

impl EpochBook {
    /// The book of these truncations, with their complete epoch, each reader's point and the advances that wait. It does not check
    /// whether they contradict each other. The only error is an allocation failure.
    pub fn from_parts(
        alloc: Global,
        cuts: Vec<Cut>,
        complete: u16,
        points: ReadPoints,
        waits: Vec<Advance>,
    ) -> Result<Self, AllocError>
        requires { IsBook (book_of cuts.items complete points waits.items) }
        ensures { IfOk result (λ b. b ≡ book_of cuts.items complete points waits.items) }
    {
        let mut least = Vec::new(alloc);
        lows::raise(&mut least, &cuts, 0, complete)?;
        Ok(EpochBook {
            cuts,
            lows: least,
            complete,
            points,
            waits: WaitList::new(waits),
        })
    }
}

/// Whether the truncations, points and waiting advances of a book contradict each other: each reader's point, known or waiting in an
/// earlier epoch, is above the `lo` of a truncation above the complete epoch.
pub fn is_contradicted(cuts: &[Cut], complete: u16, points: &[u64], waits: &[Advance]) -> bool
    requires { IsRoster (length points.now) }
    ensures { IsTrue result ↔ IsContradicted (book_of cuts.now complete points.now waits.now) }
{
    for cut in cuts {
        if is_cut_past(complete, points, waits, *cut) {
            return true;
        }
    }
    false
}

/// Whether a truncation is above the complete epoch, and each reader is known to be past it.
fn is_cut_past(complete: u16, points: &[u64], waits: &[Advance], cut: Cut) -> bool
    requires { IsRoster (length points.now) }
    ensures { IsTrue result ↔ ((complete < cut.epoch) × OthersPast points.now waits.now cut 0) }
{
    complete < cut.epoch() && all_past(points, waits, cut)
}

/// Whether each reader is known to be past the truncation.
fn all_past(points: &[u64], waits: &[Advance], cut: Cut) -> bool
    requires { IsRoster (length points.now) }
    ensures { IsTrue result ↔ OthersPast points.now waits.now cut 0 }
{
    for (place, point) in points.iter().enumerate() {
        if *point <= cut.lo() && !is_past(waits, cut, place as u8 + 1) {
            return false;
        }
    }
    true
}
