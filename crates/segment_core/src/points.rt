ghost use Rattle.std.specs.Prelude.{◌≡◌, ℕ, ◌+◌, ◌<◌, ◌≤◌, ◌↔◌, List, IsTrue, IfOk, IfErr, OnErr, IfSome};
ghost use Rattle.redo_core.specs.Data.{RecordData};
ghost use Rattle.redo_core.specs.Roster.{least};
ghost use Rattle.redo_core.specs.Shape.{max_number};
ghost use Rattle.epoch_book.specs.Book.{IsBook};
ghost use Rattle.hot_log.specs.Alive.{HasNoneAbove, HasNoneEarlier, IsStraightEnd};
ghost use Rattle.hot_log.specs.Held.{IsHeld};
ghost use Rattle.hot_log.specs.Seen.{seen_in};
ghost use Rattle.segment_core.specs.Points.{AnchorsOn, HasPoints, HasLowAnchor, IsSparedChain, IsTopTo, IsUntouched, JoinsOnTop, MayLink, Meets, MoveOn, WerePoints, points_at};

use epoch_book::{EpochBook, Standing};
use hot_log::BookView;
use redo_core::{MAX_NUMBER, Record};

/// The complete point and the anchor of a segment, and whether the chain of its alive records is known to be contiguous (`straight`) from
/// the base point to the complete point: without a fork and without an orphan record, as it is over a sound log.
///
/// Over a contiguous chain the points move forward from where they are; over any other they are computed again. No alive record above the
/// complete point is of an epoch before `since`: so no search above it visits the dead records of those epochs.
#[derive(Clone, Copy)]
pub(crate) struct Points {
    pub(crate) complete: u64,
    pub(crate) anchor: u64,
    pub(crate) straight: bool,
    pub(crate) since: u16,
}

/// The last LSN of a chain that truncations down to a limit leave.
#[derive(Clone, Copy)]
pub(crate) struct Spared {
    pub(crate) limit: u64,
    pub(crate) number: u64,
}

impl Points {
    /// The points over a base point.
    pub(crate) fn anew(view: &BookView, base: u64) -> Points
        requires { base ≤ least view.now.book.now.points }
        ensures { seen_in view.now HasPoints base result }
    {
        let _minimum = view.book.min_point();
        let start = Points {
            complete: base,
            anchor: base,
            straight: true,
            since: 0,
        };
        start.onward(view)
    }

    /// The points from where they are.
    fn onward(self, view: &BookView) -> Points
        requires complete { self.complete ≤ max_number }
        requires anchor { self.anchor ≤ least view.now.book.now.points }
        requires since { seen_in view.now HasNoneEarlier self.complete self.since }
        ensures { seen_in view.now MoveOn self result }
    {
        // Over a sound log the chain is contiguous, and no fork is searched for.
        let (complete, straight) = match view.straight_end_since(self.complete, self.since) {
            Some(end) => (end, true),
            None => (view.linked_to(self.complete, MAX_NUMBER), false),
        };
        Points {
            complete,
            anchor: view.linked_to(self.anchor, view.book.min_point()),
            straight,
            since: self.since,
        }
    }

    /// The points where the minimum read point may have risen.
    pub(crate) fn with_anchor(self, view: &BookView, base: u64) -> Points
        requires { seen_in view.now HasLowAnchor base self }
        ensures { seen_in view.now HasPoints base result }
    {
        let anchor = if self.straight {
            self.anchor_of_last(view)
        } else {
            view.linked_to(base, view.book.min_point())
        };
        Points { anchor, ..self }
    }

    /// The greatest linked LSN up to the minimum read point over a contiguous chain. Each alive record up to the complete point is
    /// linked there, so it is the LSN of the last one; the chain is not walked.
    fn anchor_of_last(self, view: &BookView) -> u64
        ensures { (base : ℕ) → seen_in view.now HasLowAnchor base self → IsTrue self.straight → seen_in view.now IsTopTo base (least view.now.book.now.points) result }
    {
        let to = view.book.min_point().min(self.complete);
        match view.last_alive(to) {
            Some(redo) => redo.number().max(self.anchor),
            None => self.anchor,
        }
    }

    /// The points over a raised base point: where they were, if that is the anchor of a contiguous chain, and else computed again.
    pub(crate) fn over(self, view: &BookView, base: u64, raised: u64) -> Points
        requires points { seen_in view.now HasPoints base self }
        requires bound { raised ≤ least view.now.book.now.points }
        ensures { seen_in view.now HasPoints raised result }
    {
        if raised == base {
            return self;
        }
        if self.straight && raised == self.anchor {
            return self;
        }
        Points::anew(view, raised)
    }

    /// What truncations down to a limit leave of a contiguous chain, by a walk down from its end: each record that it visits is one that
    /// they annul.
    pub(crate) fn spared(self, view: &BookView, base: u64, limit: u64) -> Spared
        requires { seen_in view.now HasPoints base self }
        ensures { IsTrue self.straight → seen_in view.now IsSparedChain base result }
    {
        view.held.opens_form();
        view.book.opens_form();
        let mut number = self.complete;
        if !self.straight {
            return Spared { limit, number };
        }
        while base < number && limit < number {
            match view.alive_of(number) {
                Some(redo) => number = redo.back(),
                None => return Spared { limit, number },
            }
        }
        Spared { limit, number }
    }

    /// The points where a truncation has opened the epochs above one: over a contiguous chain they continue from the last LSN that those
    /// epochs leave unchanged.
    pub(crate) fn after_opening(
        self,
        view: &BookView,
        base: u64,
        epoch: u16,
        spared: Spared,
    ) -> Points
        requires { seen_in view.now WerePoints base epoch self spared }
        ensures { seen_in view.now HasPoints base result }
    {
        view.held.opens_form();
        view.book.opens_form();
        if !self.straight || !spared.is_untouched(view, epoch) {
            return Points::anew(view, base);
        }
        let start = Points {
            complete: spared.number,
            anchor: self.anchor.min(spared.number),
            straight: true,
            since: self.since_opening(epoch, spared.limit),
        };
        start.onward(view)
    }

    /// The epoch before which no alive record is above the spared LSN: where the complete point has fallen, what was alive above that
    /// is dead.
    fn since_opening(self, epoch: u16, limit: u64) -> u16
        ensures fell { limit < self.complete → result ≤ epoch + 1 }
        ensures stood { self.complete ≤ limit → (result ≤ self.since) × (result ≤ epoch) }
    {
        if limit < self.complete {
            epoch.saturating_add(1)
        } else {
            self.since.min(epoch)
        }
    }

    /// Whether no alive record is above the complete point. Called only for a record that may link there.
    pub(crate) fn is_at_end(self, view: &BookView, may_link: bool, back: u64) -> bool
        requires { seen_in view.now HasNoneEarlier self.complete self.since }
        ensures { IsTrue result → seen_in view.now HasNoneAbove self.complete }
    {
        may_link && back == self.complete && view.has_none_above(self.complete, self.since)
    }

    /// The points after a record with this LSN has joined at the top of a contiguous chain. Where no alive record was above that, the
    /// chain ends at the record.
    pub(crate) fn joined(self, view: &BookView, number: u64, at_end: bool) -> Points
        requires small { self.complete ≤ max_number }
        requires anchor { self.anchor ≤ least view.now.book.now.points }
        requires since { seen_in view.now HasNoneEarlier self.complete self.since }
        requires rises { self.complete < number }
        ensures { (base : ℕ) → (j : seen_in view.now JoinsOnTop base number self) → (IsTrue at_end → HasNoneAbove view.now.book.now j.earlier self.complete) → seen_in view.now HasPoints base result }
    {
        if at_end {
            self.on_end(view.book, number)
        } else {
            self.on_top(view, number)
        }
    }

    /// The points after a record with this LSN has joined at the top of a contiguous chain above which no record was alive. This needs
    /// no search.
    fn on_end(self, book: &EpochBook, number: u64) -> Points
        ensures { (held : List RecordData) (base : ℕ) → (j : JoinsOnTop book.now held base number self) → HasNoneAbove book.now j.earlier self.complete → HasPoints book.now held base result }
    {
        let anchor = if book.min_point() < number {
            self.anchor
        } else {
            number
        };
        Points {
            complete: number,
            anchor,
            straight: true,
            since: self.since,
        }
    }

    /// The points after a record with this LSN has joined at the top of a contiguous chain. The chain is walked from the record on.
    fn on_top(self, view: &BookView, number: u64) -> Points
        requires small { self.complete ≤ max_number }
        requires anchor { self.anchor ≤ least view.now.book.now.points }
        requires since { seen_in view.now HasNoneEarlier self.complete self.since }
        requires rises { self.complete < number }
        ensures { (base : ℕ) → seen_in view.now JoinsOnTop base number self → seen_in view.now HasPoints base result }
    {
        if view.has_between(self.complete, number, self.since) {
            return self.onward(view);
        }
        let Some(complete) = view.straight_end_since(number, self.since) else {
            return self.onward(view);
        };
        let anchor = self.anchor_on(view, number, complete);
        Points {
            complete,
            anchor,
            straight: true,
            since: self.since,
        }
    }

    /// The anchor where the chain continues from an LSN to its end.
    fn anchor_on(self, view: &BookView, from: u64, end: u64) -> u64
        requires { seen_in view.now IsStraightEnd from end }
        ensures { seen_in view.now AnchorsOn from self.anchor result }
    {
        let min = view.book.min_point();
        if min < from {
            return self.anchor;
        }
        if end <= min {
            return end;
        }
        let walked = Points {
            complete: end,
            anchor: from,
            straight: true,
            since: 0,
        };
        walked.anchor_of_last(view)
    }

    /// The same points, for a record that joins the stored ones: it may be an alive one of an earlier epoch.
    pub(crate) fn met(self, book: &EpochBook, redo: &Record) -> Points
        ensures { Meets book.now redo.now self result }
    {
        if matches!(book.stands(redo.epoch(), redo.number()), Standing::Alive) {
            Points {
                since: self.since.min(redo.epoch()),
                ..self
            }
        } else {
            self
        }
    }

    /// Whether a record that joins the stored ones may link an LSN: it is alive above the base point, and not after a gap.
    pub(crate) fn may_link(self, book: &EpochBook, base: u64, redo: &Record) -> bool
        ensures { IsTrue result ↔ MayLink book.now base self redo.now }
    {
        base < redo.number()
            && redo.back() <= self.complete
            && matches!(book.stands(redo.epoch(), redo.number()), Standing::Alive)
    }
}

impl Spared {
    /// Whether the epochs above one have truncations down to the limit, and none of them has changed the spared LSN.
    fn is_untouched(self, view: &BookView, epoch: u16) -> bool
        ensures { IsTrue result → seen_in view.now IsUntouched epoch self }
    {
        view.book.least_lo(epoch) == Some(self.limit)
            && self.number <= self.limit
            && !view.opens_below(epoch, self.number)
    }
}
