ghost use Rattle.std.specs.Prelude.{◌≡◌, ◌≤◌, [], IfOk, OnOk};
ghost use Rattle.redo_core.specs.Order.{IsRising, RecordBefore};
ghost use Rattle.redo_core.specs.Roster.{least};
ghost use Rattle.page_base.specs.Adopting.{Adopts, StoresJust};
ghost use Rattle.page_base.specs.Stored.{IsStored};
ghost use Rattle.segment_core.specs.Restoring.{IsMadeOf, Gains, GainsEach, no_images};

use crate::pending::PendingPages;
use crate::points::Points;
use crate::segment::Segment;
use epoch_book::EpochBook;
use hot_log::{BookView, HotLog};
use page_base::BaseStore;
use redo_core::{Record, SharedPage};
use std::alloc::{AllocError, Global};

impl Segment {
    /// A segment of a book that stores these records, and whose pages are those given, and zeros else, at the base point.
    ///
    /// `base` is an LSN, at most the minimum read point, and at base 0 there are no pages; the records rise by key.
    /// It fails only if memory runs out.
    pub fn restore(
        alloc: Global,
        book: EpochBook,
        records: Vec<Record>,
        base: u64,
        pages: Vec<(u16, SharedPage)>,
    ) -> Result<Self, AllocError>
        requires base { base ≤ least book.points }
        requires none_at_0 { base ≡ 0 → pages.items ≡ [] }
        requires rising { IsRising RecordBefore records.items }
        ensures { IfOk result (IsMadeOf book records.items base pages.items) }
    {
        let store = stored_at(alloc, base, pages)?;
        let mut hot = HotLog::new(alloc);
        hold_all(&mut hot, records)?;
        let view = BookView {
            book: &book,
            held: &hot,
        };
        let points = Points::anew(&view, base);
        let mut due = PendingPages::new(alloc);
        due.add_images(&store);
        Ok(Segment {
            alloc,
            book,
            hot,
            base,
            store,
            points,
            due,
        })
    }
}

/// The first image given of each page, or zeros, at a base.
fn stored_at(
    alloc: Global,
    base: u64,
    pages: Vec<(u16, SharedPage)>,
) -> Result<BaseStore, AllocError>
    ensures adopts { IfOk result (Adopts no_images base pages.items) }
    ensures listed { IfOk result (StoresJust no_images base pages.items) }
    ensures form { IfOk result IsStored }
{
    let mut store = BaseStore::new(alloc);
    match store.adopt(base, pages) {
        Ok(()) => Ok(store),
        Err(_) => Err(AllocError),
    }
}

/// Inserts records into a log, under keys that are not taken there, so that the only error is lack of memory.
fn hold_all(hot: &mut HotLog, records: Vec<Record>) -> Result<(), AllocError>
    ensures { OnOk result (GainsEach hot.old records.items hot.new) }
{
    for redo in records {
        hold(hot, redo)?;
    }
    Ok(())
}

fn hold(hot: &mut HotLog, redo: Record) -> Result<(), AllocError>
    ensures { OnOk result (Gains hot.old redo hot.new) }
{
    match hot.put(redo) {
        Ok(_) => Ok(()),
        Err(_) => Err(AllocError),
    }
}
