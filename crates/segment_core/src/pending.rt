ghost use Rattle.std.specs.Prelude.{◌≡◌, ℕ, ◌<◌, ◌≤◌, List, IfOk, IsTrue};
ghost use Rattle.std.specs.List.{All};
ghost use Rattle.redo_core.specs.Data.{RecordData};
ghost use Rattle.redo_core.specs.Standing.{IsAlive};
ghost use Rattle.epoch_book.specs.Book.{BookData};
ghost use Rattle.hot_log.specs.Held.{IsHeld};
ghost use Rattle.hot_log.specs.Removing.{Removes};
ghost use Rattle.segment_theorems.specs.State.{Store, StoredImage, version_of};
ghost use Rattle.segment_core.specs.PendingPages.{HasPending, IsMoreDue, LooksAt, RemovesInPages, all_due};

use crate::shedding::remove_all_folded;
use epoch_book::EpochBook;
use hot_log::HotLog;
use page_base::{BaseImage, BaseStore};
use redo_core::Record;
use std::alloc::{AllocError, Global};
use std::marker::Model;

/// With this many listed pages all pages are pending: there are no more pages.
const MOST: usize = 65_536;

/// The pages that the next discard visits: those whose image may have a stored alive record. They are listed, or all pages are pending;
/// and no version of an image is above `top`, so that a record above it makes no page pending.
///
/// If a page cannot be listed for lack of memory, all pages become pending: so no call here has an error but `copy`.
#[derive(Drop)]
pub(crate) struct PendingPages {
    pages: Vec<u16>,
    all: bool,
    top: u64,
}

impl Model for PendingPages {
    ghost use Rattle.segment_core.specs.PendingPages.{PendingData};

    ghost Value = { PendingData };

    ghost view = { λ d. record { pages = d.pages.items; all = d.all; top = d.top } };
}

impl PendingPages {
    /// All pages are pending, and none has an image.
    pub(crate) fn new(alloc: Global) -> Self
        ensures { result ≡ all_due 0 }
    {
        PendingPages {
            pages: Vec::new(alloc),
            all: true,
            top: 0,
        }
    }

    /// A copy with memory of its own. It fails only if memory runs out.
    pub(crate) fn copy(&self) -> Result<Self, AllocError>
        ensures { IfOk result (λ due. due ≡ self.now) }
    {
        Ok(PendingPages {
            pages: self.pages.clone()?,
            all: self.all,
            top: self.top,
        })
    }

    /// Makes a page pending.
    fn add(&mut self, page: u16)
        ensures more { IsMoreDue self.old self.new }
        ensures looks { LooksAt self.new page }
        ensures top { self.new.top ≡ self.old.top }
    {
        if self.all {
            return;
        }
        if self.pages.len() >= MOST || self.pages.push(page).is_err() {
            self.all = true;
        }
    }

    /// Makes all pages pending where epochs above the one given have opened, unless all that they may make alive is above every version:
    /// their records are above the truncations that begin them.
    pub(crate) fn add_opened(&mut self, book: &EpochBook, epoch: u16)
        ensures more { IsMoreDue self.old self.new }
        ensures looks { (r : RecordData) → IsAlive book.now.cuts book.now.complete r.epoch r.number → epoch < r.epoch → r.number ≤ self.old.top → LooksAt self.new r.page }
    {
        if self.is_below(book, epoch) {
            return;
        }
        self.all = true;
    }

    /// Whether the alive records of the epochs above one are above every version.
    fn is_below(&self, book: &EpochBook, epoch: u16) -> bool
        ensures { IsTrue result → (r : RecordData) → IsAlive book.now.cuts book.now.complete r.epoch r.number → epoch < r.epoch → self.now.top < r.number }
    {
        match book.least_lo(epoch) {
            Some(lo) => self.top <= lo,
            None => true,
        }
    }

    /// Makes a page pending whose image is raised to a version.
    pub(crate) fn add_raised(&mut self, page: u16, version: u64)
        ensures more { IsMoreDue self.old self.new }
        ensures looks { LooksAt self.new page }
        ensures top { version ≤ self.new.top }
    {
        self.add(page);
        self.top = self.top.max(version);
    }

    /// Makes the page of a record pending, where its image may have the record.
    pub(crate) fn add_held(&mut self, redo: &Record)
        ensures more { IsMoreDue self.old self.new }
        ensures looks { redo.now.number ≤ self.old.top → LooksAt self.new redo.now.page }
    {
        if redo.number() <= self.top {
            self.add(redo.page());
        }
    }

    /// Makes all pages pending, where any of the images may have changed.
    pub(crate) fn add_images(&mut self, store: &BaseStore)
        ensures { (book : BookData) (held : List RecordData) → HasPending book held store.now self.new }
    {
        self.all = true;
        self.top = top_of(store);
    }

    /// Removes the alive records at or below a point that the images have. The pages still pending have a version above the point.
    pub(crate) fn discard(
        &mut self,
        hot: &mut HotLog,
        book: &EpochBook,
        store: &BaseStore,
        point: u64,
    )
        requires held { IsHeld hot.old }
        requires due { HasPending book.now hot.old store.now self.old }
        ensures removes { Removes (λ r. IsAlive book.now.cuts book.now.complete r.epoch r.number × (r.number ≤ point) × (r.number ≤ version_of store.now r.page)) hot.old hot.new }
        ensures form { IsHeld hot.new }
        ensures due { HasPending book.now hot.new store.now self.new }
    {
        self.remove(hot, book, store, point);
        if self.top <= point {
            self.all = false;
            self.pages.clear();
        }
    }

    /// Removes the alive records at or below a point that the images have.
    fn remove(&self, hot: &mut HotLog, book: &EpochBook, store: &BaseStore, point: u64)
        requires held { IsHeld hot.old }
        requires due { HasPending book.now hot.old store.now self.now }
        ensures removes { Removes (λ r. IsAlive book.now.cuts book.now.complete r.epoch r.number × (r.number ≤ point) × (r.number ≤ version_of store.now r.page)) hot.old hot.new }
        ensures form { IsHeld hot.new }
    {
        if self.all {
            remove_all_folded(hot, book, store, point);
        } else {
            remove_in_pages(hot, book, store, &self.pages, point);
        }
    }
}

/// An LSN that no page's version is above.
fn top_of(store: &BaseStore) -> u64
    ensures { (page : ℕ) → version_of store.now page ≤ result }
{
    top_in(store.pages(), store.floor())
}

/// The greatest of the default version and the versions of images.
fn top_in(images: &[BaseImage], floor: u64) -> u64
    ensures floor { floor ≤ result }
    ensures each { All (λ (i : StoredImage). i.version ≤ result) images.now }
{
    let mut top = floor;
    for image in images {
        top = top.max(image.version());
    }
    top
}

/// Removes the alive records at or below a point that the images of these pages have.
fn remove_in_pages(hot: &mut HotLog, book: &EpochBook, store: &BaseStore, pages: &[u16], point: u64)
    requires { IsHeld hot.old }
    ensures removes { RemovesInPages book.now store.now point pages.now hot.old hot.new }
    ensures form { IsHeld hot.new }
{
    for page in pages {
        hot.remove_folded(book, *page, store.version(*page), point);
    }
}
