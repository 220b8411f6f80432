ghost use Rattle.std.specs.Prelude.{◌≡◌, ℕ, ◌<◌, ◌≤◌, ◌↔◌, List, Some, None, map, IfOk, OnOk, OnErr, IfErr};
ghost use Rattle.redo_core.specs.Standing.{IsAlive};
ghost use Rattle.redo_core.specs.Position.{Position};
ghost use Rattle.redo_core.specs.Sound.{IsSound};
ghost use Rattle.redo_core.specs.declared.facts.Fact.{Fact as AnyFact};
ghost use Rattle.hot_log.specs.Anew.{ListsAnew};
ghost use Rattle.hot_log.specs.Held.{IsHeld};
ghost use Rattle.hot_log.specs.Removing.{Removes};
ghost use Rattle.page_base.specs.Stored.{IsStored};
ghost use Rattle.page_base.specs.Raising.{Raises};
ghost use Rattle.segment_theorems.specs.State.{version_of};
ghost use Rattle.segment_theorems.specs.Means.{MeansAt};
ghost use Rattle.segment_theorems.specs.Shows.{IsApplied, Shows};
ghost use Rattle.segment_theorems.specs.Promises.{KeepsMeaning, KeepsMeaningWith};
ghost use Rattle.segment_core.specs.Folding.{IsPlanResult, PlansFold, Commits, RefusesCommit, RefusesAhead};
ghost use Rattle.segment_core.specs.Forgetting.{RemovesInImages, DiscardsJust, FoldsAll, Tidies, HoldsJustKept, IsSoundState, IsWhole, IsFirstBreak, ReportsFirstBreak, RefusesTidy};
ghost use Rattle.segment_core.specs.declared.answers.ReadFault.TheVariants.{Memory as MemoryOf};
ghost use Rattle.segment_core.specs.declared.fold_plan.CommitFault.TheVariants.{Memory as OfMemory};

use crate::answers::ReadFault;
use crate::fold_plan::{CommitFault, FoldPlan, Folded};
use crate::segment::Segment;
use epoch_book::EpochBook;
use hot_log::{BookView, HotLog};
use page_base::{BaseImage, BaseStore};
use redo_core::{Record, Refused};
use std::alloc::{AllocError, Global};

impl Segment {
    /// A plan to fold a page to the anchor, to be carried out apart from the segment.
    ///
    /// Errors: `BrokenBlockChain` with the record whose block backlink leads nowhere, never over a sound log; `Memory`.
    pub fn plan_fold(&self, page: u16) -> Result<FoldPlan, ReadFault>
        ensures result { (roster : ℕ) (log facts : List AnyFact) (p : Position) → IsSound roster log → MeansAt roster log facts p self.now → IsPlanResult facts p page result }
        ensures own { PlansFold self.now page result }
    {
        let anchor = self.anchor();
        let records = self.records_at(page, anchor);
        if let Some(number) = self.broken_of(&records, page, anchor) {
            return Err(ReadFault::BrokenBlockChain { page, number });
        }
        match self.plan_with(page, anchor, records) {
            Ok(plan) => Ok(plan),
            Err(_) => Err(ReadFault::Memory),
        }
    }

    /// A plan of the page with its stored records up to the point.
    fn plan_at(&self, page: u16, point: u64) -> Result<FoldPlan, AllocError>
        ensures page { IfOk result (λ plan. plan.page ≡ page) }
        ensures version { IfOk result (λ plan. plan.version ≡ point) }
        ensures image { IfOk result (λ plan. Shows self.now page point plan.image) }
    {
        self.plan_with(page, point, self.records_at(page, point))
    }

    /// A plan of the page with the records that make it of its image up to the point.
    fn plan_with(
        &self,
        page: u16,
        point: u64,
        records: Result<Vec<&Record>, AllocError>,
    ) -> Result<FoldPlan, AllocError>
        requires { IfOk records (λ v. ListsAnew (IsApplied self.now page point) (map (λ x. x.now) v.items)) }
        ensures page { IfOk result (λ plan. plan.page ≡ page) }
        ensures version { IfOk result (λ plan. plan.version ≡ point) }
        ensures image { IfOk result (λ plan. Shows self.now page point plan.image) }
    {
        let held = records?;
        Ok(FoldPlan {
            page,
            version: point,
            image: self.store.image(page)?,
            records: copies(self.alloc, &held)?,
        })
    }

    /// Takes a folded page as the base image of its page. A version not above the page's own changes nothing.
    ///
    /// `image` has to be the page at `version`. Errors: `Ahead` where the version is above the anchor; `Memory`; the segment is
    /// then as it was, and the error returns the fold.
    pub fn commit_fold(&mut self, folded: Folded) -> Result<(), Refused<Folded, CommitFault>>
        // For a page of the log that is final.
        ensures keeps { OnOk result (KeepsMeaningWith self.old folded.page folded.version folded.image self.new) }
        // For arbitrary images.
        ensures commits { OnOk result (Commits self.old folded self.new) }
        ensures ahead { RefusesAhead self.old folded result }
        ensures refused { IfErr result (λ e. RefusesCommit self.old folded e.fault) }
        ensures back { IfErr result (λ e. e.value ≡ folded) }
        ensures unchanged { OnErr result (self.new ≡ self.old) }
    {
        let anchor = self.anchor();
        if anchor < folded.version {
            let version = folded.version;
            return Err(Refused {
                value: folded,
                fault: CommitFault::Ahead { version, anchor },
            });
        }
        self.due.add_raised(folded.page, folded.version);
        raise(&mut self.store, folded)
    }

    /// Raises the base point to the anchor, and drops each record at or below it that its page's base image has. It takes no
    /// memory.
    pub fn discard(&mut self)
        ensures keeps { KeepsMeaning self.old self.new }
        ensures discards { DiscardsJust self.old self.new }
    {
        let anchor = self.points.anchor;
        let (book, held) = (&self.book, &self.hot);
        let view = BookView { book, held };
        self.points = self.points.over(&view, self.base, anchor);
        self.base = anchor;
        self.due
            .discard(&mut self.hot, &self.book, &self.store, anchor);
    }

    /// Folds each page that has stored records to the anchor, discards, and drops the dead records: what stays is what the
    /// meaning keeps.
    ///
    /// Errors: `BrokenBlockChain` of the least page with such a chain at or below the anchor, never over a sound log; `Memory`;
    /// the segment is then as it was.
    pub fn tidy(&mut self) -> Result<(), ReadFault>
        ensures keeps { OnOk result (KeepsMeaning self.old self.new) }
        ensures kept { OnOk result (HoldsJustKept self.old self.new) }
        ensures tidies { OnOk result (Tidies self.old self.new) }
        ensures sound { IfErr result (λ e. IsSoundState self.old → e ≡ MemoryOf) }
        ensures broken { ReportsFirstBreak self.old result }
        ensures refused { IfErr result (RefusesTidy self.old) }
        ensures unchanged { OnErr result (self.new ≡ self.old) }
    {
        if let Some((page, number)) = self.first_break() {
            let fault = ReadFault::BrokenBlockChain { page, number };
            return Err(fault);
        }
        let Ok(store) = self.folded_store() else {
            return Err(ReadFault::Memory);
        };
        self.store = store;
        self.due.add_images(&self.store);
        self.discard();
        self.hot.remove_dead(&self.book);
        Ok(())
    }

    /// The least page whose block chain is broken at or below the anchor, and the LSN of the record where it is.
    pub fn first_break(&self) -> Option<(u16, u64)>
        ensures first { (page n : ℕ) → (result ≡ Some (page, n)) ↔ IsFirstBreak self.now page n }
        ensures none { result ≡ None → IsWhole self.now }
    {
        let point = self.anchor();
        let mut next = self.hot.page_after(None);
        while let Some(page) = next {
            if let Some(number) = self.broken_link(page, point) {
                return Some((page, number));
            }
            next = self.hot.page_after(Some(page));
        }
        None
    }

    /// The base images with each page that has stored records folded to the anchor.
    fn folded_store(&self) -> Result<BaseStore, AllocError>
        ensures folds { IfOk result (FoldsAll self.now) }
        ensures form { IfOk result IsStored }
    {
        let anchor = self.anchor();
        let mut store = self.store.copy()?;
        let mut next = self.hot.page_after(None);
        while let Some(page) = next {
            let folded = self.plan_at(page, anchor)?.fold();
            let Ok(()) = raise(&mut store, folded) else {
                return Err(AllocError);
            };
            next = self.hot.page_after(Some(page));
        }
        Ok(store)
    }
}

/// Raises a page of the store to a folded image.
fn raise(store: &mut BaseStore, folded: Folded) -> Result<(), Refused<Folded, CommitFault>>
    ensures raises { OnOk result (Raises store.old folded.page folded.version folded.image store.new) }
    ensures refused { IfErr result (λ e. (e.value ≡ folded) × (e.fault ≡ OfMemory) × (version_of store.old folded.page < folded.version)) }
    ensures unchanged { OnErr result (store.new ≡ store.old) }
    ensures form { IsStored store.new }
{
    let Folded {
        page,
        version,
        image,
    } = folded;
    match store.raise(page, version, image) {
        Ok(()) => Ok(()),
        Err(refused) => Err(Refused {
            value: Folded {
                page,
                version,
                image: refused.value,
            },
            fault: CommitFault::Memory,
        }),
    }
}

/// Copies of records, in order.
fn copies(alloc: Global, records: &[&Record]) -> Result<Vec<Record>, AllocError>
    ensures { IfOk result (λ v. v.items ≡ map (λ x. x.now) records.now) }
{
    let mut copied = Vec::with_capacity(alloc, records.len())?;
    for redo in records {
        copied.push(redo.copy()?)?;
    }
    Ok(copied)
}

/// Removes the alive records at or below a point that the images have.
pub(crate) fn remove_all_folded(hot: &mut HotLog, book: &EpochBook, store: &BaseStore, point: u64)
    requires { IsHeld hot.old }
    ensures removes { Removes (λ r. IsAlive book.now.cuts book.now.complete r.epoch r.number × (r.number ≤ point) × (r.number ≤ version_of store.now r.page)) hot.old hot.new }
    ensures form { IsHeld hot.new }
{
    // At default version 0 a page without an image has none of its records in it: so pages that were never folded cost nothing.
    if store.floor() == 0 {
        remove_in_images(hot, book, store.pages(), point);
    } else {
        remove_page_by_page(hot, book, store, point);
    }
}

/// Removes the alive records at or below a point that one of these images has.
fn remove_in_images(hot: &mut HotLog, book: &EpochBook, images: &[BaseImage], point: u64)
    requires { IsHeld hot.old }
    ensures removes { RemovesInImages book.now point images.now hot.old hot.new }
    ensures form { IsHeld hot.new }
{
    for image in images {
        hot.remove_folded(book, image.page(), image.version(), point);
    }
}

/// Removes the alive records at or below a point that the images have, from each page with stored records.
fn remove_page_by_page(hot: &mut HotLog, book: &EpochBook, store: &BaseStore, point: u64)
    requires { IsHeld hot.old }
    ensures removes { Removes (λ r. IsAlive book.now.cuts book.now.complete r.epoch r.number × (r.number ≤ point) × (r.number ≤ version_of store.now r.page)) hot.old hot.new }
    ensures form { IsHeld hot.new }
{
    let mut next = hot.page_after(None);
    while let Some(page) = next {
        hot.remove_folded(book, page, store.version(page), point);
        next = hot.page_after(Some(page));
    }
}
