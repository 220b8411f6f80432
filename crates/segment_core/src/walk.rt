ghost use Rattle.std.specs.Prelude.{◌≡◌, ℕ, ◌<◌, ◌≤◌, ◌↔◌, List, None, Some, map, IsTrue, IfOk, false};
ghost use Rattle.std.specs.Option.{option_copied};
ghost use Rattle.redo_core.specs.Position.{Position};
ghost use Rattle.redo_core.specs.Sound.{IsSound};
ghost use Rattle.redo_core.specs.declared.facts.Fact.{Fact as AnyFact};
ghost use Rattle.hot_log.specs.Anew.{ListsAnew};
ghost use Rattle.hot_log.specs.Found.{IsGreatestRecord, IsOnlyRecord};
ghost use Rattle.segment_theorems.specs.Means.{MeansAt};
ghost use Rattle.segment_theorems.specs.Shows.{IsApplied};
ghost use Rattle.segment_core.specs.Form.{IsSegment};
ghost use Rattle.segment_core.specs.BlockChain.{BreaksAt, IsLinkedOf, IsLinkedUpTo, IsChained};

use crate::segment::Segment;
use hot_log::BookView;
use redo_core::Record;
use std::alloc::AllocError;

impl Segment {
    /// The records that are applied to the page's image up to a point, rising, from the last one with `init` on where there is one.
    /// It fails only if memory runs out.
    pub(crate) fn records_at(&self, page: u16, point: u64) -> Result<Vec<&Record>, AllocError>
        ensures anew { IfOk result (λ v. ListsAnew (IsApplied self.now page point) (map (λ x. x.now) v.items)) }
        ensures form { IsSegment self.now }
    {
        let version = self.store.version(page);
        let (book, held) = (&self.book, &self.hot);
        BookView { book, held }.records_since_init(self.alloc, page, version, point)
    }

    /// The LSN of the record at which the walk down the page's block chain breaks, where these records are applied up to the point.
    ///
    /// Where each record up to the point is known to be linked, and each follows the one before it, no walk is needed.
    pub(crate) fn broken_of(
        &self,
        records: &Result<Vec<&Record>, AllocError>,
        page: u16,
        point: u64,
    ) -> Option<u64>
        requires { IfOk records.now (λ v. ListsAnew (IsApplied self.now page point) (map (λ x. x.now) v.items)) }
        ensures breaks { (n : ℕ) → (result ≡ Some n) ↔ BreaksAt self.now page point n }
        ensures sound { (roster : ℕ) (log facts : List AnyFact) (p : Position) → IsSound roster log → MeansAt roster log facts p self.now → point ≤ p.complete → result ≡ None }
    {
        match records {
            Ok(found) if self.is_whole(found, page, point) => None,
            _ => self.broken_link(page, point),
        }
    }

    /// Whether each record up to the point is known to be linked, and each of these follows the one before it.
    fn is_whole(&self, records: &[&Record], page: u16, point: u64) -> bool
        requires { ListsAnew (IsApplied self.now page point) (map (λ x. x.now) records.now) }
        ensures { IsTrue result → (n : ℕ) → BreaksAt self.now page point n → ⊥ }
    {
        point <= self.sure_point() && is_chained(records, self.store.version(page))
    }

    /// An LSN up to which each alive record is known to be linked.
    fn sure_point(&self) -> u64
        ensures linked { IsLinkedUpTo self.now result }
        ensures above { self.now.base ≤ result }
        ensures form { IsSegment self.now }
    {
        if self.points.straight {
            self.points.complete
        } else {
            self.base
        }
    }

    /// The LSN of the record at which the walk down the page's block chain breaks.
    pub(crate) fn broken_link(&self, page: u16, point: u64) -> Option<u64>
        ensures breaks { (n : ℕ) → (result ≡ Some n) ↔ BreaksAt self.now page point n }
        ensures sound { (roster : ℕ) (log facts : List AnyFact) (p : Position) → IsSound roster log → MeansAt roster log facts p self.now → point ≤ p.complete → result ≡ None }
    {
        let version = self.store.version(page);
        let mut redo = self.last_linked_of(page, point)?;
        while leads_on(redo, version) {
            match self.linked_of(page, redo.block_back()) {
                Some(below) => redo = below,
                None => return Some(redo.number()),
            }
        }
        None
    }

    /// The last linked record of a page up to a point.
    fn last_linked_of(&self, page: u16, point: u64) -> Option<&Record>
        ensures { IsGreatestRecord (IsLinkedOf self.now page point) (option_copied result) }
    {
        let (book, held) = (&self.book, &self.hot);
        let view = BookView { book, held };
        if point <= self.sure_point() {
            return view.last_of(page, 0, point);
        }
        match view.greatest_linked_of(page, self.base, point) {
            Some(redo) => Some(redo),
            None => view.last_of(page, 0, self.base.min(point)),
        }
    }

    /// The linked record of a page with this LSN.
    fn linked_of(&self, page: u16, number: u64) -> Option<&Record>
        ensures { IsOnlyRecord (λ r. IsLinkedOf self.now page number r × (r.number ≡ number)) (option_copied result) }
    {
        let (book, held) = (&self.book, &self.hot);
        let view = BookView { book, held };
        if number <= self.sure_point() {
            return view.next_of(page, number.saturating_sub(1), number);
        }
        let redo = view.linked_record(self.base, number)?;
        if redo.page() == page {
            Some(redo)
        } else {
            None
        }
    }
}

/// Whether a walk continues below a record: it does not `init` its page, and its block backlink is not in the image.
fn leads_on(redo: &Record, version: u64) -> bool
    ensures { IsTrue result ↔ ((redo.now.init ≡ false) × (version < redo.now.block_back)) }
{
    !redo.init() && version < redo.block_back()
}

/// Whether each record follows the one before it: the first one the image, unless it begins its page from zeros.
fn is_chained(records: &[&Record], version: u64) -> bool
    ensures { IsTrue result → IsChained version (map (λ x. x.now) records.now) }
{
    let mut below = version;
    for redo in records {
        if leads_on(redo, version) && redo.block_back() != below {
            return false;
        }
        below = redo.number();
    }
    true
}
