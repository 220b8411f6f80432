ghost use Rattle.std.specs.Prelude.{◌≡◌, ◌≢◌, ◌⊎◌, ℕ, ◌≤◌, List, [], true, false, Ok, IfOk, IfSome, OnOk, OnErr, IfErr, IsTrue, ◌↔◌, length, map};
ghost use Rattle.std.specs.Borrow.{Lends, sem};
ghost use Rattle.redo_core.specs.Data.{CutData};
ghost use Rattle.redo_core.specs.Keys.{key_of};
ghost use Rattle.redo_core.specs.Position.{Position};
ghost use Rattle.redo_core.specs.Roster.{least};
ghost use Rattle.redo_core.specs.Sound.{IsSound};
ghost use Rattle.redo_core.specs.Linked.{IsLinked};
ghost use Rattle.redo_core.specs.Order.{IsRising, RecordBefore};
ghost use Rattle.redo_core.specs.declared.facts.Fact.{Fact as AnyFact};
ghost use Rattle.redo_core.specs.declared.facts.Fact.TheVariants.{Cut as OfCut};
ghost use Rattle.segment_theorems.specs.Means.{MeansAt};
ghost use Rattle.segment_theorems.specs.Shows.{Shows};
ghost use Rattle.segment_theorems.specs.Promises.{KeepsMeaning, KeepsMeaningWith};
ghost use Rattle.segment_core.specs.BlockChain.{ReportsBreak};
ghost use Rattle.segment_core.specs.Exactly.{TakesExactly};
ghost use Rattle.segment_theorems.specs.HasMeaning.{HasAnchor};
ghost use Rattle.segment_core.specs.Folding.{IsPlanResult, PlansFold, Commits, RefusesCommit, RefusesAhead};
ghost use Rattle.segment_core.specs.Forgetting.{DiscardsJust, Tidies, HoldsJustKept, IsSoundState, ReportsFirstBreak, RefusesTidy};
ghost use Rattle.segment_core.specs.Reading.{IsFrontAt, IsFrontOf, IsReadResult, ReportsOutside};
ghost use Rattle.segment_core.specs.Refusing.{FitsSoundLog};
ghost use Rattle.segment_core.specs.Taking.{ReportsChange};
ghost use Rattle.segment_core.specs.declared.answers.ReadFault.TheVariants.{Memory as OfMemory};
ghost use Rattle.segment_core.specs.declared.answers.Refusal.TheVariants.{Memory as MemoryOf};
ghost use Rattle.segment_core.specs.declared.answers.Taken.TheVariants.{Changed as ChangedOf, Unchanged as UnchangedOf};
ghost use Rattle.redo_core.specs.Book.{roster_of};
ghost use Rattle.segment_core.specs.declared.answers.Refusal.TheVariants.{OtherRoster as OtherRosterOf};
ghost use Rattle.gossip_core.specs.declared.absorbing.AbsorbRefusal.TheVariants.{Refused as RefusedFor, Uncovered as UncoveredBy};
ghost use Rattle.gossip_core.specs.declared.answering.Shown.{Shown as AnyShown};
ghost use Rattle.gossip_core.specs.Absorbing.{MeansBoth, IsOfOneLog, Answers, AbsorbsInto, RefusesAbsorb, ReportsRoster};
ghost use Rattle.segment_join.specs.Joining.{MeansUnion, AreOfOneLog, JoinsInto, TakesTold, RefusesJoin};
ghost use Rattle.lru.specs.LruCache.{lru_cache};
ghost use Rattle.read_cache.specs.Cached.{IsCached, IsShown, cached};
ghost use Rattle.read_cache.specs.Images.{kept_at};
ghost use Rattle.read_cache.specs.Reading.{ReportsUnkeptBreak, IsHit};
ghost use Rattle.read_cache.specs.UpToDate.{Touches};

use crate::images::Images;
use gossip_core::AbsorbRefusal;
use messages::{Delta, Summary};
use redo_core::{Fact, Key, Page, Refused};
use segment_core::{CommitFault, FoldPlan, Folded, Front, ReadFault, Refusal, Segment, Taken};
use std::alloc::AllocError;
use std::marker::Model;

/// A segment with a cache of page images, which answers as the segment does.
///
/// Each image is what the segment shows at its point. No point is above `top`, which is not above the complete point.
#[derive(Drop)]
pub struct CachedSegment {
    segment: Segment,
    images: Images,
    top: u64,
}

impl Model for CachedSegment {
    ghost use Rattle.read_cache.specs.Cached.{Cached, cached};
    ghost use Rattle.read_cache.specs.UpToDate.{IsUpToDate};

    ghost Value = { Cached };

    ghost view = { λ c. cached c.segment c.images.cap c.images.entries };

    ghost invariant = { λ c. IsUpToDate c.segment c.top c.images.entries };
}

impl CachedSegment {
    /// A segment that keeps at most `pages` images, at first none; with 0 pages it never keeps one.
    ///
    /// The only error is lack of memory: it returns the segment.
    pub fn new(segment: Segment, pages: usize) -> Result<Self, Refused<Segment, AllocError>>
        ensures made { IfOk result (λ c. c ≡ cached segment pages []) }
        ensures back { IfErr result (λ e. e.value ≡ segment) }
    {
        match Images::new(segment.allocator(), pages) {
            Ok(images) => Ok(CachedSegment {
                segment,
                images,
                top: 0,
            }),
            Err(fault) => Err(Refused {
                value: segment,
                fault,
            }),
        }
    }

    /// The segment, for calls that change nothing. Its own reads bypass the cache.
    pub fn segment(&self) -> &Segment
        ensures { result.now ≡ self.now.segment }
    {
        &self.segment
    }

    /// The complete epoch, the complete point and the minimum read point.
    pub fn front(&self) -> Front
        ensures front { (roster : ℕ) (log facts : List AnyFact) (p : Position) → IsSound roster log → MeansAt roster log facts p self.now.segment → IsFrontAt p result }
        ensures own { IsFrontOf self.now.segment result }
    {
        self.segment.front()
    }

    /// The greatest linked LSN that is not above the minimum read point.
    pub fn anchor(&self) -> u64
        ensures anchor { (roster : ℕ) (log facts : List AnyFact) (p : Position) → IsSound roster log → MeansAt roster log facts p self.now.segment → result ≡ p.anchor }
        ensures own { HasAnchor self.now.segment result }
    {
        self.segment.anchor()
    }

    /// The LSN up to which the segment knows that it is complete, whatever it has dropped.
    pub fn base_point(&self) -> u64
        ensures base { (roster : ℕ) (log facts : List AnyFact) (p : Position) → IsSound roster log → MeansAt roster log facts p self.now.segment → IsLinked facts p.epoch result × (result ≤ p.anchor) }
        ensures own { result ≡ self.now.segment.base }
    {
        self.segment.base_point()
    }

    /// A plan to fold a page to the anchor, as `Segment::plan_fold` makes it.
    ///
    /// Errors: `BrokenBlockChain`, never over a sound log; `Memory`.
    pub fn plan_fold(&self, page: u16) -> Result<FoldPlan, ReadFault>
        ensures result { (roster : ℕ) (log facts : List AnyFact) (p : Position) → IsSound roster log → MeansAt roster log facts p self.now.segment → IsPlanResult facts p page result }
        ensures own { PlansFold self.now.segment page result }
    {
        self.segment.plan_fold(page)
    }

    /// The keys (epoch and LSN) of the stored records, rising. It fails only if memory runs out.
    pub fn stored(&self) -> Result<Vec<Key>, AllocError>
        ensures keys { IfOk result (λ v. v.items ≡ map key_of self.now.segment.held) }
        ensures rising { IsRising RecordBefore self.now.segment.held }
    {
        self.segment.stored()
    }

    /// How many images are kept.
    pub fn kept(&self) -> usize
        ensures count { result ≡ length self.now.images }
        ensures form { IsCached self.now }
    {
        self.images.len()
    }

    /// The segment itself. The images are dropped.
    pub fn into_segment(self) -> Segment
        ensures { result ≡ self.segment }
    {
        self.segment
    }
}

impl CachedSegment {
    ghost use Rattle.segment_core.specs.contracts.segment.Segment.{the_row as segment_row};
    ghost use Rattle.read_cache.specs.contracts.cached.CachedSegment.{the_row};

    /// The segment, to be changed in any way. Every image is dropped first.
    pub fn segment_mut(&mut self) -> &mut Segment
        ensures* lends { sem 𝓛 (Lends the_row segment_row self.entry result (λ segment. cached segment self.old.pages [])) }
        ensures lent { result.now ≡ self.old.segment }
    {
        self.images.clear();
        self.top = 0;
        &mut self.segment
    }
}

impl CachedSegment {
    /// Takes one fact into the segment, as `Segment::take` does. A new truncation drops every image, and so does a new record at or below
    /// a point that one was read at.
    ///
    /// Errors: `OtherRoster`, `OtherCut`, `Contradiction`, `OtherRecord`, `Memory`; nothing has changed then, and the error returns the fact.
    pub fn take(&mut self, fact: Fact) -> Result<Taken, Refused<Fact, Refusal>>
        // For the facts that the segment means.
        ensures tells { IfOk result (ReportsChange self.old.segment fact) }
        ensures sound { IfErr result (λ e. FitsSoundLog self.old.segment fact → e.fault ≡ MemoryOf) }

        // For arbitrary facts.
        ensures takes { TakesExactly self.old.segment fact result self.new.segment }
        ensures drops { (cut : CutData) → fact ≡ OfCut cut → result ≡ Ok ChangedOf → self.new.images ≡ [] }
        ensures idle { IfOk result (λ taken. taken ≡ UnchangedOf → self.new ≡ self.old) }
        ensures unchanged { OnErr result (self.new ≡ self.old) }
        ensures pages { self.new.pages ≡ self.old.pages }
    {
        let touched = touches(&fact, self.top);
        let taken = self.segment.take(fact);
        let stale = is_stale(touched, &taken);
        clear_if(stale, &mut self.images, &mut self.top);
        taken
    }

    /// The page at a read point, as `Segment::read` returns it. A copy of the image is kept where memory allows.
    ///
    /// Errors: `Below` with the minimum read point where the point is below it, else `Above` with the complete point where the
    /// point is above it, else `BrokenBlockChain` with the record whose block backlink leads nowhere, unless an image is kept that was
    /// read there before; `Memory`.
    pub fn read(&mut self, page: u16, point: u64) -> Result<Page, ReadFault>
        ensures result { (roster : ℕ) (log facts : List AnyFact) (p : Position) → IsSound roster log → MeansAt roster log facts p self.old.segment → IsReadResult facts p page point result }
        // For arbitrary facts.
        ensures own { IfOk result (λ image. Shows self.old.segment page point image) }
        ensures outside { ReportsOutside self.old.segment point result }
        ensures broken { ReportsUnkeptBreak self.old page point result }
        ensures segment { self.new.segment ≡ self.old.segment }
        ensures pages { self.new.pages ≡ self.old.pages }
    {
        match self.find(page, point) {
            Some(answer) => answer,
            None => self.read_anew(page, point),
        }
    }

    /// Takes a folded page as the base image of its page, as `Segment::commit_fold` does. The page's cached image is dropped.
    ///
    /// `image` has to be the page at `version`. Errors: `Ahead` where the version is above the anchor; `Memory`; nothing has changed
    /// then, and the error returns the fold.
    pub fn commit_fold(&mut self, folded: Folded) -> Result<(), Refused<Folded, CommitFault>>
        // For a page of the log that is final.
        ensures keeps { OnOk result (KeepsMeaningWith self.old.segment folded.page folded.version folded.image self.new.segment) }
        // For arbitrary images.
        ensures commits { OnOk result (Commits self.old.segment folded self.new.segment) }
        ensures ahead { RefusesAhead self.old.segment folded result }
        ensures refused { IfErr result (λ e. RefusesCommit self.old.segment folded e.fault) }
        ensures back { IfErr result (λ e. e.value ≡ folded) }
        ensures unchanged { OnErr result (self.new ≡ self.old) }
        ensures pages { self.new.pages ≡ self.old.pages }
    {
        let page = folded.page;
        match self.segment.commit_fold(folded) {
            Ok(()) => {
                self.images.forget(page);
                Ok(())
            }
            Err(refused) => Err(refused),
        }
    }

    /// Raises the base point to the anchor, and drops each record at or below it that its page's base image has. It takes no
    /// memory.
    pub fn discard(&mut self)
        ensures keeps { KeepsMeaning self.old.segment self.new.segment }
        ensures discards { DiscardsJust self.old.segment self.new.segment }
        ensures pages { self.new.pages ≡ self.old.pages }
    {
        self.segment.discard();
        // Over a sound log the complete point is as it was.
        let stale = self.segment.front().complete < self.top;
        clear_if(stale, &mut self.images, &mut self.top);
    }

    /// Folds each page that has stored records to the anchor, discards, and drops the dead records, as `Segment::tidy` does. Every
    /// cached image is dropped.
    ///
    /// Errors: `BrokenBlockChain` of the least page with such a chain at or below the anchor, never over a sound log; `Memory`;
    /// nothing has changed then.
    pub fn tidy(&mut self) -> Result<(), ReadFault>
        ensures keeps { OnOk result (KeepsMeaning self.old.segment self.new.segment) }
        ensures kept { OnOk result (HoldsJustKept self.old.segment self.new.segment) }
        ensures tidies { OnOk result (Tidies self.old.segment self.new.segment) }
        ensures sound { IfErr result (λ e. IsSoundState self.old.segment → e ≡ OfMemory) }
        ensures broken { ReportsFirstBreak self.old.segment result }
        ensures refused { IfErr result (RefusesTidy self.old.segment) }
        ensures unchanged { OnErr result (self.new ≡ self.old) }
        ensures pages { self.new.pages ≡ self.old.pages }
    {
        match self.segment.tidy() {
            Ok(()) => {
                self.images.clear();
                self.top = 0;
                Ok(())
            }
            Err(fault) => Err(fault),
        }
    }
}

impl CachedSegment {
    /// Merges into the segment what a delta has beyond its summary, as `gossip_core::absorb` does. Every cached image is dropped.
    ///
    /// Errors: `OtherRoster` exactly where the two rosters differ; else `Uncovered` exactly where the segment does not answer for the
    /// summary; else as of the first fact that `take` would refuse; `Memory`; nothing has changed then, and every image stays.
    pub fn absorb(&mut self, summary: &Summary, delta: &Delta) -> Result<(), AbsorbRefusal>
        // Inside one sound log.
        ensures means { OnOk result (MeansBoth self.old.segment summary.now delta.now self.new.segment) }
        ensures sound { IfErr result (λ e. IsOfOneLog self.old.segment summary.now delta.now → (e ≡ RefusedFor MemoryOf) ⊎ ((shown : AnyShown) × (e ≡ UncoveredBy shown))) }

        // For arbitrary facts.
        ensures absorbs { OnOk result (AbsorbsInto self.old.segment delta.now self.new.segment) }
        ensures answers { OnOk result (Answers self.old.segment summary.now) }
        ensures refused { IfErr result (RefusesAbsorb self.old.segment summary.now delta.now) }
        ensures roster { ReportsRoster self.old.segment delta.now result }
        ensures drops { OnOk result (self.new.images ≡ []) }
        ensures unchanged { OnErr result (self.new ≡ self.old) }
        ensures pages { self.new.pages ≡ self.old.pages }
    {
        match gossip_core::absorb(&mut self.segment, summary, delta) {
            Ok(()) => {
                clear(&mut self.images, &mut self.top);
                Ok(())
            }
            Err(why) => Err(why),
        }
    }

    /// Merges what another segment means into the segment, as `segment_join::join` does. Every cached image is dropped.
    ///
    /// Errors: `OtherRoster` where the two rosters differ; else as of the first fact that `take` would refuse; `Memory`; nothing has
    /// changed then, and every image stays.
    pub fn join(&mut self, other: &Segment) -> Result<(), Refusal>
        // Inside one sound log.
        ensures means { OnOk result (MeansUnion self.old.segment other.now self.new.segment) }
        ensures sound { IfErr result (λ e. AreOfOneLog self.old.segment other.now → e ≡ MemoryOf) }

        // For arbitrary facts.
        ensures joins { OnOk result (JoinsInto self.old.segment other.now self.new.segment) }
        ensures takes { OnOk result (TakesTold self.old.segment other.now) }
        ensures refused { IfErr result (λ e. (e ≡ MemoryOf) ⊎ RefusesJoin self.old.segment other.now e) }
        ensures roster { let own = roster_of self.old.segment.book in let shown = roster_of other.now.book in IfErr result (λ e. own ≢ shown → e ≡ OtherRosterOf own shown) }
        ensures drops { OnOk result (self.new.images ≡ []) }
        ensures unchanged { OnErr result (self.new ≡ self.old) }
        ensures pages { self.new.pages ≡ self.old.pages }
    {
        match segment_join::join(&mut self.segment, other) {
            Ok(()) => {
                clear(&mut self.images, &mut self.top);
                Ok(())
            }
            Err(why) => Err(why),
        }
    }
}

impl CachedSegment {
    /// What a read returns from the page's image, where one is kept that was read at the point, and the point may be read.
    pub(crate) fn find(&mut self, page: u16, point: u64) -> Option<Result<Page, ReadFault>>
        ensures hit { IfSome result (IsHit self.old page point) }
        ensures segment { self.new.segment ≡ self.old.segment }
        ensures pages { self.new.pages ≡ self.old.pages }
    {
        if !is_reached(self.segment.points(), point) {
            return None;
        }
        match self.images.find(page, point) {
            Some(copied) => Some(served(copied)),
            None => None,
        }
    }

    /// What the segment returns for a read. A copy of it is kept.
    fn read_anew(&mut self, page: u16, point: u64) -> Result<Page, ReadFault>
        ensures result { (roster : ℕ) (log facts : List AnyFact) (p : Position) → IsSound roster log → MeansAt roster log facts p self.old.segment → IsReadResult facts p page point result }
        ensures own { IfOk result (λ image. Shows self.old.segment page point image) }
        ensures outside { ReportsOutside self.old.segment point result }
        ensures broken { ReportsBreak self.old.segment page point result }
        ensures segment { self.new.segment ≡ self.old.segment }
        ensures pages { self.new.pages ≡ self.old.pages }
    {
        let answer = self.segment.read(page, point);
        if let Ok(image) = &answer {
            self.keep(page, point, image);
        }
        answer
    }

    /// Keeps a copy of the image that the segment shows at a point, where memory allows.
    fn keep(&mut self, page: u16, point: u64, image: &Page)
        requires shown { IsShown self.old.segment page (kept_at point image.now) }
        ensures segment { self.new.segment ≡ self.old.segment }
        ensures pages { self.new.pages ≡ self.old.pages }
    {
        if let Ok(copied) = image.copy() {
            self.images.keep(page, point, copied);
            self.top = self.top.max(point);
        }
    }
}

fn clear_if(stale: bool, images: &mut Images, top: &mut u64)
    ensures cleared { stale ≡ true → (images.new ≡ lru_cache [] images.old.cap) × (top.new ≡ 0) }
    ensures same { stale ≡ false → (images.new ≡ images.old) × (top.new ≡ top.old) }
    ensures pages { images.new.cap ≡ images.old.cap }
{
    if stale {
        clear(images, top);
    }
}

/// Drops every image.
fn clear(images: &mut Images, top: &mut u64)
    ensures images { images.new ≡ lru_cache [] images.old.cap }
    ensures top { top.new ≡ 0 }
{
    images.clear();
    *top = 0;
}

/// Whether a fact, where it is new, can change what is shown at points up to `top`.
fn touches(fact: &Fact, top: u64) -> bool
    ensures { Touches fact.now top result }
{
    match fact {
        Fact::Record(redo) => redo.number() <= top,
        Fact::Cut(_) => true,
        Fact::Advance(_) => false,
    }
}

fn is_stale(touched: bool, taken: &Result<Taken, Refused<Fact, Refusal>>) -> bool
    ensures { IsTrue result ↔ (IsTrue touched × (taken.now ≡ Ok ChangedOf)) }
{
    touched && matches!(taken, Ok(Taken::Changed))
}

/// Whether a point is at or above the least of the readers' points.
fn is_reached(points: &[u64], point: u64) -> bool
    ensures { IsTrue result → least points.now ≤ point }
{
    for own in points {
        if *own <= point {
            return true;
        }
    }
    false
}

fn served(copied: Result<Page, AllocError>) -> Result<Page, ReadFault>
    ensures page { IfOk result (λ image. copied ≡ Ok image) }
    ensures memory { IfErr result (λ fault. fault ≡ OfMemory) }
{
    match copied {
        Ok(image) => Ok(image),
        Err(_) => Err(ReadFault::Memory),
    }
}
