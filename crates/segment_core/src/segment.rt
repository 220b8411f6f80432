ghost use Rattle.std.specs.Prelude.{◌≡◌, ℕ, ◌≤◌, ◌⊎◌, ◌++◌, ◌∷◌, ◌↔◌, [], List, None, Some, IfOk, OnOk, OnErr, IfErr, IsOkAnd, IsErrAnd, IsTrue, map};
ghost use Rattle.std.specs.Option.{option_copied};
ghost use Rattle.redo_core.specs.Book.{roster_of};
ghost use Rattle.redo_core.specs.Position.{Position};
ghost use Rattle.redo_core.specs.Sound.{IsSound};
ghost use Rattle.redo_core.specs.declared.facts.Fact.{Fact as AnyFact};
ghost use Rattle.redo_core.specs.declared.facts.Fact.TheVariants.{Record as OfRecord, Cut as OfCut, Advance as OfAdvance};
ghost use Rattle.segment_theorems.specs.State.{State, SameBase, empty_state, image_of};
ghost use Rattle.segment_theorems.specs.Means.{MeansAt, Means};
ghost use Rattle.segment_theorems.specs.HasMeaning.{HasAnchor, IsStable};
ghost use Rattle.redo_core.specs.Writing.{after_records, write, zeros};
ghost use Rattle.segment_theorems.specs.Shows.{Shows};
ghost use Rattle.segment_theorems.specs.Promises.{TakesFact};
ghost use Rattle.segment_core.specs.Taking.{ReportsChange, ReportsKnown, Stores, IsNew};
ghost use Rattle.redo_core.specs.Linked.{IsLinked};
ghost use Rattle.segment_core.specs.Form.{IsSegment};
ghost use Rattle.segment_core.specs.Standing.{StandsAt};
ghost use Rattle.segment_core.specs.Refusing.{Refuses, IsDeadOrSettled, FitsSoundLog};
ghost use Rattle.hot_log.specs.Held.{IsHeld};
ghost use Rattle.hot_log.specs.Alive.{IsLinkedHeld};
ghost use Rattle.hot_log.specs.Found.{IsOnlyRecord};
ghost use Rattle.hot_log.specs.Kept.{KeepsKey};
ghost use Rattle.hot_log.specs.Putting.{Puts, RefusesPut};
ghost use Rattle.segment_core.specs.BlockChain.{BreaksAt, ReportsBreak};
ghost use Rattle.segment_core.specs.Answering.{AnswersBook, AnswersPut, refusal_of, put_refusal_of};
ghost use Rattle.segment_core.specs.Exactly.{TakesExactly};
ghost use Rattle.segment_core.specs.Reading.{IsFrontAt, IsFrontOf, IsReadResult, ReportsOutside};
ghost use Rattle.segment_core.specs.declared.answers.Refusal.{Refusal as AnyRefusal};
ghost use Rattle.segment_core.specs.declared.answers.Refusal.TheVariants.{Memory as MemoryOf};
ghost use Rattle.segment_core.specs.declared.answers.Taken.TheVariants.{Changed as ChangedOf, Unchanged as UnchangedOf};

use crate::answers::{Front, ReadFault, Refusal, Taken};
use crate::cutting::lo_opened_by;
use crate::pending::PendingPages;
use crate::points::Points;
use crate::putting::put_record;
use epoch_book::{BookRefusal, EpochBook, Learnt, Standing};
use hot_log::{BookView, HotLog, Put, PutFault, is_kept};
use page_base::BaseStore;
use redo_core::{Advance, Cut, Fact, Key, Page, Record, Refused, Roster, apply};
use std::alloc::{AllocError, Global};
use std::marker::Model;

/// A segment of a protection group: its truncations and advances, its redo records by key, the base images of its pages, and
/// a base point up to which it knows that nothing is missing.
///
/// At all times the base point is not above the minimum read point; the complete point that `points` keeps is the greatest LSN
/// that the stored records link from the base point on, and the anchor the greatest of those up to the minimum read point; and
/// where `points` calls the chain `straight`, each stored alive record from the base point to the complete point is linked, and none
/// of them has two successors there. Each page whose image has a stored alive record is pending for the next discard.
#[derive(Drop)]
pub struct Segment {
    pub(crate) alloc: Global,
    pub(crate) book: EpochBook,
    pub(crate) hot: HotLog,
    pub(crate) base: u64,
    pub(crate) store: BaseStore,
    pub(crate) points: Points,
    pub(crate) due: PendingPages,
}

impl Model for Segment {
    ghost use Rattle.segment_theorems.specs.State.{State, state_of};
    ghost use Rattle.epoch_book.specs.Book.{IsBook};
    ghost use Rattle.std.specs.Prelude.{◌≤◌};
    ghost use Rattle.hot_log.specs.Held.{IsHeld};
    ghost use Rattle.page_base.specs.Stored.{IsStored};
    ghost use Rattle.redo_core.specs.Roster.{least};
    ghost use Rattle.segment_core.specs.Points.{HasPoints};
    ghost use Rattle.segment_core.specs.PendingPages.{HasPending};

    ghost Value = { State };

    ghost view = { λ s. state_of s.book s.hot s.base s.store };

    ghost invariant = { λ s. IsBook s.book × IsHeld s.hot × IsStored s.store × (s.base ≤ least s.book.points) × HasPoints s.book s.hot s.base s.points × HasPending s.book s.hot s.store s.due };
}

impl Segment {
    /// A segment of a roster of readers, that no fact has reached. It fails only if memory runs out.
    pub fn new(alloc: Global, roster: Roster) -> Result<Self, AllocError>
        ensures empty { IfOk result (λ s. s ≡ empty_state roster) }
        ensures means { IfOk result (λ s. (log : List AnyFact) → Means roster log [] s) }
    {
        let book = EpochBook::new(alloc, roster)?;
        let hot = HotLog::new(alloc);
        let view = BookView {
            book: &book,
            held: &hot,
        };
        let points = Points::anew(&view, 0);
        Ok(Segment {
            alloc,
            book,
            hot,
            base: 0,
            store: BaseStore::new(alloc),
            points,
            due: PendingPages::new(alloc),
        })
    }

    /// An equal segment with memory of its own. It fails only if memory runs out.
    pub fn copy(&self) -> Result<Self, AllocError>
        ensures { IfOk result (λ s. s ≡ self.now) }
    {
        Ok(Segment {
            alloc: self.alloc,
            due: self.due.copy()?,
            book: self.book.copy()?,
            store: self.store.copy()?,
            base: self.base,
            points: self.points,
            hot: self.hot.copy()?,
        })
    }

    /// Takes one fact into the segment, and returns whether that changed what the segment means.
    ///
    /// A record that is dead, or alive at or below the anchor, changes nothing and is not compared.
    /// Errors: `OtherRoster`, `OtherCut`, `Contradiction`, `OtherRecord`, `Memory`; the segment is then as it was, and the error returns the fact.
    pub fn take(&mut self, fact: Fact) -> Result<Taken, Refused<Fact, Refusal>>
        // For the facts that the segment means.
        ensures means { OnOk result (TakesFact self.old fact self.new) }
        ensures tells { IfOk result (ReportsChange self.old fact) }
        ensures sound { IfErr result (λ e. FitsSoundLog self.old fact → e.fault ≡ MemoryOf) }

        // For arbitrary facts.
        ensures known { IfOk result (ReportsKnown self.old fact) }
        ensures stores { IfOk result (λ taken. taken ≡ ChangedOf → Stores self.old fact self.new) }
        ensures idle { IfOk result (λ taken. taken ≡ UnchangedOf → self.new ≡ self.old) }
        ensures refuses { (why : AnyRefusal) → Refuses self.old fact why → IsErrAnd result (λ e. e.fault ≡ why) }
        ensures refused { IfErr result (λ e. (e.fault ≡ MemoryOf) ⊎ Refuses self.old fact e.fault) }
        ensures memory { IfErr result (λ e. e.fault ≡ MemoryOf → IsNew self.old fact) }
        ensures back { IfErr result (λ e. e.value ≡ fact) }
        ensures unchanged { OnErr result (self.new ≡ self.old) }
    {
        self.take_fact(fact)
    }

    /// The complete epoch, the complete point and the minimum read point.
    pub fn front(&self) -> Front
        ensures front { (roster : ℕ) (log facts : List AnyFact) (p : Position) → IsSound roster log → MeansAt roster log facts p self.now → IsFrontAt p result }
        ensures own { IsFrontOf self.now result }
        ensures form { IsSegment self.now }
    {
        Front {
            epoch: self.book.complete_epoch(),
            complete: self.points.complete,
            min: self.book.min_point(),
        }
    }

    /// Each reader's point, by reader; the least of them is the minimum read point.
    pub fn points(&self) -> &[u64]
        ensures points { (roster : ℕ) (log facts : List AnyFact) (p : Position) → IsSound roster log → MeansAt roster log facts p self.now → result.now ≡ p.points }
        ensures own { result.now ≡ self.now.book.points }
        ensures form { IsSegment self.now }
    {
        self.book.points()
    }

    /// How many readers the log has, 1 to 15.
    pub fn readers(&self) -> u8
        ensures { result ≡ roster_of self.now.book }
    {
        self.points().len() as u8
    }

    /// The greatest linked LSN that is not above the minimum read point.
    pub fn anchor(&self) -> u64
        ensures anchor { (roster : ℕ) (log facts : List AnyFact) (p : Position) → IsSound roster log → MeansAt roster log facts p self.now → result ≡ p.anchor }
        ensures own { HasAnchor self.now result }
    {
        self.points.anchor
    }

    /// The LSN up to which the segment knows that it is complete, whatever it has dropped.
    pub fn base_point(&self) -> u64
        ensures base { (roster : ℕ) (log facts : List AnyFact) (p : Position) → IsSound roster log → MeansAt roster log facts p self.now → IsLinked facts p.epoch result × (result ≤ p.anchor) }
        ensures own { result ≡ self.now.base }
        ensures form { IsSegment self.now }
    {
        self.opens_form();
        self.base
    }

    /// Does nothing. A caller uses it for its postcondition: a segment has the form of one.
    pub fn opens_form(&self)
        ensures form { IsSegment self.now }
    {
        let _base = self.base;
    }

    /// Whether a record of an epoch and LSN is alive, dead or waiting in the segment's view.
    pub fn stands(&self, epoch: u16, number: u64) -> Standing
        ensures { StandsAt self.now epoch number result }
    {
        self.book.stands(epoch, number)
    }

    /// Whether a record is dead, or alive at or below the anchor: such a record is not compared, and a take of it changes nothing.
    pub fn is_stable(&self, redo: &Record) -> bool
        ensures { IsTrue result ↔ IsDeadOrSettled self.now redo.now }
    {
        match self.book.stands(redo.epoch(), redo.number()) {
            Standing::Dead => true,
            Standing::Waiting => false,
            Standing::Alive => redo.number() <= self.anchor(),
        }
    }

    /// Whether a record of a key waits, or is alive above a point: at the anchor, whether a segment that stores it keeps it.
    pub fn keeps(&self, key: Key, point: u64) -> bool
        ensures { IsTrue result ↔ KeepsKey self.now.book point key }
    {
        is_kept(&self.book, key, point)
    }
}

impl Segment {
    /// The page at a read point.
    ///
    /// Errors: `Below` with the minimum read point where the point is below it, else `Above` with the complete point where the
    /// point is above it, else `BrokenBlockChain` with the record whose block backlink leads nowhere; `Memory`.
    pub fn read(&self, page: u16, point: u64) -> Result<Page, ReadFault>
        ensures result { (roster : ℕ) (log facts : List AnyFact) (p : Position) → IsSound roster log → MeansAt roster log facts p self.now → IsReadResult facts p page point result }
        // For arbitrary facts.
        ensures own { IfOk result (λ image. Shows self.now page point image) }
        ensures outside { ReportsOutside self.now point result }
        ensures broken { ReportsBreak self.now page point result }
    {
        let front = self.front();
        if point < front.min {
            return Err(ReadFault::Below { min: front.min });
        }
        if front.complete < point {
            return Err(ReadFault::Above {
                complete: front.complete,
            });
        }
        let records = self.records_at(page, point);
        if let Some(number) = self.broken_of(&records, page, point) {
            return Err(ReadFault::BrokenBlockChain { page, number });
        }
        match self.page_with(page, records) {
            Ok(image) => Ok(image),
            Err(_) => Err(ReadFault::Memory),
        }
    }

    /// The page's image with its stored records up to the point.
    pub(crate) fn page_at(&self, page: u16, point: u64) -> Result<Page, AllocError>
        ensures { IfOk result (λ image. Shows self.now page point image) }
    {
        self.page_with(page, self.records_at(page, point))
    }

    /// The page's image with the records that are applied to it.
    fn page_with(
        &self,
        page: u16,
        records: Result<Vec<&Record>, AllocError>,
    ) -> Result<Page, AllocError>
        ensures { IfOk result (λ image. IsOkAnd records.entry (λ v. image ≡ after_records (image_of self.now.store page) (map (λ x. x.now) v.items))) }
    {
        let records = records?;
        if let Some((first, later)) = records.split_first() {
            // A record with `init` starts from zeros: the base image is not read, and zeros are written once.
            if first.init() {
                return page_from(self.alloc, first, later);
            }
        }
        let mut image = self.store.image(page)?;
        apply_all(&records, &mut image);
        Ok(image)
    }
}

/// The page that a record makes of zeros, with later records applied to it.
fn page_from(alloc: Global, first: &Record, later: &[&Record]) -> Result<Page, AllocError>
    ensures { IfOk result (λ page. page ≡ after_records (write zeros first.now) (map (λ x. x.now) later.now)) }
{
    let mut page = Page::made_by(alloc, first)?;
    apply_all(later, &mut page);
    Ok(page)
}

/// Applies records to a page, in order.
fn apply_all(records: &[&Record], page: &mut Page)
    ensures { page.new ≡ after_records page.old (map (λ x. x.now) records.now) }
{
    for redo in records {
        apply(redo, page);
    }
}

impl Segment {
    fn take_fact(&mut self, fact: Fact) -> Result<Taken, Refused<Fact, Refusal>>
        ensures { TakesExactly self.old fact result self.new }
    {
        match fact {
            Fact::Record(redo) => self.take_record(redo),
            Fact::Cut(cut) => self.take_cut(cut),
            Fact::Advance(advance) => self.take_advance(advance),
        }
    }

    pub(crate) fn take_cut(&mut self, cut: Cut) -> Result<Taken, Refused<Fact, Refusal>>
        ensures { TakesExactly self.old (OfCut cut) result self.new }
    {
        let epoch = self.book.complete_epoch();
        let limit = lo_opened_by(&self.book, cut);
        let view = BookView {
            book: &self.book,
            held: &self.hot,
        };
        let spared = self.points.spared(&view, self.base, limit);
        let learnt = self.book.learn_cut(cut);
        if self.book.complete_epoch() != epoch {
            let (book, held) = (&self.book, &self.hot);
            let view = BookView { book, held };
            self.points = self.points.after_opening(&view, self.base, epoch, spared);
            self.due.add_opened(&self.book, epoch);
        }
        book_answer(Fact::Cut(cut), learnt)
    }

    pub(crate) fn take_advance(&mut self, advance: Advance) -> Result<Taken, Refused<Fact, Refusal>>
        ensures { TakesExactly self.old (OfAdvance advance) result self.new }
    {
        let learnt = self.book.learn_advance(advance);
        let (book, held) = (&self.book, &self.hot);
        let view = BookView { book, held };
        self.points = self.points.with_anchor(&view, self.base);
        book_answer(Fact::Advance(advance), learnt)
    }

    pub(crate) fn take_record(&mut self, redo: Record) -> Result<Taken, Refused<Fact, Refusal>>
        ensures { TakesExactly self.old (OfRecord redo) result self.new }
    {
        if self.is_stable(&redo) {
            return Ok(Taken::Unchanged);
        }
        put_answer(self.put(redo))
    }

    /// Stores a record, stable or not, and returns whether it was new. Each error returns it and leaves the segment as it was.
    pub(crate) fn put(&mut self, redo: Record) -> Result<Put, Refused<Record, PutFault>>
        ensures put { IfOk result (Puts self.old.held redo self.new.held) }
        ensures refused { IfErr result (λ e. (e.value ≡ redo) × RefusesPut self.old.held redo e.fault) }
        ensures unchanged { OnErr result (self.new ≡ self.old) }
        ensures form { IsHeld self.new.held }
        ensures book { self.new.book ≡ self.old.book }
        ensures rest { SameBase self.old self.new }
    {
        self.due.add_held(&redo);
        let (points, hot) = (&mut self.points, &mut self.hot);
        put_record(points, hot, &self.book, self.base, redo)
    }
}

fn book_answer(
    fact: Fact,
    learnt: Result<Learnt, BookRefusal>,
) -> Result<Taken, Refused<Fact, Refusal>>
    ensures { AnswersBook fact learnt result }
{
    match learnt {
        Ok(Learnt::New) => Ok(Taken::Changed),
        Ok(Learnt::Known) => Ok(Taken::Unchanged),
        Err(refusal) => Err(Refused {
            value: fact,
            fault: book_refusal(refusal),
        }),
    }
}

fn book_refusal(refusal: BookRefusal) -> Refusal
    ensures { result ≡ refusal_of refusal }
{
    match refusal {
        BookRefusal::OtherRoster { own, shown } => Refusal::OtherRoster { own, shown },
        BookRefusal::OtherCut(cut) => Refusal::OtherCut(cut),
        BookRefusal::Contradiction(held) => Refusal::Contradiction(held),
        BookRefusal::Memory => Refusal::Memory,
    }
}

fn put_answer(put: Result<Put, Refused<Record, PutFault>>) -> Result<Taken, Refused<Fact, Refusal>>
    ensures { AnswersPut put result }
{
    match put {
        Ok(Put::New) => Ok(Taken::Changed),
        Ok(Put::Known) => Ok(Taken::Unchanged),
        Err(refused) => Err(Refused {
            value: Fact::Record(refused.value),
            fault: put_refusal(refused.fault),
        }),
    }
}

fn put_refusal(fault: PutFault) -> Refusal
    ensures { result ≡ put_refusal_of fault }
{
    match fault {
        PutFault::OtherRecord => Refusal::OtherRecord,
        PutFault::Memory => Refusal::Memory,
    }
}
