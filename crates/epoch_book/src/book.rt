ghost use Rattle.std.specs.Prelude.{◌≡◌, ◌<◌, ◌≤◌, ◌⊎◌, ◌↔◌, List, [], length, replicate, IfOk, OnOk, OnErr, IfErr, IfSome, IsNone, IsTrue, Err as ErrOf, None};
ghost use Rattle.std.specs.List.{All, Contains};
ghost use Rattle.std.specs.List.Sorted.{IsPartitionPoint};
ghost use Rattle.redo_core.specs.Data.{CutData};
ghost use Rattle.redo_core.specs.Shape.{cut_fault, advance_fault, epoch_count};
ghost use Rattle.redo_core.specs.Order.{IsRising, IsGreatest, IsFirst, CutBefore, AdvanceBefore};
ghost use Rattle.redo_core.specs.Past.{CutsBelow};
ghost use Rattle.redo_core.specs.CompleteEpoch.{IsCompleteEpoch};
ghost use Rattle.redo_core.specs.Standing.{IsAlive, IsDead, IsWaiting};
ghost use Rattle.redo_core.specs.declared.facts.Fact.TheVariants.{Cut as OfCut, Advance as OfAdvance};
ghost use Rattle.redo_core.specs.Roster.{IsReader, point_of, least};
ghost use Rattle.epoch_book.specs.Book.{IsBook, book_of, roster_of};
ghost use Rattle.epoch_book.specs.Lows.{CutsAt};
ghost use Rattle.epoch_book.specs.Knowing.{KnowsFacts, KnowsMore};
ghost use Rattle.epoch_book.specs.Learning.{LearnsCut, LearnsAdvance, KnowsAdvance};
ghost use Rattle.epoch_book.specs.Refusing.{LacksCut, RefusesCut, RefusesAdvance};
ghost use Rattle.epoch_book.specs.Scanning.{IsLeastLo};
ghost use Rattle.epoch_book.specs.declared.refusals.BookRefusal.{BookRefusal as AnyRefusal};
ghost use Rattle.epoch_book.specs.declared.refusals.BookRefusal.TheVariants.{Contradiction as ContradictionOf, Memory as MemoryOf};
ghost use Rattle.epoch_book.specs.declared.refusals.Held.{Held as AnyHeld};
ghost use Rattle.epoch_book.specs.declared.refusals.Learnt.TheVariants.{Known as KnownOf};
ghost use Rattle.epoch_book.specs.declared.standing.Standing.TheVariants.{Alive as AliveOf, Dead as DeadOf, Waiting as WaitingOf};

use crate::refusals::{BookRefusal, Held, Learnt};
use crate::standing::Standing;
use crate::wait_list::WaitList;
use crate::{advances, cuts, lows, points};
use redo_core::{Advance, Cut, ReadPoints, Roster};
use sorted_runs::put_in;
use std::alloc::{AllocError, Global};
use std::marker::Model;

/// The truncations and the advances that a segment knows, with the complete epoch and each reader's point.
#[derive(Drop)]
pub struct EpochBook {
    pub(crate) cuts: Vec<Cut>,
    // Of the truncations up to the complete epoch, those that cut lowest.
    pub(crate) lows: Vec<Cut>,
    pub(crate) complete: u16,
    pub(crate) points: ReadPoints,
    pub(crate) waits: WaitList,
}

impl Model for EpochBook {
    ghost use Rattle.epoch_book.specs.Book.{BookData, IsBook, book_of};
    ghost use Rattle.epoch_book.specs.Lows.{AreLows};

    ghost Value = { BookData };

    ghost view = { λ b. book_of b.cuts.items b.complete b.points b.waits };

    ghost invariant = { λ b. IsBook (book_of b.cuts.items b.complete b.points b.waits) × AreLows b.cuts.items b.complete b.lows.items };
}

impl EpochBook {
    /// A book of a roster that knows nothing: epoch 0 is complete, and each reader's point is 0. The only error is an allocation failure.
    pub fn new(alloc: Global, roster: Roster) -> Result<Self, AllocError>
        ensures empty { IfOk result (λ b. b ≡ book_of [] 0 (replicate roster 0) []) }
        ensures book { IfOk result IsBook }
        ensures knows { IfOk result (KnowsFacts []) }
    {
        let points = ReadPoints::new(alloc, roster)?;
        Ok(EpochBook {
            cuts: Vec::new(alloc),
            lows: Vec::new(alloc),
            complete: 0,
            points,
            waits: WaitList::new(Vec::new(alloc)),
        })
    }

    /// An equal book with memory of its own. The only error is an allocation failure.
    pub fn copy(&self) -> Result<Self, AllocError>
        ensures { IfOk result (λ b. b ≡ self.now) }
    {
        Ok(EpochBook {
            cuts: self.cuts.clone()?,
            lows: self.lows.clone()?,
            complete: self.complete,
            points: self.points.clone()?,
            waits: self.waits.copy()?,
        })
    }

    /// Learns a truncation. It may raise the complete epoch, by several where it closes a gap; the advances that waited for
    /// those epochs then take effect.
    ///
    /// Errors: `OtherCut` where another truncation of its epoch is stored; `Contradiction` where it is not stored and cuts below
    /// the minimum, or else where each reader's point, known or waiting in an earlier epoch, is above its `lo`; `Memory`.
    /// Each leaves the book unchanged.
    pub fn learn_cut(&mut self, cut: Cut) -> Result<Learnt, BookRefusal>
        ensures ok { OnOk result (LearnsCut self.old cut self.new) }
        ensures knows { OnOk result (KnowsMore self.old (OfCut cut) self.new) }
        ensures known { IfOk result (λ learnt. (learnt ≡ KnownOf) ↔ Contains self.old.cuts cut) }
        ensures unchanged { IfOk result (λ learnt. learnt ≡ KnownOf → self.new ≡ self.old) }
        ensures book { IsBook self.new }

        ensures err { OnErr result (self.new ≡ self.old) }
        ensures refuses { (e : AnyRefusal) → RefusesCut self.old cut e → result ≡ ErrOf e }
        ensures refused { IfErr result (λ e. (e ≡ MemoryOf) ⊎ RefusesCut self.old cut e) }
        ensures memory { result ≡ ErrOf MemoryOf → LacksCut self.old.cuts cut.epoch }
    {
        match cuts::place_of_epoch(&self.cuts, cut.epoch()) {
            Ok(place) => {
                let held = self.cuts[place];
                if held == cut {
                    Ok(Learnt::Known)
                } else {
                    Err(BookRefusal::OtherCut(held))
                }
            }
            Err(place) => {
                if let Some(held) = self.against_cut(cut) {
                    return Err(BookRefusal::Contradiction(held));
                }
                self.add_cut(place, cut)?;
                Ok(Learnt::New)
            }
        }
    }

    /// What a truncation of an epoch without one contradicts, or None where it contradicts nothing.
    pub fn against_cut(&self, cut: Cut) -> Option<Held>
        ensures some { IfSome result (λ h. LacksCut self.now.cuts cut.epoch → RefusesCut self.now cut (ContradictionOf h)) }
        ensures none { IsNone result → (h : AnyHeld) → RefusesCut self.now cut (ContradictionOf h) → ⊥ }
        ensures book { IsBook self.now }
    {
        let min = self.points.least();
        if cut.lo() < min {
            return Some(Held::Min(min));
        }
        if !points::others_past(&self.points, self.waits.as_slice(), cut, 0) {
            return None;
        }
        advances::first_against(self.waits.as_slice(), cut).map(Held::Advance)
    }

    fn add_cut(&mut self, place: usize, cut: Cut) -> Result<(), BookRefusal>
        requires within { place ≤ length self.old.cuts }
        requires gap { IsPartitionPoint (λ c. c.epoch < cut.epoch) (λ c. cut.epoch < c.epoch) self.old.cuts place }
        requires shaped { cut_fault cut ≡ None }
        requires fits { cut.epoch < epoch_count }
        ensures ok { OnOk result (LearnsCut self.old cut self.new) }
        ensures err { OnErr result (self.new ≡ self.old) }
        ensures memory { IfErr result (λ e. e ≡ MemoryOf) }
        ensures book { IsBook self.new }
    {
        put_in(&mut self.cuts, place, cut)?;
        let complete = cuts::complete_epoch_from(&self.cuts, self.complete);
        let Ok(()) = lows::raise(&mut self.lows, &self.cuts, self.complete, complete) else {
            let _ = self.cuts.remove(place);
            return Err(BookRefusal::Memory);
        };
        points::raise_points(&mut self.points, self.waits.as_slice(), complete);
        self.complete = complete;
        advances::keep_later(&mut self.waits, complete);
        Ok(())
    }

    /// Learns an advance. It raises its reader's point where its epoch is known; otherwise it waits.
    ///
    /// Errors: `OtherRoster` where its reader is not of the roster; `Contradiction`, also where it is known already, with the stored
    /// truncation of the least epoch that cuts below it where nobody is left who reads there; `Memory`. Each leaves the book
    /// unchanged.
    pub fn learn_advance(&mut self, advance: Advance) -> Result<Learnt, BookRefusal>
        ensures ok { OnOk result (LearnsAdvance self.old advance self.new) }
        ensures knows { OnOk result (KnowsMore self.old (OfAdvance advance) self.new) }
        ensures known { IfOk result (λ learnt. (learnt ≡ KnownOf) ↔ KnowsAdvance self.old advance) }
        ensures unchanged { IfOk result (λ learnt. learnt ≡ KnownOf → self.new ≡ self.old) }
        ensures book { IsBook self.new }

        ensures err { OnErr result (self.new ≡ self.old) }
        ensures refuses { (e : AnyRefusal) → RefusesAdvance self.old advance e → result ≡ ErrOf e }
        ensures refused { IfErr result (λ e. (e ≡ MemoryOf) ⊎ RefusesAdvance self.old advance e) }
        ensures memory { result ≡ ErrOf MemoryOf → (self.old.complete < advance.epoch) × (KnowsAdvance self.old advance → ⊥) }
    {
        if let Some(refusal) = self.against_advance(advance) {
            return Err(refusal);
        }
        if advance.epoch() > self.complete {
            return self.add_wait(advance);
        }
        Ok(self.count(advance))
    }

    // Why an advance is refused.
    fn against_advance(&self, advance: Advance) -> Option<BookRefusal>
        ensures some { IfSome result (RefusesAdvance self.now advance) }
        ensures none { IsNone result → (e : AnyRefusal) → RefusesAdvance self.now advance e → ⊥ }
        ensures reader { IsNone result → IsReader (roster_of self.now) advance.reader }
        ensures book { IsBook self.now }
    {
        let own = self.points.readers();
        if advance.reader() > own {
            let shown = advance.reader();
            return Some(BookRefusal::OtherRoster { own, shown });
        }
        match self.cut_against(advance) {
            Some(cut) => Some(BookRefusal::Contradiction(Held::Cut(cut))),
            None => None,
        }
    }

    // The truncation of the least epoch that contradicts an advance.
    fn cut_against(&self, advance: Advance) -> Option<Cut>
        ensures first { IfSome result (IsFirst CutBefore (λ c. Contains self.now.cuts c × CutsBelow self.now.complete self.now.points self.now.waits c advance)) }
        ensures none { IsNone result → All (λ c. CutsBelow self.now.complete self.now.points self.now.waits c advance → ⊥) self.now.cuts }
    {
        let waits = self.waits.as_slice();
        if self.is_spared(advance) {
            let later = cuts::later(&self.cuts, self.complete);
            return cuts::first_against(later, advance, &self.points, waits, self.complete);
        }
        cuts::first_against(&self.cuts, advance, &self.points, waits, self.complete)
    }

    // Whether no truncation up to the complete epoch contradicts an advance. One of several readers is never contradicted by these.
    fn is_spared(&self, advance: Advance) -> bool
        ensures { IsTrue result → (c : CutData) → Contains self.now.cuts c → CutsBelow self.now.complete self.now.points self.now.waits c advance → self.now.complete < c.epoch }
    {
        self.points.readers() > 1 || lows::spare(&self.lows, advance.epoch(), advance.point())
    }

    // An advance of a known epoch takes effect.
    fn count(&mut self, advance: Advance) -> Learnt
        requires counts { advance.epoch ≤ self.old.complete }
        requires of_roster { IsReader (roster_of self.old) advance.reader }
        ensures ok { LearnsAdvance self.old advance self.new }
        ensures known { (result ≡ KnownOf) ↔ (advance.point ≤ point_of self.old.points advance.reader) }
        ensures unchanged { result ≡ KnownOf → self.new ≡ self.old }
        ensures book { IsBook self.new }
    {
        if advance.point() <= self.points.of(advance.reader()) {
            return Learnt::Known;
        }
        self.points.raise(advance);
        Learnt::New
    }

    fn add_wait(&mut self, advance: Advance) -> Result<Learnt, BookRefusal>
        requires later { self.old.complete < advance.epoch }
        requires shaped { advance_fault advance ≡ None }
        requires of_roster { IsReader (roster_of self.old) advance.reader }
        ensures ok { OnOk result (LearnsAdvance self.old advance self.new) }
        ensures known { IfOk result (λ learnt. (learnt ≡ KnownOf) ↔ Contains self.old.waits advance) }
        ensures unchanged { IfOk result (λ learnt. learnt ≡ KnownOf → self.new ≡ self.old) }
        ensures book { IsBook self.new }
        ensures err { OnErr result (self.new ≡ self.old) }
        ensures memory { IfErr result (λ e. (e ≡ MemoryOf) × (Contains self.old.waits advance → ⊥)) }
    {
        match advances::place_of_advance(self.waits.as_slice(), advance) {
            Ok(_) => Ok(Learnt::Known),
            Err(place) => {
                self.waits.insert(place, advance)?;
                Ok(Learnt::New)
            }
        }
    }

    /// The greatest epoch up to which every truncation is stored.
    pub fn complete_epoch(&self) -> u16
        ensures value { result ≡ self.now.complete }
        ensures complete { IsCompleteEpoch self.now.cuts result }
        ensures book { IsBook self.now }
    {
        self.complete
    }

    /// Does nothing. Callers use its contract: every book satisfies the invariant of books.
    pub fn opens_form(&self)
        ensures form { IsBook self.now }
    {
        let _complete = self.complete;
    }

    /// The minimum read point: the least of the readers' points.
    pub fn min_point(&self) -> u64
        ensures value { result ≡ least self.now.points }
        ensures book { IsBook self.now }
    {
        self.points.least()
    }

    /// Each reader's point, by reader: the greatest of its advances of epochs up to the complete one.
    pub fn points(&self) -> &[u64]
        ensures value { result.now ≡ self.now.points }
        ensures book { IsBook self.now }
    {
        self.points.as_slice()
    }

    /// The truncations, rising by epoch.
    pub fn cuts(&self) -> &[Cut]
        ensures value { result.now ≡ self.now.cuts }
        ensures rising { IsRising CutBefore self.now.cuts }
        ensures book { IsBook self.now }
    {
        &self.cuts
    }

    /// The advances that wait for their epoch, rising by epoch, reader and point.
    pub fn waits(&self) -> &[Advance]
        ensures value { result.now ≡ self.now.waits }
        ensures rising { IsRising AdvanceBefore self.now.waits }
        ensures book { IsBook self.now }
    {
        self.waits.as_slice()
    }

    /// The standing of a record of an epoch and LSN: alive, dead or waiting.
    pub fn stands(&self, epoch: u16, number: u64) -> Standing
        ensures alive { (result ≡ AliveOf) ↔ IsAlive self.now.cuts self.now.complete epoch number }
        ensures dead { (result ≡ DeadOf) ↔ IsDead self.now.cuts self.now.complete epoch number }
        ensures waiting { (result ≡ WaitingOf) ↔ IsWaiting self.now.complete epoch }
        ensures complete { IsCompleteEpoch self.now.cuts self.now.complete }
    {
        if epoch > self.complete {
            return Standing::Waiting;
        }
        if self.is_alive(epoch, number) {
            Standing::Alive
        } else {
            Standing::Dead
        }
    }

    // Whether a record of a known epoch is alive.
    fn is_alive(&self, epoch: u16, number: u64) -> bool
        requires { epoch ≤ self.now.complete }
        ensures { IsTrue result ↔ IsAlive self.now.cuts self.now.complete epoch number }
    {
        cuts::is_begun(&self.cuts, epoch, number) && lows::spare(&self.lows, epoch, number)
    }

    /// The greatest epoch up to the complete one whose truncation has its `lo` at or below an LSN, or 0 where none has.
    pub fn last_cut_at(&self, number: u64) -> u16
        ensures value { IsGreatest (CutsAt self.now number) result }
        ensures book { IsBook self.now }
    {
        lows::last_at(&self.lows, number)
    }

    /// The least `lo` of the truncations of the epochs above one and up to the complete one, or None where there is none.
    pub fn least_lo(&self, above: u16) -> Option<u64>
        ensures least { IsLeastLo self.now.cuts above self.now.complete result }
        ensures book { IsBook self.now }
    {
        lows::low_above(&self.lows, above)
    }
}
