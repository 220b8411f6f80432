ghost use Rattle.std.specs.Prelude.{◌≡◌, ◌≢◌, ◌≤◌, ◌<◌, ◌⊎◌, ◌↔◌, ◌+◌, ◌++◌, ◌∷◌, [], length, IfOk, IfErr, OnErr, OnOk, Some, None};
ghost use Rattle.segment_theorems.specs.Means.{Means};
ghost use Rattle.segment_core.specs.Folding.{Commits};
ghost use Rattle.segment_core.specs.Forgetting.{DiscardsJust};
ghost use Rattle.node_cell.specs.Kept.{MeansTrail, KeepsParts};
ghost use Rattle.node_cell.specs.Reading.{FindsReceipt, ReportsRead, ReportsReadAfter};
ghost use Rattle.node_cell.specs.Delivering.{IsFrontWith, RefusesEntry, TakesPlace};
ghost use Rattle.node_cell.specs.Folding.{IsFoldOfLog, RefusesFold};
ghost use Rattle.node_cell.specs.Gossiping.{IsSummaryOfLog, IsMail, IsFrontWithMail, RefusesMail, fault_of};
ghost use Rattle.gossip_core.specs.Absorbing.{MeansBoth};
ghost use Rattle.node_cell.specs.Settling.{Stands, IsForeignReceipt, found_at};

use crate::answers::{AbsorbFault, DeliverFault, ReadAfterFault, Stranger};
use crate::folds::{FoldPlan, Folded};
use crate::mail::Mail;
use crate::receipts::Receipt;
use crate::views::View;
use front_board::LogFront;
use gossip_core::AbsorbRefusal;
use log_theorems::one_meaning;
use messages::Summary;
use named_log::{LogFact, LogName};
use node_lock::Trailed;
use read_cache::CachedSegment;
use redo_core::Refused;
use segment_core::{CommitFault, ReadFault, Refusal, Segment};
use std::alloc::{AllocError, Global};
use std::marker::{Model, PhantomData};

/// How many page images a node keeps of what it last read.
const CACHED_IMAGES: usize = 64;

/// A segment with a cache, and the trail: of each acknowledged fact the number of the pass that brought it, and its place in the log.
/// The segment means a part of the log that has every fact of the trail.
#[derive(Drop)]
pub struct Kept<L: LogName> {
    segment: Box<CachedSegment>,
    trail: Vec<(u64, u64)>,
    of: PhantomData<L>,
}

impl<L: LogName> Model for Kept<L> {
    ghost use Rattle.node_cell.specs.Kept.{KeptData, MeansTrail};

    ghost Value = { KeptData };

    ghost view = { λ k. record { segment = k.segment.value.segment; trail = k.trail.items } };

    ghost invariant = { λ k. MeansTrail L.roster L.log k.segment.value.segment k.trail.items };
}

impl<L: LogName> Trailed for Kept<L> {
    ghost use Rattle.node_cell.specs.Kept.{MeansTrail};
    ghost use Rattle.node_cell.specs.Retaining.{RetainsParts, retains_own, retains_on};

    ghost trail = { λ k. k.trail };

    ghost keeps = { λ k. MeansTrail L.roster L.log k.segment k.trail };

    ghost retains = { λ old new. RetainsParts L.roster L.log old.segment new.segment };

    ghost reflexive = { λ k. retains_own L.roster L.log k.segment };

    ghost transitive = { λ a b c first next. retains_on L.roster L.log a.segment b.segment c.segment first next };
}

impl<L: LogName> Kept<L> {
    /// No fact, and an empty trail. It fails only if memory runs out.
    pub(crate) fn new(alloc: Global) -> Result<Self, AllocError>
        ensures trail { IfOk result (λ k. k.trail ≡ []) }
        ensures empty { IfOk result (λ k. Means L.roster L.log [] k.segment) }
        ensures keeps { IfOk result (λ k. MeansTrail L.roster L.log k.segment k.trail) }
    {
        let segment = Segment::new(alloc, L::roster())?;
        let cached = boxed(alloc, segment)?;
        Ok(Kept {
            segment: cached,
            trail: Vec::new(alloc),
            of: PhantomData,
        })
    }

    /// Takes a fact, and notes it in the trail under the number of a pass. The answer is the place there, from 1, and the front
    /// with the fact.
    pub(crate) fn put(
        &mut self,
        number: u64,
        capacity: u64,
        fact: LogFact<L>,
    ) -> Result<(u64, LogFront<L>), Refused<LogFact<L>, DeliverFault>>
        ensures trail { IfOk result (λ t. (self.new.trail ≡ self.old.trail ++ (number, fact.place) ∷ []) × (t.0 ≡ length self.new.trail)) }
        ensures takes { OnOk result (TakesPlace L.log self.old.segment fact.place self.new.segment) }
        ensures room { OnOk result (length self.old.trail < capacity) }
        ensures front { IfOk result (λ t. IsFrontWith L.roster L.log self.old.trail fact.place t.1) }
        ensures keeps { MeansTrail L.roster L.log self.new.segment self.new.trail }
        ensures refused { IfErr result (λ e. RefusesEntry capacity (length self.old.trail) e.fault) }
        ensures back { IfErr result (λ e. e.value ≡ fact) }
        ensures unchanged { OnErr result (self.new ≡ self.old) }
    {
        if self.trail.len() as u64 >= capacity {
            return Err(Refused {
                value: fact,
                fault: DeliverFault::TrailFull { capacity },
            });
        }
        if self.trail.reserve(1).is_err() {
            return Err(Refused {
                value: fact,
                fault: DeliverFault::Memory,
            });
        }
        let place = fact.place();
        match self.segment.take(fact.into_fact()) {
            Ok(_) => {
                self.trail.push_reserved((number, place));
                let front = self.segment.segment().front();
                Ok((
                    self.trail.len() as u64,
                    LogFront::new(front.epoch, front.complete),
                ))
            }
            Err(refused) => {
                let Refusal::Memory = refused.fault else {
                    unreachable!()
                };
                Err(Refused {
                    value: LogFact::new(place, refused.value),
                    fault: DeliverFault::Memory,
                })
            }
        }
    }

    /// The page at a read point.
    pub(crate) fn read(&mut self, page: u16, point: u64) -> Result<View<L>, ReadFault>
        ensures answer { ReportsRead L.roster L.log self.old.trail page point result }
        ensures keeps { MeansTrail L.roster L.log self.new.segment self.new.trail }
        ensures same { self.new ≡ self.old }
    {
        let epoch = self.segment.segment().front().epoch;
        match self.segment.read(page, point) {
            Ok(image) => Ok(View::new(epoch, page, point, image)),
            Err(fault) => Err(fault),
        }
    }

    /// The page at a read point, where the fact of a receipt is at its place in the trail.
    pub(crate) fn read_after(
        &mut self,
        receipt: &Receipt<L>,
        page: u16,
        point: u64,
    ) -> Result<View<L>, ReadAfterFault>
        ensures answer { ReportsReadAfter L.roster L.log receipt.now page point result }
        ensures finds { FindsReceipt self.old.trail receipt.now result }
        ensures keeps { MeansTrail L.roster L.log self.new.segment self.new.trail }
        ensures same { self.new ≡ self.old }
    {
        if let Err(stranger) = self.seek(receipt) {
            return Err(ReadAfterFault::Stranger(stranger));
        }
        match self.read(page, point) {
            Ok(view) => Ok(view),
            Err(fault) => Err(ReadAfterFault::Read(fault)),
        }
    }

    /// A plan to fold a page to the anchor.
    pub(crate) fn fold_plan(&self, page: u16) -> Result<FoldPlan<L>, AllocError>
        ensures page { IfOk result (λ plan. plan.page ≡ page) }
        ensures fold { IfOk result (λ plan. IsFoldOfLog L.roster L.log plan) }
        ensures keeps { MeansTrail L.roster L.log self.now.segment self.now.trail }
    {
        match self.segment.segment().plan_fold(page) {
            Ok(plan) => Ok(FoldPlan::new(plan)),
            Err(_) => Err(AllocError),
        }
    }

    /// Takes a fold of the log as its page's base image.
    pub(crate) fn commit(
        &mut self,
        folded: Folded<L>,
    ) -> Result<(), Refused<Folded<L>, CommitFault>>
        ensures trail { self.new.trail ≡ self.old.trail }
        ensures keeps { MeansTrail L.roster L.log self.new.segment self.new.trail }
        ensures meaning { OnOk result (KeepsParts L.roster L.log self.old.segment self.new.segment) }
        ensures commits { OnOk result (Commits self.old.segment folded self.new.segment) }
        ensures refused { IfErr result (λ e. RefusesFold L.roster L.log self.old.segment folded e.fault) }
        ensures back { IfErr result (λ e. e.value ≡ folded) }
        ensures unchanged { OnErr result (self.new ≡ self.old) }
    {
        match self.segment.commit_fold(folded.into_segment_fold()) {
            Ok(()) => Ok(()),
            Err(refused) => Err(Refused {
                value: Folded::new(refused.value),
                fault: refused.fault,
            }),
        }
    }

    /// Drops the records that are folded up to the anchor.
    pub(crate) fn discard(&mut self)
        ensures meaning { KeepsParts L.roster L.log self.old.segment self.new.segment }
        ensures discards { DiscardsJust self.old.segment self.new.segment }
        ensures trail { self.new.trail ≡ self.old.trail }
        ensures keeps { MeansTrail L.roster L.log self.new.segment self.new.trail }
    {
        self.segment.discard();
    }

    /// The segment's summary. It fails only if memory runs out.
    pub(crate) fn summary(&self) -> Result<Summary, AllocError>
        ensures told { IfOk result (IsSummaryOfLog L.roster L.log) }
        ensures keeps { MeansTrail L.roster L.log self.now.segment self.now.trail }
    {
        one_meaning();
        gossip_core::summary(self.segment.segment())
    }

    /// What the segment has beyond a summary, as mail.
    pub(crate) fn reply(&self, summary: Summary) -> Result<Mail<L>, Refused<Summary, AllocError>>
        ensures summary { IfOk result (λ mail. mail.summary ≡ summary) }
        ensures mail { IfOk result (IsMail L.roster L.log) }
        ensures back { IfErr result (λ e. e.value ≡ summary) }
        ensures keeps { MeansTrail L.roster L.log self.now.segment self.now.trail }
    {
        match gossip_core::reply(self.segment.segment(), &summary) {
            Ok(delta) => Ok(Mail::new(summary, delta)),
            Err(_) => Err(Refused {
                value: summary,
                fault: AllocError,
            }),
        }
    }

    /// Brings in what mail has, where the segment answers for its summary. The answer is the front with all of that.
    pub(crate) fn absorb(
        &mut self,
        mail: Mail<L>,
    ) -> Result<LogFront<L>, Refused<Mail<L>, AbsorbFault>>
        ensures trail { self.new.trail ≡ self.old.trail }
        ensures keeps { MeansTrail L.roster L.log self.new.segment self.new.trail }
        ensures meaning { OnOk result (MeansBoth self.old.segment mail.summary mail.delta self.new.segment) }
        ensures front { IfOk result (IsFrontWithMail L.roster L.log mail) }
        ensures refused { IfErr result (λ e. RefusesMail L.roster L.log self.old.segment mail e.fault) }
        ensures back { IfErr result (λ e. e.value ≡ mail) }
        ensures unchanged { OnErr result (self.new ≡ self.old) }
    {
        if let Err(why) = self.segment.absorb(mail.summary(), mail.delta()) {
            return Err(Refused {
                value: mail,
                fault: absorb_fault(why),
            });
        }
        let front = self.segment.segment().front();
        Ok(LogFront::new(front.epoch, front.complete))
    }

    pub(crate) fn segment(&self) -> &Segment
        ensures value { result.now ≡ self.now.segment }
        ensures keeps { MeansTrail L.roster L.log result.now self.now.trail }
    {
        self.segment.segment()
    }

    pub(crate) fn trail(&self) -> &[(u64, u64)]
        ensures { result.now ≡ self.now.trail }
    {
        self.trail.as_slice()
    }

    /// Whether the fact of a receipt is at its place in the trail; else what is there.
    pub(crate) fn seek(&self, receipt: &Receipt<L>) -> Result<(), Stranger>
        ensures ok { OnOk result (Stands self.now.trail receipt.now) }
        ensures err { IfErr result (λ e. IsForeignReceipt self.now.trail receipt.now e.found) }
        ensures keeps { MeansTrail L.roster L.log self.now.segment self.now.trail }
    {
        let found = log_place_at(self.trail.as_slice(), receipt.place());
        if found == Some(receipt.log_place()) {
            Ok(())
        } else {
            Err(Stranger { found })
        }
    }
}

// The segment with a cache, in memory of its own: each turn at the lock moves it several times, and it is large.
fn boxed(alloc: Global, segment: Segment) -> Result<Box<CachedSegment>, AllocError>
    ensures { IfOk result (λ b. b.value.segment ≡ segment) }
{
    Ok(Box::new(alloc, cached(segment)?)?)
}

// The segment that comes back with a refusal is dropped here, where no other value has to be dropped with it.
fn cached(segment: Segment) -> Result<CachedSegment, AllocError>
    ensures { IfOk result (λ c. c.segment ≡ segment) }
{
    match CachedSegment::new(segment, CACHED_IMAGES) {
        Ok(cached) => Ok(cached),
        Err(refused) => Err(refused.fault),
    }
}

// Mail of the log is refused for no other cause.
fn absorb_fault(why: AbsorbRefusal) -> AbsorbFault
    ensures { result ≡ fault_of why }
{
    match why {
        AbsorbRefusal::Uncovered { shown } => AbsorbFault::Uncovered { shown },
        AbsorbRefusal::Refused(_) => AbsorbFault::Memory,
    }
}

// The place in the log of the entry at a place of the trail, from 1.
fn log_place_at(trail: &[(u64, u64)], place: u64) -> Option<u64>
    ensures { result ≡ found_at trail.now place }
{
    if place == 0 {
        return None;
    }
    match trail.get((place - 1) as usize) {
        Some(entry) => Some(entry.1),
        None => None,
    }
}
