//! A transaction that merges facts, records and images into a segment in place; a refusal rolls all of them back.
ghost use Rattle.std.specs.Prelude.{◌≡◌, ◌≤◌, OnOk, OnErr};
ghost use Rattle.redo_core.specs.declared.facts.Fact.TheVariants.{Record as OfRecord};
ghost use Rattle.segment_theorems.specs.State.{min_of};
ghost use Rattle.segment_core.specs.Answering.{FaultAlone};
ghost use Rattle.segment_core.specs.Exactly.{TakesNoted};
ghost use Rattle.segment_core.specs.Savepoint.{CanRollBack, IsSavepointOf};
ghost use Rattle.segment_core.specs.Uniting.{HoldsRecord, Unites};

use crate::answers::{Refusal, Taken};
use crate::savepoint::Savepoint;
use crate::segment::Segment;
use hot_log::{Put, PutFault};
use page_base::BaseImage;
use redo_core::{Fact, Record, Refused};
use std::alloc::AllocError;

/// A merge in progress on a segment. Where it is dropped before `unite`, the segment is rolled back to what it was.
pub struct MergeTransaction<'a> {
    segment: &'a mut Segment,
    saved: &'a mut Savepoint,
}

impl<'a> MergeTransaction<'a> {
    ghost use Rattle.segment_core.specs.Transaction.{began, reached};

    /// Begins a transaction on a segment as it is, of which `saved` is a savepoint.
    pub fn begin(segment: &'a mut Segment, saved: &'a mut Savepoint) -> MergeTransaction<'a>
        requires { IsSavepointOf segment.old saved.old }
        ensures lent { (began result).lent ≡ segment.entry.ghost_name }
        ensures began { (began result).state ≡ segment.old }
        ensures reached { reached result ≡ segment.old }
        ensures whole { CanRollBack (began result) }
    {
        MergeTransaction { segment, saved }
    }

    /// The segment as the transaction has made it.
    pub fn segment(&self) -> &Segment
        ensures { result.now ≡ reached self.now }
    {
        self.segment
    }

    /// Takes one fact into the segment.
    ///
    /// Errors: as of the segment's `take`, and lack of memory for the note; the segment is then as it was, and the fact is dropped.
    pub fn take(&mut self, fact: Fact) -> Result<Taken, Refusal>
        ensures takes { TakesNoted (reached self.old) fact result (reached self.new) }
        ensures began { began self.new ≡ began self.old }
    {
        match fact {
            Fact::Record(redo) => self.take_record(redo),
            Fact::Cut(cut) => taken_or_fault(self.segment.take_cut(cut)),
            Fact::Advance(advance) => taken_or_fault(self.segment.take_advance(advance)),
        }
    }

    /// Takes a record, and notes its key where it comes in.
    fn take_record(&mut self, redo: Record) -> Result<Taken, Refusal>
        ensures takes { TakesNoted (reached self.old) (OfRecord redo) result (reached self.new) }
        ensures began { began self.new ≡ began self.old }
    {
        // It opens the segment's form, here and below: a key has at most one record.
        self.segment.opens_form();
        self.saved.note(redo.key())?;
        match self.segment.take_record(redo) {
            Ok(Taken::Changed) => {
                self.segment.opens_form();
                Ok(Taken::Changed)
            }
            Ok(Taken::Unchanged) => {
                self.saved.forget_last();
                Ok(Taken::Unchanged)
            }
            Err(refused) => {
                self.saved.forget_last();
                Err(refused.fault)
            }
        }
    }

    /// Inserts a record, stable or not, where no record is stored under its key; a record that is stays. Its only error is lack of memory:
    /// the segment is then as it was.
    pub fn hold(&mut self, redo: Record) -> Result<(), AllocError>
        ensures holds { OnOk result (HoldsRecord (reached self.old) redo (reached self.new)) }
        ensures unchanged { OnErr result (reached self.new ≡ reached self.old) }
        ensures began { began self.new ≡ began self.old }
    {
        // A key has at most one record.
        self.segment.opens_form();
        self.saved.note(redo.key())?;
        match self.segment.put(redo) {
            Ok(Put::New) => Ok(()),
            Ok(Put::Known) => {
                self.saved.forget_last();
                Ok(())
            }
            Err(refused) => {
                self.saved.forget_last();
                match refused.fault {
                    PutFault::OtherRecord => Ok(()),
                    PutFault::Memory => Err(AllocError),
                }
            }
        }
    }

    /// Merges images, as the segment's `unite` does, and commits. It fails only if memory runs out: the segment is then as it was when
    /// the transaction began.
    pub fn unite(self, base: u64, floor: u64, images: Vec<BaseImage>) -> Result<(), AllocError>
        requires base { base ≤ min_of (reached self) }
        requires whole { CanRollBack (began self) }
        ensures unites { OnOk result (Unites (reached self.entry) base floor images.items self.exit.0.now) }
        ensures rolls_back { OnErr result (self.exit.0.now ≡ (began self.entry).state) }
    {
        let MergeTransaction { segment, saved } = self;
        match segment.unite(base, floor, images) {
            Ok(()) => Ok(()),
            Err(failed) => {
                segment.roll_back(saved);
                Err(failed)
            }
        }
    }
}

impl Drop for MergeTransaction<'_> {
    ghost use Rattle.segment_core.specs.Transaction.{began};

    /// Rolls the segment back to what it was when the transaction began.
    fn drop(self)
        requires { CanRollBack (began self) }
        ensures { self.exit.0.now ≡ (began self.entry).state }
    {
        let MergeTransaction { segment, saved } = self;
        segment.roll_back(saved);
    }
}

/// The result without the fact.
fn taken_or_fault(answer: Result<Taken, Refused<Fact, Refusal>>) -> Result<Taken, Refusal>
    ensures { FaultAlone answer result }
{
    match answer {
        Ok(taken) => Ok(taken),
        Err(refused) => Err(refused.fault),
    }
}
