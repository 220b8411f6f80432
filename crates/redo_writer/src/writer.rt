ghost use Rattle.std.specs.Prelude.{◌≡◌, ℕ, ◌<◌, ◌≤◌, ◌+◌, ◌++◌, ◌∷◌, [], List, length, IfOk, IfErr, OnOk, OnErr, None, Some};
ghost use Rattle.std.specs.List.{Contains};
ghost use Rattle.std.specs.Result.{result_err};
ghost use Rattle.redo_core.specs.Data.{cut_of, advance_of};
ghost use Rattle.redo_core.specs.Roster.{least};
ghost use Rattle.redo_core.specs.declared.facts.Fact.{Fact};
ghost use Rattle.redo_core.specs.declared.facts.Fact.TheVariants.{Record as RecordFact, Cut as CutFact, Advance as AdvanceFact};
ghost use Rattle.redo_writer.specs.declared.parts.AliveRecord.{AliveRecord as Entry};
ghost use Rattle.redo_writer.specs.State.{writer_of_parts, empty_writer, next_record};
ghost use Rattle.redo_writer.specs.Continues.{Continues};
ghost use Rattle.redo_writer.specs.Changes.{KeepsRecord, OpensEpoch, RaisesReader, DropsSettled};
ghost use Rattle.redo_writer.specs.Refusals.{append_refusal, RefusesPreview, RefusesRecord, RefusesOnLog, writer_fault, recover_refusal, advance_refusal};

use crate::parts::{AliveRecord, WriterParts};
use crate::tail::{annul_above, keep_newest, number_on_top, put_top, reserve_top, settle, top_of};
use log_law::WriterFault;
use redo_core::{Advance, Cut, Patch, ReadPoints, Record, RecordFault, Refused, Roster};
use std::alloc::{AllocError, Global};
use std::collections::VecDeque;
use std::marker::Model;

/// The one writer of a log that others keep. It gives records their epoch and backlinks.
#[derive(Drop)]
pub struct RedoWriter {
    epoch: u16,
    last: u64,
    points: ReadPoints,
    page_tops: Vec<u64>,
    settled: u64,
    alive: VecDeque<AliveRecord>,
}

impl Model for RedoWriter {
    ghost use Rattle.redo_writer.specs.State.{WriterState, state_with};

    ghost Value = { WriterState };

    ghost view = { λ w. state_with w.epoch w.last w.points w.page_tops.items w.settled w.alive.items };
}

impl RedoWriter {
    /// A writer of an empty log of a roster, in epoch 0. It fails only if memory runs out.
    pub fn new(alloc: Global, roster: Roster) -> Result<Self, AllocError>
        ensures state { IfOk result (λ w. w ≡ empty_writer roster) }
        ensures continues { IfOk result (λ w. Continues w []) }
    {
        Ok(RedoWriter {
            epoch: 0,
            last: 0,
            points: ReadPoints::new(alloc, roster)?,
            page_tops: Vec::new(alloc),
            settled: 0,
            alive: VecDeque::new(alloc),
        })
    }

    /// The writer that keeps these parts. It continues the logs that they continue.
    pub fn resume(parts: WriterParts) -> Self
        ensures { result ≡ writer_of_parts parts }
    {
        RedoWriter {
            epoch: parts.epoch,
            last: parts.last,
            points: parts.points,
            page_tops: parts.page_tops,
            settled: parts.settled,
            alive: parts.alive,
        }
    }

    /// What the writer keeps.
    pub fn into_parts(self) -> WriterParts
        ensures { writer_of_parts result ≡ self }
    {
        WriterParts {
            epoch: self.epoch,
            last: self.last,
            points: self.points,
            page_tops: self.page_tops,
            settled: self.settled,
            alive: self.alive,
        }
    }

    /// The epoch of the next record.
    pub fn epoch(&self) -> u16
        ensures { result ≡ self.now.epoch }
    {
        self.epoch
    }

    /// The number that the next record's is above.
    pub fn last(&self) -> u64
        ensures { result ≡ self.now.last }
    {
        self.last
    }

    /// The record that `append` would return, where it does not lack memory. The writer does not keep it.
    ///
    /// Errors give the patches back: a number that is not above the epoch's last one, or its `hi`, with that bound; a fault of the record's
    /// shape; `Memory`.
    pub fn preview(
        &self,
        number: u64,
        page: u16,
        init: bool,
        patches: Vec<Patch>,
    ) -> Result<Record, Refused<Vec<Patch>, WriterFault>>
        ensures record { IfOk result (λ r. r ≡ next_record self.now number page init patches.items) }
        ensures allowed { OnOk result (append_refusal self.now (next_record self.now number page init patches.items) ≡ None) }
        ensures fault { IfErr result (λ e. RefusesPreview self.now (next_record self.now number page init patches.items) e.fault) }
        ensures returned { IfErr result (λ e. e.value ≡ patches) }
    {
        if number <= self.last {
            return Err(Refused {
                value: patches,
                fault: WriterFault::NumberNotAbove { bound: self.last },
            });
        }
        let back = number_on_top(self.settled, &self.alive);
        let block_back = top_of(&self.page_tops, page);
        match Record::with(self.epoch, number, back, page, block_back, init, patches) {
            Ok(redo) => Ok(redo),
            Err(refused) => Err(Refused {
                value: refused.value,
                fault: writer_fault(refused.fault),
            }),
        }
    }

    /// The next record of the epoch, with the backlinks that a sound log asks for. With `init` its page begins from zeros.
    ///
    /// Errors give the patches back and leave the writer as it was: a number that is not above the epoch's last one, or its `hi`, with
    /// that bound; a fault of the record's shape; `Memory`.
    pub fn append(
        &mut self,
        number: u64,
        page: u16,
        init: bool,
        patches: Vec<Patch>,
    ) -> Result<Record, Refused<Vec<Patch>, WriterFault>>
        ensures record { IfOk result (λ r. r ≡ next_record self.old number page init patches.items) }
        ensures continues { (log : List Fact) → Continues self.old log → IfOk result (λ r. Continues self.new (log ++ RecordFact r ∷ [])) }
        ensures state { OnOk result (KeepsRecord self.old number page self.new) }
        ensures allowed { OnOk result (append_refusal self.old (next_record self.old number page init patches.items) ≡ None) }
        ensures fault { IfErr result (λ e. RefusesRecord self.old (next_record self.old number page init patches.items) e.fault) }
        ensures fault_on_log { (log : List Fact) → Continues self.old log → IfErr result (λ e. RefusesOnLog log number patches.items e.fault) }
        ensures returned { IfErr result (λ e. e.value ≡ patches) }
        ensures unchanged { OnErr result (self.new ≡ self.old) }
    {
        if number <= self.last {
            return Err(Refused {
                value: patches,
                fault: WriterFault::NumberNotAbove { bound: self.last },
            });
        }
        if self.alive.reserve(1).is_err() || reserve_top(&mut self.page_tops, page).is_err() {
            return Err(Refused {
                value: patches,
                fault: WriterFault::Memory,
            });
        }
        let back = number_on_top(self.settled, &self.alive);
        let block_back = top_of(&self.page_tops, page);
        match Record::with(self.epoch, number, back, page, block_back, init, patches) {
            Ok(redo) => {
                let entry = AliveRecord {
                    number,
                    page,
                    block_back,
                };
                keep_newest(&mut self.alive, &mut self.page_tops, entry);
                self.last = number;
                Ok(redo)
            }
            Err(refused) => Err(Refused {
                value: refused.value,
                fault: writer_fault(refused.fault),
            }),
        }
    }

    /// Opens the next epoch: numbers above `lo` are annulled, and its own are above `hi`.
    ///
    /// Errors leave the writer as it was: a fault of the truncation's shape; `lo` below the minimum read point, with that point; no
    /// epoch left.
    pub fn recover(&mut self, lo: u64, hi: u64) -> Result<Cut, WriterFault>
        ensures cut { IfOk result (λ c. c ≡ cut_of (self.old.epoch + 1) lo hi) }
        ensures continues { (log : List Fact) → Continues self.old log → IfOk result (λ c. Continues self.new (log ++ CutFact c ∷ [])) }
        ensures state { OnOk result (OpensEpoch self.old lo hi self.new) }
        ensures fault { result_err result ≡ recover_refusal self.old lo hi }
        ensures unchanged { OnErr result (self.new ≡ self.old) }
    {
        if let Err(fault) = Cut::new(1, lo, hi) {
            return Err(WriterFault::Shape(fault));
        }
        let point = self.points.least();
        if lo < point {
            return Err(WriterFault::LoBelowAdvance { point });
        }
        if self.epoch == u16::MAX {
            return Err(WriterFault::EpochsUsedUp);
        }
        match Cut::new(self.epoch + 1, lo, hi) {
            Ok(cut) => {
                annul_above(&mut self.alive, &mut self.page_tops, lo);
                self.epoch += 1;
                self.last = hi;
                Ok(cut)
            }
            Err(fault) => Err(WriterFault::Shape(fault)),
        }
    }

    /// Says that a reader reads nothing below `point` any more.
    ///
    /// Errors leave the writer as it was: a fault of the advance's shape; a reader outside the roster.
    pub fn advance(&mut self, reader: u8, point: u64) -> Result<Advance, WriterFault>
        ensures advance { IfOk result (λ a. a ≡ advance_of self.old.epoch reader point) }
        ensures continues { (log : List Fact) → Continues self.old log → IfOk result (λ a. Continues self.new (log ++ AdvanceFact a ∷ [])) }
        ensures state { IfOk result (λ a. RaisesReader self.old a self.new) }
        ensures fault { result_err result ≡ advance_refusal self.old reader point }
        ensures unchanged { OnErr result (self.new ≡ self.old) }
    {
        let advance = match Advance::of_reader(reader, self.epoch, point) {
            Ok(advance) => advance,
            Err(fault) => return Err(WriterFault::Shape(fault)),
        };
        let own = self.points.readers();
        if reader > own {
            return Err(WriterFault::OtherRoster { own, shown: reader });
        }
        self.points.raise(advance);
        Ok(advance)
    }

    /// Drops what only a truncation below the minimum read point could need. It takes no memory.
    pub fn forget(&mut self)
        ensures continues { (log : List Fact) → Continues self.old log → Continues self.new log }
        ensures state { DropsSettled self.old self.new }
        ensures above { (log : List Fact) → Continues self.old log → (x : Entry) → Contains self.new.alive x → least self.new.points < x.number }
    {
        let point = self.points.least();
        self.settled = settle(&mut self.alive, self.settled, point);
    }
}

/// The same reason, as a writer gives it.
fn writer_fault(fault: RecordFault) -> WriterFault
    ensures { result ≡ writer_fault fault }
{
    match fault {
        RecordFault::Shape(fault) => WriterFault::Shape(fault),
        RecordFault::Memory => WriterFault::Memory,
    }
}
