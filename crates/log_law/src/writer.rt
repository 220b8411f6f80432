ghost use Rattle.std.specs.Prelude.{◌≡◌, [], IfOk, OnErr, IfErr, None};
ghost use Rattle.redo_core.specs.Data.{record_of};
ghost use Rattle.redo_core.specs.Shape.{record_fault};
ghost use Rattle.redo_core.specs.Sound.{IsSound};
ghost use Rattle.log_law.specs.Writing.{AppendsRecord, RefusesAppend, RecoversAt, RefusesRecover, AdvancesAt, RefusesPoint, plain_record, writer_of};

use crate::alive::AliveRecords;
use redo_core::{
    Advance, Cut, Fact, ReadPoints, Record, RecordFault, Refused, Roster, ShapeFault, Write,
};
use std::alloc::{AllocError, Global};
use std::marker::Model;
use thiserror::Error;

/// Why a writer refused a record, a truncation or an advance. The log is unchanged.
#[derive(Clone, Copy, Debug, PartialEq, Eq, Error)]
pub enum WriterFault {
    #[error(transparent)]
    Shape(ShapeFault),
    #[error("lo is below the minimum read point {point}")]
    LoBelowAdvance { point: u64 },
    #[error("the LSN is not above {bound}")]
    NumberNotAbove { bound: u64 },
    #[error("reader {shown} is not in the roster of {own} readers")]
    OtherRoster { own: u8, shown: u8 },
    #[error("no epoch is left")]
    EpochsUsedUp,
    #[error("out of memory")]
    Memory,
}

/// The one writer of a log. It gives records their backlinks, and its log is sound at all times.
#[derive(Drop)]
pub struct Writer {
    log: Vec<Fact>,
    /// What is alive in the writer's epoch.
    alive: AliveRecords,
    /// The last LSN of the epoch, or the epoch's `hi` where it has no record yet.
    last: u64,
    /// Each reader's point.
    points: ReadPoints,
}

impl Model for Writer {
    ghost use Rattle.std.specs.Prelude.{length};
    ghost use Rattle.log_law.specs.Writing.{IsWritten, WriterData, writer_of};

    ghost Value = { WriterData };

    ghost view = { λ w. writer_of (length w.points) w.log.items };

    ghost invariant = { λ w. IsWritten (length w.points) w.log.items w.alive w.last w.points };
}

impl Writer {
    /// A writer of an empty log of a roster, in epoch 0. The only error is an allocation failure.
    pub fn new(alloc: Global, roster: Roster) -> Result<Self, AllocError>
        ensures { IfOk result (λ w. w ≡ writer_of roster []) }
    {
        let points = ReadPoints::new(alloc, roster)?;
        Ok(Writer {
            log: Vec::new(alloc),
            alive: AliveRecords::new(alloc),
            last: 0,
            points,
        })
    }

    /// All that was written, in order.
    pub fn log(&self) -> &[Fact]
        ensures log { result.now ≡ self.now.log }
        ensures sound { IsSound self.now.roster self.now.log }
    {
        &self.log
    }

    /// Writes a record of the current epoch, with the backlinks that a sound log requires.
    ///
    /// Errors return the writes and leave the log unchanged: a fault of the record's shape; an LSN that is not above the
    /// epoch's last one, or its `hi`, with that bound; `Memory`.
    pub fn append(
        &mut self,
        number: u64,
        page: u16,
        writes: Vec<Write>,
    ) -> Result<Record, Refused<Vec<Write>, WriterFault>>
        ensures ok { IfOk result (λ r. AppendsRecord self.old self.new number page writes.items r) }
        ensures unchanged { OnErr result (self.new ≡ self.old) }
        ensures fault { IfErr result (λ e. (e.value ≡ writes) × RefusesAppend self.old number writes.items e.fault) }
    {
        if let Some(fault) = Record::shape_fault(number, 0, 0, &writes) {
            return Err(Refused {
                value: writes,
                fault: WriterFault::Shape(fault),
            });
        }
        if number <= self.last {
            return Err(Refused {
                value: writes,
                fault: WriterFault::NumberNotAbove { bound: self.last },
            });
        }
        let back = self.alive.top();
        let block_back = self.alive.top_of(page);
        let epoch = self.alive.view();
        let Ok((redo, kept)) = owned_twice(epoch, number, back, page, block_back, &writes) else {
            return Err(Refused {
                value: writes,
                fault: WriterFault::Memory,
            });
        };
        if self.log.reserve(1).is_err() {
            return Err(Refused {
                value: writes,
                fault: WriterFault::Memory,
            });
        }
        if let Err(_) = self.alive.push(number, page) {
            return Err(Refused {
                value: writes,
                fault: WriterFault::Memory,
            });
        }
        self.log.push(Fact::Record(kept)).unwrap();
        self.last = number;
        Ok(redo)
    }

    /// Opens the next epoch: LSNs above `lo` are annulled, and its own are above `hi`.
    ///
    /// Errors leave the log unchanged: a fault of the truncation's shape; `lo` below the minimum read point, with that point; no
    /// epoch left; `Memory`.
    pub fn recover(&mut self, lo: u64, hi: u64) -> Result<Cut, WriterFault>
        ensures ok { IfOk result (λ c. RecoversAt self.old self.new lo hi c) }
        ensures unchanged { OnErr result (self.new ≡ self.old) }
        ensures fault { IfErr result (λ e. RefusesRecover self.old lo hi e) }
    {
        if let Err(fault) = Cut::new(1, lo, hi) {
            return Err(WriterFault::Shape(fault));
        }
        let point = self.points.least();
        if lo < point {
            return Err(WriterFault::LoBelowAdvance { point });
        }
        let view = self.alive.view();
        if view == u16::MAX {
            return Err(WriterFault::EpochsUsedUp);
        }
        let cut = match Cut::new(view + 1, lo, hi) {
            Ok(cut) => cut,
            Err(fault) => return Err(WriterFault::Shape(fault)),
        };
        if self.log.reserve(1).is_err() {
            return Err(WriterFault::Memory);
        }
        self.alive.begin(lo);
        self.log.push(Fact::Cut(cut)).unwrap();
        self.last = hi;
        Ok(cut)
    }

    /// Records that reader 1 never again reads below `point`. Errors are those of `advance_of`.
    pub fn advance(&mut self, point: u64) -> Result<Advance, WriterFault>
        ensures ok { IfOk result (λ a. AdvancesAt self.old self.new 1 point a) }
        ensures unchanged { OnErr result (self.new ≡ self.old) }
        ensures fault { IfErr result (λ e. RefusesPoint self.old 1 point e) }
    {
        self.advance_of(1, point)
    }

    /// Records that a reader never again reads below `point`.
    ///
    /// Errors leave the log unchanged: a fault of the advance's shape; a reader outside the roster; `Memory`.
    pub fn advance_of(&mut self, reader: u8, point: u64) -> Result<Advance, WriterFault>
        ensures ok { IfOk result (λ a. AdvancesAt self.old self.new reader point a) }
        ensures unchanged { OnErr result (self.new ≡ self.old) }
        ensures fault { IfErr result (λ e. RefusesPoint self.old reader point e) }
    {
        let advance = match Advance::of_reader(reader, self.alive.view(), point) {
            Ok(advance) => advance,
            Err(fault) => return Err(WriterFault::Shape(fault)),
        };
        let own = self.points.readers();
        if reader > own {
            return Err(WriterFault::OtherRoster { own, shown: reader });
        }
        if self.log.reserve(1).is_err() {
            return Err(WriterFault::Memory);
        }
        self.log.push(Fact::Advance(advance)).unwrap();
        self.points.raise(advance);
        Ok(advance)
    }
}

/// A record of a copy of these writes, with two owners. The only error is an allocation failure.
fn owned_twice(
    epoch: u16,
    number: u64,
    back: u64,
    page: u16,
    block_back: u64,
    writes: &Vec<Write>,
) -> Result<(Record, Record), AllocError>
    requires { record_fault (record_of epoch number back page block_back writes.now.items) ≡ None }
    ensures { let given = record_of epoch number back page block_back writes.now.items in
        IfOk result (λ both. (both.0 ≡ given) × (both.1 ≡ given)) }
{
    match Record::new(epoch, number, back, page, block_back, writes.clone()?) {
        Ok(redo) => Ok((redo.copy()?, redo)),
        Err(refused) => match refused.fault {
            RecordFault::Shape(_) => unreachable!(),
            RecordFault::Memory => Err(AllocError),
        },
    }
}
