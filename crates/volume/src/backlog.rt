ghost use Rattle.std.specs.Prelude.{◌≡◌, ◌↔◌, ◌≤◌, ◌⊎◌, ◌++◌, ◌∷◌, List, [], Some, IsTrue, IfSome, IfNone, OnOk, OnErr};
ghost use Rattle.redo_core.specs.Data.{RecordData};
ghost use Rattle.volume.specs.Writing.{IsReachedCommit, IsLastReached, HasNoneReached, records_above};

use crate::sets::count_up_to;
use redo_core::Record;
use std::alloc::{AllocError, Global};
use std::marker::Model;

/// The records of an open volume that are not durable yet, oldest first.
#[derive(Drop)]
pub struct Backlog {
    records: Vec<Record>,
}

impl Model for Backlog {
    ghost use Rattle.std.specs.Prelude.{List};
    ghost use Rattle.redo_core.specs.Data.{RecordData};

    ghost Value = { List RecordData };

    ghost view = { λ b. b.records.items };
}

impl Backlog {
    /// A backlog of no records.
    pub(crate) fn new(alloc: Global) -> Self
        ensures { result ≡ [] }
    {
        Backlog {
            records: Vec::new(alloc),
        }
    }

    /// Adds a record. It fails only if memory runs out, and then changes nothing.
    pub(crate) fn add(&mut self, redo: Record) -> Result<(), AllocError>
        ensures ok { OnOk result (self.new ≡ self.old ++ redo ∷ []) }
        ensures unchanged { OnErr result (self.new ≡ self.old) }
    {
        self.records.push(redo)?;
        Ok(())
    }

    /// Drops the newest record.
    pub(crate) fn drop_newest(&mut self)
        ensures { (rest : List RecordData) (r : RecordData) → self.old ≡ rest ++ r ∷ [] → self.new ≡ rest }
    {
        let _ = self.records.pop();
    }

    /// The records, oldest first.
    pub fn records(&self) -> &[Record]
        ensures { result.now ≡ self.now }
    {
        &self.records
    }

    /// The greatest number of a record of page 0 that so many nodes have come up to.
    pub(crate) fn last_reached(&self, reached: &[u64; 15], quorum: u8) -> Option<u64>
        ensures some { IfSome result (IsLastReached quorum self.now reached.now) }
        ensures none { IfNone result (HasNoneReached quorum self.now reached.now) }
    {
        let mut last = None;
        for redo in &self.records {
            if is_reached(redo, reached, quorum) {
                last = Some(greater(last, redo.number()));
            }
        }
        last
    }

    /// Drops the records up to a point.
    pub(crate) fn drop_up_to(&mut self, point: u64)
        ensures { self.new ≡ records_above point self.old }
    {
        self.records.retain(|redo| redo.number() > point);
    }
}

/// Whether the record ends a mini-transaction, and so many nodes have come up to it.
fn is_reached(redo: &Record, reached: &[u64; 15], quorum: u8) -> bool
    ensures { IsTrue result ↔ IsReachedCommit quorum redo.now reached.now }
{
    redo.page() == 0 && count_up_to(reached, redo.number()) >= quorum
}

/// The greater of a number and the one before, if there is one.
fn greater(before: Option<u64>, number: u64) -> u64
    ensures either { (result ≡ number) ⊎ (before ≡ Some result) }
    ensures number { number ≤ result }
    ensures before { IfSome before (λ other. other ≤ result) }
{
    match before {
        Some(other) if other > number => other,
        _ => number,
    }
}
