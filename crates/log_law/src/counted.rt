ghost use Rattle.std.specs.Prelude.{◌≡◌, ℕ, ◌≤◌, ◌<◌, ◌⊎◌, ◌↔◌, List, [], ◌∷◌, length, slice_index_or, IsTrue, IfOk, MatchOption, None, Some};
ghost use Rattle.std.specs.List.{Contains};
ghost use Rattle.redo_core.specs.CompleteEpoch.{HasCut, HasCutsTo};
ghost use Rattle.redo_core.specs.Data.{CutData, RecordData};
ghost use Rattle.redo_core.specs.Order.{IsGreatest};
ghost use Rattle.redo_core.specs.Sets.{cuts};
ghost use Rattle.redo_core.specs.Shape.{cut_fault, advance_fault, epoch_count, max_number};
ghost use Rattle.redo_core.specs.Sound.{Law2, Law5, counted};
ghost use Rattle.redo_core.specs.declared.facts.Fact.{Fact};
ghost use Rattle.redo_core.specs.declared.facts.Fact.TheVariants.{Record, Advance as OfAdvance};
ghost use Rattle.log_law.specs.Counted.{first_at, first_cut, or_first, IsTable, AreBegunTo, IsLeastLaterLo, Describes, HasLeastLaterLo};
ghost use Rattle.log_law.specs.Breach.{IsFirstMissing};
ghost use Rattle.log_law.specs.Lows.{AreLeastPoints};

use crate::lows::lows_of;
use redo_core::{Advance, Cut, Fact, MAX_NUMBER, Roster};
use std::alloc::{AllocError, Global};

/// The effective truncations of a log, by epoch, and what they decide.
#[derive(Drop)]
pub(crate) struct CountedCuts {
    /// The number of readers of the log.
    readers: u8,
    /// Each epoch's first truncation. It ends with the last epoch that has one.
    by_epoch: Vec<Option<Cut>>,
    /// The last epoch up to which every epoch from 1 has a truncation.
    complete: u16,
    /// For each epoch of the table the least `lo` of the truncations of later epochs that all readers are past.
    least_later_lo: Vec<u64>,
}

impl CountedCuts {
    /// The effective truncations among these facts. The only error is an allocation failure.
    pub(crate) fn new(alloc: Global, facts: &[Fact], roster: Roster) -> Result<Self, AllocError>
        ensures cuts { IfOk result (Describes facts.now) }
        ensures least_later_lo { IfOk result (HasLeastLaterLo roster facts.now) }
    {
        let len = usize::from(last_epoch(facts)) + 1;
        let by_epoch = first_cuts(alloc, facts, len)?;
        let complete = complete_epoch(&by_epoch);
        let lows = lows_of(alloc, facts, roster, len)?;
        let least_later_lo = least_later_los(alloc, &by_epoch, &lows)?;
        Ok(CountedCuts {
            readers: roster.readers(),
            by_epoch,
            complete,
            least_later_lo,
        })
    }

    /// The effective truncation of an epoch.
    pub(crate) fn at(&self, epoch: u16) -> Option<Cut>
        ensures { result ≡ slice_index_or self.now.by_epoch.items epoch None }
    {
        self.by_epoch.get(usize::from(epoch)).copied().flatten()
    }

    /// Whether the truncation is the effective one of its epoch.
    pub(crate) fn counts(&self, cut: &Cut) -> bool
        ensures { IsTrue result ↔ (slice_index_or self.now.by_epoch.items cut.now.epoch None ≡ Some cut.now) }
    {
        match self.at(cut.epoch()) {
            Some(first) => first == *cut,
            None => false,
        }
    }

    /// Whether an epoch has begun, and admits a record of this LSN.
    pub(crate) fn admits(&self, epoch: u16, number: u64) -> bool
        ensures { (log : List Fact) (r : RecordData) → Describes log self.now → r.epoch ≡ epoch → r.number ≡ number → IsTrue result ↔ Law2 log (Record r) }
    {
        if epoch > self.complete {
            return false;
        }
        self.is_above_hi(epoch, number)
    }

    /// Whether an LSN is above the `hi` of an epoch, where it has one.
    pub(crate) fn is_above_hi(&self, epoch: u16, number: u64) -> bool
        ensures { (log : List Fact) → Describes log self.now
            → IsTrue result ↔ ((c : CutData) → Contains (counted log) c → c.epoch ≡ epoch → c.hi < number) }
    {
        match self.at(epoch) {
            Some(cut) => cut.hi() < number,
            None => true,
        }
    }

    /// The least epoch from 1 up to this one that has no truncation.
    pub(crate) fn first_missing(&self, epoch: u16) -> Option<u16>
        ensures { (log : List Fact) → Describes log self.now → MatchOption result (HasCutsTo (counted log) epoch) (IsFirstMissing log epoch) }
    {
        if epoch > self.complete {
            return Some(self.complete + 1);
        }
        None
    }

    /// The length of the table: the last epoch with a truncation, plus 1.
    pub(crate) fn epochs(&self) -> usize
        ensures { result ≡ length self.now.by_epoch.items }
    {
        self.by_epoch.len()
    }

    /// Whether an advance's reader is of the roster, its epoch has begun, and no later truncation that all readers are past cuts
    /// below its point.
    pub(crate) fn spares(&self, advance: Advance) -> bool
        ensures shape { advance_fault advance ≡ None }
        ensures law { (roster : ℕ) (log : List Fact) → Describes log self.now → HasLeastLaterLo roster log self.now
            → IsTrue result ↔ Law5 roster log (OfAdvance advance) }
    {
        if advance.reader() > self.readers {
            return false;
        }
        if advance.epoch() > self.complete {
            return false;
        }
        advance.point() <= self.later_lo(advance.epoch())
    }

    fn later_lo(&self, epoch: u16) -> u64
        ensures { result ≡ slice_index_or self.now.least_later_lo.items epoch max_number }
    {
        self.least_later_lo
            .get(usize::from(epoch))
            .copied()
            .unwrap_or(MAX_NUMBER)
    }
}

// The greatest epoch of a truncation, or 0.
fn last_epoch(facts: &[Fact]) -> u16
    ensures { IsGreatest (HasCut (cuts facts.now)) result }
{
    let mut last = 0;
    for fact in facts {
        if let Fact::Cut(cut) = fact {
            last = cut.epoch().max(last);
        }
    }
    last
}

fn first_cuts(alloc: Global, facts: &[Fact], len: usize) -> Result<Vec<Option<Cut>>, AllocError>
    requires { (c : CutData) → Contains (cuts facts.now) c → c.epoch < len }
    ensures len { IfOk result (λ v. length v.items ≡ len) }
    ensures table { IfOk result (λ v. IsTable facts.now v.items) }
{
    let mut table = empty_table(alloc, len)?;
    for fact in facts {
        if let Fact::Cut(cut) = fact {
            count(&mut table, cut);
        }
    }
    Ok(table)
}

fn empty_table(alloc: Global, len: usize) -> Result<Vec<Option<Cut>>, AllocError>
    ensures { IfOk result (λ v. (length v.items ≡ len) × ((k : ℕ) → slice_index_or v.items k None ≡ None)) }
{
    vec![in alloc; None; len]
}

/// A list of `len` times the same value. The only error is an allocation failure.
pub(crate) fn filled(alloc: Global, number: u64, len: usize) -> Result<Vec<u64>, AllocError>
    ensures { IfOk result (λ v. (length v.items ≡ len) × ((k : ℕ) → slice_index_or v.items k number ≡ number)) }
{
    vec![in alloc; number; len]
}

fn count(table: &mut [Option<Cut>], cut: &Cut)
    requires { cut.now.epoch < length table.old }
    ensures len { length table.new ≡ length table.old }
    ensures slots { (e : ℕ) → slice_index_or table.new e None ≡ or_first (slice_index_or table.old e None) (first_at e (cut.now ∷ [])) }
    ensures shape { cut_fault cut.now ≡ None }
{
    let slot = usize::from(cut.epoch());
    if table[slot].is_none() {
        table[slot] = Some(*cut);
    }
}

fn complete_epoch(table: &[Option<Cut>]) -> u16
    requires some { 0 < length table.now }
    requires few { length table.now ≤ epoch_count }
    ensures { (log : List Fact) → IsTable log table.now → AreBegunTo log result }
{
    for epoch in 1..table.len() {
        if table[epoch].is_none() {
            return (epoch - 1) as u16;
        }
    }
    (table.len() - 1) as u16
}

fn least_later_los(
    alloc: Global,
    table: &[Option<Cut>],
    lows: &[u64],
) -> Result<Vec<u64>, AllocError>
    requires table { 0 < length table.now }
    requires lows { length lows.now ≡ length table.now }
    ensures { (roster : ℕ) (log : List Fact) → IsTable log table.now → AreLeastPoints roster log (length table.now) lows.now
        → IfOk result (λ v. (e : ℕ) → IsLeastLaterLo roster log e (slice_index_or v.items e max_number)) }
{
    let mut least_later_lo = filled(alloc, MAX_NUMBER, table.len())?;
    let mut epoch = table.len() - 1;
    while epoch > 0 {
        epoch -= 1;
        least_later_lo[epoch] = lower(table[epoch + 1], lows[epoch + 1], least_later_lo[epoch + 1]);
    }
    Ok(least_later_lo)
}

fn lower(cut: Option<Cut>, low: u64, later: u64) -> u64
    ensures { MatchOption cut (result ≡ later) (λ c. (c.lo < low → result ≤ c.lo) × (result ≤ later) × ((result ≡ later) ⊎ ((c.lo < low) × (result ≡ c.lo)))) }
{
    match cut {
        Some(cut) if cut.lo() < low => cut.lo().min(later),
        _ => later,
    }
}
