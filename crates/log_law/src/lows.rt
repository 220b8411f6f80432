ghost use Rattle.std.specs.Prelude.{◌≡◌, ◌≢◌, ℕ, ◌<◌, ◌≤◌, ◌⊎◌, ◌↔◌, min, max, length, slice_index, IfOk};
ghost use Rattle.redo_core.specs.Roster.{IsRoster};
ghost use Rattle.redo_core.specs.Data.{AdvanceData};
ghost use Rattle.log_law.specs.Lows.{AreTops, AreLeastPoints, AreSteps, IsStep, HasTopAbove};

use crate::counted::filled;
use redo_core::{Advance, Fact, Roster};
use std::alloc::{AllocError, Global};

/// For each of the first `len` epochs, the least of the readers' points by the advances of earlier epochs.
pub(crate) fn lows_of(
    alloc: Global,
    facts: &[Fact],
    roster: Roster,
    len: usize,
) -> Result<Vec<u64>, AllocError>
    ensures { IfOk result (λ v. AreLeastPoints roster facts.now len v.items) }
{
    let readers = roster.readers();
    let mut lows = tops_of(alloc, facts, 1, len)?;
    let mut reader: u8 = 1;
    while reader < readers {
        reader += 1;
        let tops = tops_of(alloc, facts, reader, len)?;
        lower_all(&mut lows, &tops);
    }
    Ok(lows)
}

fn lower_all(lows: &mut Vec<u64>, tops: &[u64])
    requires { length tops.now ≡ length lows.old.items }
    ensures len { length lows.new.items ≡ length lows.old.items }
    ensures each { (e : ℕ) → e < length lows.old.items → slice_index lows.new.items e ≡ min (slice_index lows.old.items e) (slice_index tops.now e) }
{
    for epoch in 0..tops.len() {
        lows[epoch] = lows[epoch].min(tops[epoch]);
    }
}

// For each epoch, the reader's point by the advances of earlier epochs.
fn tops_of(alloc: Global, facts: &[Fact], reader: u8, len: usize) -> Result<Vec<u64>, AllocError>
    ensures { IfOk result (λ v. AreTops facts.now reader len v.items) }
{
    let mut tops = steps_of(alloc, facts, reader, len)?;
    rise(&mut tops);
    Ok(tops)
}

// For each epoch, the reader's greatest point among the advances of the epoch before.
fn steps_of(alloc: Global, facts: &[Fact], reader: u8, len: usize) -> Result<Vec<u64>, AllocError>
    ensures { IfOk result (λ v. AreSteps facts.now reader len v.items) }
{
    let mut tops = filled(alloc, 0, len)?;
    for fact in facts {
        if let Fact::Advance(advance) = fact {
            note(&mut tops, *advance, reader);
        }
    }
    Ok(tops)
}

fn note(tops: &mut Vec<u64>, advance: Advance, reader: u8)
    ensures len { length tops.new.items ≡ length tops.old.items }
    ensures each { (e n : ℕ) → e < length tops.old.items
        → (n < slice_index tops.new.items e) ↔ ((n < slice_index tops.old.items e) ⊎ IsStep advance reader e n) }
{
    let after = usize::from(advance.epoch()) + 1;
    if advance.reader() == reader && after < tops.len() {
        raise_to(tops, after, advance.point());
    }
}

// Each value becomes the greatest up to its index.
fn rise(tops: &mut Vec<u64>)
    ensures len { length tops.new.items ≡ length tops.old.items }
    ensures each { (e n : ℕ) → e < length tops.old.items → (n < slice_index tops.new.items e) ↔ HasTopAbove tops.old.items e n }
{
    for epoch in 1..tops.len() {
        let before = tops[epoch - 1];
        raise_to(tops, epoch, before);
    }
}

fn raise_to(tops: &mut Vec<u64>, place: usize, number: u64)
    requires { place < length tops.old.items }
    ensures len { length tops.new.items ≡ length tops.old.items }
    ensures at { slice_index tops.new.items place ≡ max (slice_index tops.old.items place) number }
    ensures others { (e : ℕ) → e ≢ place → slice_index tops.new.items e ≡ slice_index tops.old.items e }
{
    tops[place] = tops[place].max(number);
}
