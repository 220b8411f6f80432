// The truncations that cut lowest, up to the complete epoch: no later one has a `lo` below an earlier one's. A truncation that cuts lower
// than many before it removes them all at once, so each of them is inserted once and removed once.
ghost use Rattle.std.specs.Prelude.{◌≡◌, ℕ, ◌+◌, ◌<◌, ◌≤◌, ◌↔◌, length, IsTrue, OnOk, OnErr, None, vec_len, vec_capacity};
ghost use Rattle.std.specs.List.{All, Contains};
ghost use Rattle.std.specs.List.Sorted.{IsPartitionPoint};
ghost use Rattle.redo_core.specs.Data.{CutData};
ghost use Rattle.redo_core.specs.Shape.{cut_fault};
ghost use Rattle.redo_core.specs.Order.{IsRising, IsGreatest, CutBefore};
ghost use Rattle.redo_core.specs.CompleteEpoch.{HasCutsTo};
ghost use Rattle.epoch_book.specs.Lows.{AreLows, LowBefore};
ghost use Rattle.epoch_book.specs.Scanning.{IsLeastAbove};

use redo_core::Cut;
use std::alloc::AllocError;

/// Updates the list from one epoch to a complete one. The only error is an allocation failure, which leaves the list unchanged.
pub(crate) fn raise(
    lows: &mut Vec<Cut>,
    cuts: &[Cut],
    from: u16,
    complete: u16,
) -> Result<(), AllocError>
    requires rising { IsRising CutBefore cuts.now }
    requires shaped { All (λ c. cut_fault c ≡ None) cuts.now }
    requires known { HasCutsTo cuts.now complete }
    requires before { AreLows cuts.now from lows.old.items }
    requires later { from ≤ complete }
    ensures ok { OnOk result (AreLows cuts.now complete lows.new.items) }
    ensures err { OnErr result (lows.new.items ≡ lows.old.items) }
{
    lows.reserve(usize::from(complete - from))?;
    for epoch in from..complete {
        add_next(lows, cuts, epoch);
    }
    Ok(())
}

// Updates the list from one epoch to the next, whose truncation removes those that cut higher.
fn add_next(lows: &mut Vec<Cut>, cuts: &[Cut], epoch: u16)
    requires rising { IsRising CutBefore cuts.now }
    requires shaped { All (λ c. cut_fault c ≡ None) cuts.now }
    requires known { HasCutsTo cuts.now (epoch + 1) }
    requires before { AreLows cuts.now epoch lows.old.items }
    requires room { vec_len lows.old < vec_capacity lows.old }
    ensures after { AreLows cuts.now (epoch + 1) lows.new.items }
    ensures longer { vec_len lows.new ≤ vec_len lows.old + 1 }
    ensures capacity { vec_capacity lows.new ≡ vec_capacity lows.old }
{
    let next = cuts[usize::from(epoch)];
    let stay = count_at(lows, next.lo());
    lows.truncate(stay);
    lows.push_reserved(next);
}

// How many of the list cut at or below an LSN: the first ones.
fn count_at(lows: &[Cut], number: u64) -> usize
    requires { IsRising LowBefore lows.now }
    ensures bound { result ≤ length lows.now }
    ensures parted { IsPartitionPoint (λ c. c.lo ≤ number) (λ c. number < c.lo) lows.now result }
{
    lows.partition_point(|low| low.lo() <= number)
}

// How many of the list are of epochs up to one: the first ones.
fn count_to(lows: &[Cut], epoch: u16) -> usize
    requires { IsRising LowBefore lows.now }
    ensures bound { result ≤ length lows.now }
    ensures parted { IsPartitionPoint (λ c. c.epoch ≤ epoch) (λ c. epoch < c.epoch) lows.now result }
{
    lows.partition_point(|low| low.epoch() <= epoch)
}

/// The least `lo` of the list above an epoch, or None where none is above it.
pub(crate) fn low_above(lows: &[Cut], epoch: u16) -> Option<u64>
    requires { IsRising LowBefore lows.now }
    ensures { IsLeastAbove lows.now epoch result }
{
    let next = lows.get(count_to(lows, epoch))?;
    Some(next.lo())
}

/// Whether none of the list above an epoch cuts below an LSN.
pub(crate) fn spare(lows: &[Cut], epoch: u16, number: u64) -> bool
    requires { IsRising LowBefore lows.now }
    ensures { IsTrue result ↔ All (λ c. epoch < c.epoch → number ≤ c.lo) lows.now }
{
    match low_above(lows, epoch) {
        Some(low) => number <= low,
        None => true,
    }
}

/// The epoch of the last of the list that cuts at or below an LSN, or 0 where none does.
pub(crate) fn last_at(lows: &[Cut], number: u64) -> u16
    requires { IsRising LowBefore lows.now }
    ensures { IsGreatest (λ e. (c : CutData) × Contains lows.now c × (c.epoch ≡ e) × (c.lo ≤ number)) result }
{
    match count_at(lows, number).checked_sub(1) {
        Some(place) => lows[place].epoch(),
        None => 0,
    }
}
