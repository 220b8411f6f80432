ghost use Rattle.std.specs.Prelude.{◌≡◌, ◌<◌, ◌≤◌, ◌↔◌, length, nat_lt, IsTrue, IfOk, IfErr, IfSome, IsNone, None};
ghost use Rattle.std.specs.List.{All, HoldsAt, Contains, filter};
ghost use Rattle.std.specs.List.Sorted.{IsPartitionPoint};
ghost use Rattle.redo_core.specs.Data.{CutData};
ghost use Rattle.redo_core.specs.Shape.{cut_fault, epoch_count};
ghost use Rattle.redo_core.specs.Order.{IsRising, CutBefore, AdvanceBefore};
ghost use Rattle.redo_core.specs.CompleteEpoch.{HasCutsTo, IsCompleteEpoch, HasCut};
ghost use Rattle.redo_core.specs.Roster.{IsReader};
ghost use Rattle.epoch_book.specs.Refusing.{CutsBelow, IsFirst};

use crate::points::others_past;
use redo_core::{Advance, Cut, ReadPoints};

/// The index of the truncation of an epoch, or where one would be inserted.
pub(crate) fn place_of_epoch(cuts: &[Cut], epoch: u16) -> Result<usize, usize>
    requires { IsRising CutBefore cuts.now }
    ensures found { IfOk result (λ i. (i < length cuts.now) × HoldsAt (λ c. c.epoch ≡ epoch) cuts.now i) }
    ensures absent { IfErr result (λ i. (i ≤ length cuts.now)
        × IsPartitionPoint (λ c. c.epoch < epoch) (λ c. epoch < c.epoch) cuts.now i) }
{
    cuts.binary_search_by_key(&epoch, |cut| cut.epoch())
}

fn has_epoch(cuts: &[Cut], epoch: u32) -> bool
    requires rising { IsRising CutBefore cuts.now }
    requires fits { All (λ c. c.epoch < epoch_count) cuts.now }
    ensures found { IsTrue result ↔ HasCut cuts.now epoch }
    ensures small { IsTrue result → epoch < epoch_count }
{
    match u16::try_from(epoch) {
        Ok(epoch) => place_of_epoch(cuts, epoch).is_ok(),
        Err(_) => false,
    }
}

/// The complete epoch, where all truncations up to `from` are known.
pub(crate) fn complete_epoch_from(cuts: &[Cut], from: u16) -> u16
    requires rising { IsRising CutBefore cuts.now }
    requires fits { All (λ c. c.epoch < epoch_count) cuts.now }
    requires known { HasCutsTo cuts.now from }
    ensures { IsCompleteEpoch cuts.now result }
{
    let mut epoch = u32::from(from);
    while has_epoch(cuts, epoch + 1) {
        epoch += 1;
    }
    epoch as u16
}

/// The truncations of epochs above one: the last ones.
pub(crate) fn later(cuts: &[Cut], epoch: u16) -> &[Cut]
    requires { IsRising CutBefore cuts.now }
    ensures { result.now ≡ filter (λ c. nat_lt epoch c.epoch) cuts.now }
{
    let count = cuts.partition_point(|cut| cut.epoch() <= epoch);
    &cuts[count..]
}

// Whether the truncation cuts below the advance, and nobody is left who reads there.
fn cuts_below(
    cut: Cut,
    advance: Advance,
    points: &ReadPoints,
    waits: &[Advance],
    complete: u16,
) -> bool
    requires { IsRising AdvanceBefore waits.now }
    ensures { IsTrue result ↔ CutsBelow complete points.now waits.now cut advance }
{
    advance.epoch() < cut.epoch()
        && cut.lo() < advance.point()
        && (points.readers() == 1
            || complete < cut.epoch() && others_past(points, waits, cut, advance.reader()))
}

/// The truncation of the least epoch that cuts below the advance where nobody is left who reads there, or None.
pub(crate) fn first_against(
    cuts: &[Cut],
    advance: Advance,
    points: &ReadPoints,
    waits: &[Advance],
    complete: u16,
) -> Option<Cut>
    requires rising { IsRising CutBefore cuts.now }
    requires waits_rise { IsRising AdvanceBefore waits.now }
    ensures first { IfSome result (IsFirst CutBefore (λ c. Contains cuts.now c × CutsBelow complete points.now waits.now c advance)) }
    ensures none { IsNone result → All (λ c. CutsBelow complete points.now waits.now c advance → ⊥) cuts.now }
{
    for cut in cuts {
        if cuts_below(*cut, advance, points, waits, complete) {
            return Some(*cut);
        }
    }
    None
}

/// Whether an LSN is above the `hi` of its epoch's truncation, where all up to the epoch are known.
pub(crate) fn is_begun(cuts: &[Cut], epoch: u16, number: u64) -> bool
    requires rising { IsRising CutBefore cuts.now }
    requires shaped { All (λ c. cut_fault c ≡ None) cuts.now }
    requires known { HasCutsTo cuts.now epoch }
    ensures { IsTrue result ↔ ((c : CutData) → Contains cuts.now c → c.epoch ≡ epoch → c.hi < number) }
{
    epoch == 0 || cuts[usize::from(epoch) - 1].hi() < number
}
