ghost use Rattle.std.specs.Prelude.{◌≡◌, ℕ, ◌<◌, ◌≤◌, length, nat_lt, IfOk, IfErr, IfSome, IsNone};
ghost use Rattle.std.specs.List.{All, HoldsAt, Contains, filter};
ghost use Rattle.std.specs.List.Sorted.{IsPartitionPoint};
ghost use Rattle.redo_core.specs.Order.{IsRising, AdvanceBefore};
ghost use Rattle.epoch_book.specs.Refusing.{Contradict, IsFirst};

use crate::wait_list::WaitList;
use redo_core::{Advance, Cut};

/// The index of an advance, or where it would be inserted.
pub(crate) fn place_of_advance(waits: &[Advance], advance: Advance) -> Result<usize, usize>
    requires { IsRising AdvanceBefore waits.now }
    ensures found { IfOk result (λ _. Contains waits.now advance) }
    ensures place { IfOk result (λ i. (i < length waits.now) × HoldsAt (λ a. a ≡ advance) waits.now i) }
    ensures absent { IfErr result (λ i. (i ≤ length waits.now)
        × IsPartitionPoint (λ a. AdvanceBefore a advance) (λ a. AdvanceBefore advance a) waits.now i) }
{
    let key = (advance.epoch(), advance.reader(), advance.point());
    waits.binary_search_by_key(&key, |wait| { (wait.epoch(), wait.reader(), wait.point()) })
}

/// The least advance, by epoch, reader and point, that the truncation cuts below.
pub(crate) fn first_against(waits: &[Advance], cut: Cut) -> Option<Advance>
    requires { IsRising AdvanceBefore waits.now }
    ensures first { IfSome result (IsFirst AdvanceBefore (λ a. Contains waits.now a × Contradict cut a)) }
    ensures none { IsNone result → All (λ a. Contradict cut a → ⊥) waits.now }
{
    for wait in waits {
        if wait.epoch() < cut.epoch() && cut.lo() < wait.point() {
            return Some(*wait);
        }
    }
    None
}

/// The advances of epochs below one: the first ones.
pub(crate) fn earlier(waits: &[Advance], epoch: u32) -> &[Advance]
    requires { IsRising AdvanceBefore waits.now }
    ensures { result.now ≡ filter (λ a. nat_lt a.epoch epoch) waits.now }
{
    let count = waits.partition_point(|wait| u32::from(wait.epoch()) < epoch);
    &waits[..count]
}

/// Keeps only the advances of epochs above the complete one.
pub(crate) fn keep_later(waits: &mut WaitList, complete: u16)
    requires { IsRising AdvanceBefore waits.old }
    ensures { waits.new ≡ filter (λ a. nat_lt complete a.epoch) waits.old }
{
    let begun = earlier(waits.as_slice(), u32::from(complete) + 1).len();
    waits.remove_first(begun);
}
