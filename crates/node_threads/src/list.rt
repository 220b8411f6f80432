ghost use Rattle.std.specs.Prelude.{◌≡◌, ◌⊎◌, ◌-◌, ◌<◌, length, MatchOption, Some, slice_get};

/// The item of a number from 1.
pub(crate) fn numbered<T>(items: &[T], number: usize) -> Option<&T>
    ensures { MatchOption result ((number ≡ 0) ⊎ (length items.now < number)) (λ x. (0 < number) × (slice_get items.now (number - 1) ≡ Some x.now)) }
{
    if number == 0 {
        return None;
    }
    items.get(number - 1)
}
