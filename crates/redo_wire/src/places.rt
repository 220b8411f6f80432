//! The order of keys, and that of waiting advances.

ghost use Rattle.std.specs.Prelude.{◌≡◌};
ghost use Rattle.redo_wire.specs.Places.{is_above, is_wait_above};

use redo_core::Key;

/// Whether the key `next` is above the key `last`.
pub(crate) fn is_above(last: Key, next: Key) -> bool
    ensures { result ≡ is_above last next }
{
    last.epoch < next.epoch || (last.epoch == next.epoch && last.number < next.number)
}

/// The same of an epoch, a reader and a point in it.
pub(crate) fn is_wait_above(last: (u16, u8, u64), next: (u16, u8, u64)) -> bool
    ensures { result ≡ is_wait_above last next }
{
    last.0 < next.0
        || (last.0 == next.0 && (last.1 < next.1 || (last.1 == next.1 && last.2 < next.2)))
}
