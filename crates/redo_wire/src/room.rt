ghost use Rattle.std.specs.Prelude.{◌≡◌, ◌≤◌, ◌<◌, ◌*◌, [], length, IfOk, vec_capacity};

use std::alloc::{AllocError, Global};

/// An empty list with room for the elements that a count promises, but for no more than `left` could hold: a count is not
/// trusted for memory. `size` is the size of an element in bytes.
pub(crate) fn list_with_room<T>(
    alloc: Global,
    count: usize,
    size: usize,
    left: &[u8],
) -> Result<Vec<T>, AllocError>
    requires { 0 < size }
    ensures items { IfOk result (λ v. v.items ≡ []) }
    ensures counted { IfOk result (λ v. vec_capacity v ≤ count) }
    ensures left { IfOk result (λ v. size * vec_capacity v ≤ length left.now) }
{
    let most = left.len() / size;
    Vec::with_capacity(alloc, if count < most { count } else { most })
}
