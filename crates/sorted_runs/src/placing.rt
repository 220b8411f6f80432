ghost use Rattle.std.specs.Prelude.{◌≡◌, ◌<◌, ◌≤◌, length, is_ok, if◌then◌else◌, IfErr, IsOk, vec_len, vec_capacity};
ghost use Rattle.std.specs.List.{insert};

use std::alloc::AllocFailed;

/// Inserts an element into a list, before the one at an index or after the last. The only error is an allocation failure: it leaves
/// the list unchanged and returns the element.
pub fn put_in<T>(list: &mut Vec<T>, at: usize, element: T) -> Result<(), AllocFailed<T>>
    requires { at ≤ length list.old.items }
    ensures items { list.new.items ≡ (if is_ok result then insert list.old.items at element else list.old.items) }
    ensures returned { IfErr result (λ e. e.value ≡ element) }
    ensures succeeds { vec_len list.old < vec_capacity list.old → IsOk result }
{
    // A rotation by one is compiled to one move of memory. `Vec::insert` has the same effect, and moves element by element where the
    // compiler cannot see that the index is not the greatest integer.
    list.push(element)?;
    list[at..].rotate_right(1);
    Ok(())
}
