//! Lists of one and of two, and boxes, of any type.
ghost use Rattle.std.specs.Prelude.{◌≡◌, ◌∷◌, [], Ok, length, IfOk};

use std::alloc::{AllocError, Global};

/// The only item of a list.
pub fn only<T: Drop>(mut items: Vec<T>) -> T
    requires { length items.items ≡ 1 }
    ensures { items.items ≡ result ∷ [] }
{
    items.pop().unwrap()
}

/// Both items of a list of two.
pub fn both<T: Drop>(mut items: Vec<T>) -> (T, T)
    requires { length items.items ≡ 2 }
    ensures { items.items ≡ result.0 ∷ result.1 ∷ [] }
{
    let other = items.pop().unwrap();
    let one = items.pop().unwrap();
    (one, other)
}

/// A value in a box. Where memory runs out the value is dropped.
pub fn in_box<T: Drop>(alloc: Global, value: T) -> Result<Box<T>, AllocError>
    ensures { IfOk result (λ b. b.value ≡ value) }
{
    Ok(Box::new(alloc, value)?)
}

/// Both items of a list of two, each in a box.
pub fn boxed_both<T: Drop>(alloc: Global, items: Vec<T>) -> Result<(Box<T>, Box<T>), AllocError>
    requires { length items.items ≡ 2 }
    ensures { IfOk result (λ t. items.items ≡ t.0.value ∷ t.1.value ∷ []) }
{
    let (one, other) = both(items);
    let one = in_box(alloc, one)?;
    Ok((one, in_box(alloc, other)?))
}
