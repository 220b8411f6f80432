//! Values in memory of their own.
ghost use Rattle.std.specs.Prelude.{◌≡◌, IfOk};

use std::alloc::{AllocError, Global};
use std::marker::Model;

/// A value in memory of its own, so that a request or a reply that carries a large value is no larger than one that carries a fact: each is
/// moved several times on its way. Contracts see the value itself.
#[derive(Drop)]
pub struct Boxed<T> {
    held: Box<T>,
}

impl<T> Model for Boxed<T> {
    ghost Value = { T };

    ghost view = { λ b. b.held.value };
}

impl<T: Drop> Boxed<T> {
    /// The value in memory of its own. It fails only if memory runs out.
    pub fn new(alloc: Global, value: T) -> Result<Self, AllocError>
        ensures { IfOk result (λ b. b ≡ value) }
    {
        let held = Box::new(alloc, value)?;
        Ok(Boxed { held })
    }
}

impl<T> Boxed<T> {
    /// The value.
    pub fn value(&self) -> &T
        ensures { result.now ≡ self.now }
    {
        &self.held
    }

    /// The value alone.
    pub fn into_value(self) -> T
        ensures { result ≡ self }
    {
        Box::into_inner(self.held)
    }
}
