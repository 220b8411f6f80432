//! How a record stores its patches: one short patch beside its other parts, otherwise the list that it was made of.

ghost use Rattle.std.specs.Prelude.{◌≡◌, ◌↔◌, ◌∷◌, [], IsTrue, IfOk, IfSome};
ghost use Rattle.redo_core.specs.Body.{patches_of};
ghost use Rattle.redo_core.specs.Data.{plain};
ghost use Rattle.redo_core.specs.KeptBody.{patches_at};

use crate::patches::{Body, Patch};
use crate::writes::Write;
use std::alloc::{AllocError, Global};
use std::slice;

/// The patches of one record.
#[derive(Drop)]
pub enum KeptBody {
    // Most records have one patch of a few bytes: it needs no list, and a fold finds it where it finds the record's other parts.
    Short(Patch),
    Writes(Vec<Write>),
    Patches(Vec<Patch>),
}

impl KeptBody {
    /// The only write of a list, where it is short. None where the list itself is to be kept.
    pub fn short_write(writes: &[Write]) -> Option<Self>
        ensures { IfSome result (λ k. patches_at k ≡ plain writes.now) }
    {
        match writes {
            [only] if only.is_short() => match only.copy() {
                Ok(copied) => Some(KeptBody::Short(Patch::Bytes(copied))),
                Err(_) => None,
            },
            _ => None,
        }
    }

    /// The only patch of a list, where it is short. None where the list itself is to be kept.
    pub fn short_patch(patches: &[Patch]) -> Option<Self>
        ensures { IfSome result (λ k. patches_at k ≡ patches.now) }
    {
        match patches {
            [only] if only.is_short() => match only.copy() {
                Ok(copied) => Some(KeptBody::Short(copied)),
                Err(_) => None,
            },
            _ => None,
        }
    }

    /// One patch; a short one takes no list. The only error is an allocation failure.
    pub fn of_patch(alloc: Global, patch: Patch) -> Result<Self, AllocError>
        ensures { IfOk result (λ k. patches_at k ≡ patch ∷ []) }
    {
        if patch.is_short() {
            return Ok(KeptBody::Short(patch));
        }
        let mut patches = Vec::with_capacity(alloc, 1)?;
        patches.push(patch)?;
        Ok(KeptBody::Patches(patches))
    }

    /// The patches, borrowed, in the order in which they are applied.
    pub fn body(&self) -> Body<'_>
        ensures { patches_of result ≡ patches_at self.now }
    {
        match self {
            KeptBody::Short(patch) => Body::Patches(slice::from_ref(patch)),
            KeptBody::Writes(writes) => Body::Writes(writes),
            KeptBody::Patches(patches) => Body::Patches(patches),
        }
    }

    /// Whether the other has the same patches, in the same order. Most have one short patch each, which are compared at once.
    pub fn is_same(&self, other: &KeptBody) -> bool
        ensures { IsTrue result ↔ (patches_at self.now ≡ patches_at other.now) }
    {
        match (self, other) {
            (KeptBody::Short(one), KeptBody::Short(two)) => one.is_same(two),
            _ => self.body().is_same(&other.body()),
        }
    }
}
