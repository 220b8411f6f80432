ghost use Rattle.std.specs.Prelude.{◌≡◌, ◌↔◌, IsTrue, IfOk};

use crate::held_bytes::HeldBytes;
use std::alloc::{AllocError, Global};
use std::marker::Model;

/// Bytes that a redo record puts into its page, from an offset on.
#[derive(Drop)]
pub struct Write {
    offset: u16,
    bytes: HeldBytes,
}

impl Model for Write {
    ghost use Rattle.redo_core.specs.Writes.{WriteData};

    ghost Value = { WriteData };

    ghost view = { λ w. record { offset = w.offset; bytes = w.bytes } };
}

impl Write {
    /// A write of `bytes` from `offset` on. The record's constructor checks whether it fits its page.
    pub fn new(offset: u16, bytes: Vec<u8>) -> Self
        ensures { result ≡ record { offset = offset; bytes = bytes.items } }
    {
        Write {
            offset,
            bytes: HeldBytes::of_vec(bytes),
        }
    }

    /// A write of a copy of `bytes` from `offset` on; a short one allocates nothing. The only error is an allocation failure.
    pub fn of_slice(alloc: Global, offset: u16, bytes: &[u8]) -> Result<Self, AllocError>
        ensures { IfOk result (λ w. w ≡ record { offset = offset; bytes = bytes.now }) }
    {
        Ok(Write {
            offset,
            bytes: HeldBytes::of_slice(alloc, bytes)?,
        })
    }

    /// The offset in the page of the first byte.
    pub fn offset(&self) -> u16
        ensures { result ≡ self.now.offset }
    {
        self.offset
    }

    /// The bytes to write, at least one in a record of valid shape.
    pub fn bytes(&self) -> &[u8]
        ensures { result.now ≡ self.now.bytes }
    {
        self.bytes.as_slice()
    }

    /// Whether a copy of it allocates nothing.
    pub(crate) fn is_short(&self) -> bool {
        self.bytes.is_short()
    }

    /// An equal write with memory of its own. The only error is an allocation failure.
    pub fn copy(&self) -> Result<Self, AllocError>
        ensures { IfOk result (λ w. w ≡ self.now) }
    {
        self.clone()
    }

    /// Whether the other write has the same offset and the same bytes.
    pub fn is_same(&self, other: &Write) -> bool
        ensures { IsTrue result ↔ (self.now ≡ other.now) }
    {
        self.offset == other.offset && self.bytes.is_same(&other.bytes)
    }
}

impl Clone for Write {
    ghost is_clone = { λ w copied. copied ≡ w };

    fn clone(&self) -> Result<Self, AllocError> {
        Ok(Write {
            offset: self.offset,
            bytes: self.bytes.copy()?,
        })
    }
}
