//! The bytes of a write: a few are stored in the write itself, and more have memory of their own.

ghost use Rattle.std.specs.Prelude.{◌≡◌, ◌↔◌, IsTrue, IfOk, IfSome, take};

use std::alloc::{AllocError, Global};
use std::marker::Model;

/// How many bytes fit in the write itself.
const SHORT: usize = 16;

#[derive(Drop)]
enum Holder {
    // Most writes are short. The bytes after the first so many have no meaning.
    Short(u8, [u8; SHORT]),
    Long(Vec<u8>),
}

/// The bytes of one write.
#[derive(Drop)]
pub struct HeldBytes {
    holder: Holder,
}

impl Model for HeldBytes {
    ghost use Rattle.std.specs.Prelude.{List, ℕ};
    ghost use Rattle.redo_core.specs.HeldBytes.{bytes_held};

    ghost Value = { List ℕ };

    ghost view = { λ b. bytes_held b.holder };
}

impl HeldBytes {
    /// These bytes. Where they are few, they are stored in the write itself and the vector is dropped.
    pub fn of_vec(bytes: Vec<u8>) -> Self
        ensures { result ≡ bytes.items }
    {
        match short_of(&bytes) {
            Some(short) => short,
            None => HeldBytes {
                holder: Holder::Long(bytes),
            },
        }
    }

    /// A copy of these bytes; a short one allocates nothing. The only error is an allocation failure.
    pub fn of_slice(alloc: Global, bytes: &[u8]) -> Result<Self, AllocError>
        ensures { IfOk result (λ b. b ≡ bytes.now) }
    {
        match short_of(bytes) {
            Some(short) => Ok(short),
            None => Ok(HeldBytes {
                holder: Holder::Long(bytes.to_vec(alloc)?),
            }),
        }
    }

    /// The bytes, wherever they are stored.
    pub fn as_slice(&self) -> &[u8]
        ensures { result.now ≡ self.now }
    {
        match &self.holder {
            Holder::Short(len, bytes) => first(bytes, usize::from(*len)),
            Holder::Long(bytes) => bytes.as_slice(),
        }
    }

    /// Whether a copy of it allocates nothing.
    pub fn is_short(&self) -> bool {
        match &self.holder {
            Holder::Short(..) => true,
            Holder::Long(_) => false,
        }
    }

    /// Whether the other has the same bytes. Few equal bytes are mostly found by one comparison of all that is stored in place.
    pub fn is_same(&self, other: &HeldBytes) -> bool
        ensures { IsTrue result ↔ (self.now ≡ other.now) }
    {
        match (&self.holder, &other.holder) {
            (Holder::Short(len, own), Holder::Short(other_len, others))
                if *len == *other_len && are_same_bytes(own, others) => { true }
            _ => are_same_bytes(self.as_slice(), other.as_slice()),
        }
    }

    /// Equal bytes. The only error is an allocation failure.
    pub fn copy(&self) -> Result<Self, AllocError>
        ensures { IfOk result (λ b. b ≡ self.now) }
    {
        match &self.holder {
            Holder::Short(len, bytes) => Ok(HeldBytes {
                holder: Holder::Short(*len, *bytes),
            }),
            Holder::Long(bytes) => Ok(HeldBytes {
                holder: Holder::Long(bytes.clone()?),
            }),
        }
    }
}

// The first bytes of a list, or all where they are fewer.
#[tactic(auto, using(std::proofs::lemmas::List::take_all))]
fn first(bytes: &[u8], len: usize) -> &[u8]
    ensures { result.now ≡ take len bytes.now }
{
    if len < bytes.len() {
        &bytes[..len]
    } else {
        bytes
    }
}

// The bytes stored in place, where they are few.
fn short_of(bytes: &[u8]) -> Option<HeldBytes>
    ensures { IfSome result (λ b. b ≡ bytes.now) }
{
    let len = bytes.len();
    if len > SHORT {
        return None;
    }
    let mut short = [0; SHORT];
    short[..len].copy_from_slice(bytes);
    Some(HeldBytes {
        holder: Holder::Short(len as u8, short),
    })
}

// Whether two byte strings are equal. It reads all bytes, so that the compiler can compare many at once.
fn are_same_bytes(left: &[u8], right: &[u8]) -> bool
    ensures { IsTrue result ↔ (left.now ≡ right.now) }
{
    if left.len() != right.len() {
        return false;
    }
    let mut same = true;
    for (i, byte) in left.iter().enumerate() {
        same &= *byte == right[i];
    }
    same
}
