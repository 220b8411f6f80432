ghost use Rattle.std.specs.Prelude.{◌≡◌, ◌↔◌, List, map, IsTrue, IfOk};
ghost use Rattle.redo_core.specs.Data.{plain};
ghost use Rattle.redo_core.specs.Body.{patches_of};
ghost use Rattle.redo_core.specs.Shape.{is_empty_patch, is_patch_off_page, bytes_in};

use crate::shapes::PAGE_LEN;
use crate::writes::Write;
use std::alloc::AllocError;

/// What a redo record does to one range of its page: a write of bytes, or one byte repeated over a length.
#[derive(Drop)]
pub enum Patch {
    Bytes(Write),
    Fill { offset: u16, len: u16, byte: u8 },
}

/// The borrowed patches of a redo record: the list of writes that it was made of, or the patches.
#[derive(Clone, Copy)]
pub enum Body<'a> {
    Writes(&'a [Write]),
    Patches(&'a [Patch]),
}

impl Patch {
    /// An equal patch with memory of its own. The only error is an allocation failure.
    pub fn copy(&self) -> Result<Self, AllocError>
        ensures { IfOk result (λ p. p ≡ self.now) }
    {
        self.clone()
    }

    /// Whether the other patch equals this one. A write of equal bytes is another patch than a fill.
    pub fn is_same(&self, other: &Patch) -> bool
        ensures { IsTrue result ↔ (self.now ≡ other.now) }
    {
        match (self, other) {
            (Patch::Bytes(one), Patch::Bytes(two)) => one.is_same(two),
            (
                Patch::Fill { offset, len, byte },
                Patch::Fill {
                    offset: at,
                    len: size,
                    byte: value,
                },
            ) => *offset == *at && *len == *size && *byte == *value,
            _ => false,
        }
    }
}

impl Patch {
    /// Whether it covers no byte of the page.
    pub fn is_empty(&self) -> bool
        ensures { result ≡ is_empty_patch self.now }
    {
        match self {
            Patch::Bytes(w) => w.bytes().len() == 0,
            Patch::Fill { len, .. } => *len == 0,
        }
    }

    /// Whether it extends past the end of its page.
    pub fn is_off_page(&self) -> bool
        ensures { result ≡ is_patch_off_page self.now }
    {
        match self {
            Patch::Bytes(w) => w.bytes().len() > PAGE_LEN
                || w.offset() as usize + w.bytes().len() > PAGE_LEN,
            Patch::Fill { offset, len, .. } => *offset as usize + *len as usize > PAGE_LEN,
        }
    }

    /// Whether a copy of it allocates nothing.
    pub(crate) fn is_short(&self) -> bool {
        match self {
            Patch::Bytes(w) => w.is_short(),
            Patch::Fill { .. } => true,
        }
    }

    /// How many bytes it brings; a fill brings none.
    pub fn bytes_in(&self) -> usize
        ensures { result ≡ bytes_in self.now }
    {
        match self {
            Patch::Bytes(w) => w.bytes().len(),
            Patch::Fill { .. } => 0,
        }
    }
}

impl<'a> Body<'a> {
    /// Whether the other body has the same patches, in the same order.
    pub fn is_same(&self, other: &Body) -> bool
        ensures { IsTrue result ↔ (patches_of self.now ≡ patches_of other.now) }
    {
        match (self, other) {
            (Body::Writes(one), Body::Writes(two)) => are_same_writes(one, two),
            (Body::Writes(one), Body::Patches(two)) => are_just(two, one),
            (Body::Patches(one), Body::Writes(two)) => are_just(one, two),
            (Body::Patches(one), Body::Patches(two)) => are_same_patches(one, two),
        }
    }
}

impl Clone for Patch {
    ghost is_clone = { λ p copied. copied ≡ p };

    fn clone(&self) -> Result<Self, AllocError> {
        match self {
            Patch::Bytes(w) => Ok(Patch::Bytes(w.clone()?)),
            Patch::Fill { offset, len, byte } => Ok(Patch::Fill {
                offset: *offset,
                len: *len,
                byte: *byte,
            }),
        }
    }
}

fn are_same_writes(left: &[Write], right: &[Write]) -> bool
    ensures { IsTrue result ↔ (left.now ≡ right.now) }
{
    if left.len() != right.len() {
        return false;
    }
    for (i, w) in left.iter().enumerate() {
        if !w.is_same(&right[i]) {
            return false;
        }
    }
    true
}

fn are_same_patches(left: &[Patch], right: &[Patch]) -> bool
    ensures { IsTrue result ↔ (left.now ≡ right.now) }
{
    if left.len() != right.len() {
        return false;
    }
    for (i, p) in left.iter().enumerate() {
        if !p.is_same(&right[i]) {
            return false;
        }
    }
    true
}

// Whether the patches are these writes and nothing else.
fn are_just(patches: &[Patch], writes: &[Write]) -> bool
    ensures { IsTrue result ↔ (patches.now ≡ plain writes.now) }
{
    if patches.len() != writes.len() {
        return false;
    }
    for (i, p) in patches.iter().enumerate() {
        match p {
            Patch::Bytes(w) if w.is_same(&writes[i]) => {}
            _ => return false,
        }
    }
    true
}
