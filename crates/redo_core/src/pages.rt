ghost use Rattle.std.specs.Prelude.{◌≡◌, ◌≤◌, ◌+◌, ◌↔◌, false, length, IsTrue, IfOk};
ghost use Rattle.std.specs.List.{list_any};
ghost use Rattle.redo_core.specs.Body.{patches_of};
ghost use Rattle.redo_core.specs.Data.{plain};
ghost use Rattle.redo_core.specs.Shape.{is_off_page, is_patch_off_page, page_len};
ghost use Rattle.redo_core.specs.Writing.{write, with_bytes, with_patch, with_patches, zeros};

use crate::patches::{Body, Patch};
use crate::records::Record;
use crate::shapes::PAGE_LEN;
use crate::writes::Write;
use std::alloc::{AllocError, Global};
use std::marker::Model;

/// A page of 4,096 bytes.
#[derive(Drop)]
pub struct Page {
    bytes: Vec<u8>,
}

impl Model for Page {
    ghost use Rattle.std.specs.Prelude.{◌≡◌, List, ℕ, length};
    ghost use Rattle.redo_core.specs.Shape.{page_len};

    ghost Value = { List ℕ };

    ghost view = { λ p. p.bytes.items };

    ghost invariant = { λ p. length p.bytes.items ≡ page_len };
}

impl Page {
    /// A page of zeros. The only error is an allocation failure.
    #[tactic(auto, unfolding(crate::specs::Writing::zeros))]
    pub fn zeros(alloc: Global) -> Result<Self, AllocError>
        ensures { IfOk result (λ p. p ≡ zeros) }
    {
        let bytes = vec![in alloc; 0; PAGE_LEN]?;
        Ok(Page { bytes })
    }

    /// A page of zeros with a record applied to it: for a record with `init`, the page after it, whatever the page was. The only error is
    /// an allocation failure.
    pub fn made_by(alloc: Global, redo: &Record) -> Result<Self, AllocError>
        ensures { IfOk result (λ p. p ≡ write zeros redo.now) }
    {
        let mut page = Page::zeros(alloc)?;
        put_body(&mut page.bytes, redo.body());
        Ok(page)
    }

    /// The page of these bytes.
    pub fn new(bytes: Vec<u8>) -> Self
        requires { length bytes.items ≡ page_len }
        ensures { result ≡ bytes.items }
    {
        Page { bytes }
    }

    /// All 4,096 bytes.
    pub fn bytes(&self) -> &[u8]
        ensures bytes { result.now ≡ self.now }
        ensures len { length self.now ≡ page_len }
    {
        &self.bytes
    }

    /// An equal page with memory of its own. The only error is an allocation failure.
    pub fn copy(&self) -> Result<Self, AllocError>
        ensures { IfOk result (λ p. p ≡ self.now) }
    {
        self.clone()
    }

    /// Whether no byte of the page differs from zero.
    pub fn is_zero(&self) -> bool
        ensures { IsTrue result ↔ (self.now ≡ zeros) }
    {
        is_zero_to_end(&self.bytes)
    }
}

impl Clone for Page {
    ghost is_clone = { λ p copied. copied ≡ p };

    fn clone(&self) -> Result<Self, AllocError> {
        Ok(Page {
            bytes: self.bytes.clone()?,
        })
    }
}

#[tactic(auto, unfolding(crate::specs::Writing::zeros))]
fn is_zero_to_end(bytes: &[u8]) -> bool
    requires { length bytes.now ≡ page_len }
    ensures { IsTrue result ↔ (bytes.now ≡ zeros) }
{
    for b in bytes {
        if *b != 0 {
            return false;
        }
    }
    true
}

/// Applies a record to a page, patch by patch in listed order: how a segment folds its log into pages.
pub fn apply(redo: &Record, page: &mut Page)
    ensures { page.new ≡ write page.old redo.now }
{
    if redo.init() {
        clear(&mut page.bytes);
    }
    put_body(&mut page.bytes, redo.body());
}

fn put_body(page: &mut [u8], body: Body<'_>)
    requires page { length page.old ≡ page_len }
    requires inside { list_any is_patch_off_page (patches_of body) ≡ false }
    ensures { page.new ≡ with_patches page.old (patches_of body.entry) }
{
    match body {
        Body::Writes(writes) => put_all(page, writes),
        Body::Patches(patches) => patch_all(page, patches),
    }
}

#[tactic(auto, unfolding(crate::specs::Writing::zeros))]
fn clear(page: &mut [u8])
    requires { length page.old ≡ page_len }
    ensures { page.new ≡ zeros }
{
    for i in 0..PAGE_LEN {
        page[i] = 0;
    }
}

fn patch_all(page: &mut [u8], patches: &[Patch])
    requires page { length page.old ≡ page_len }
    requires inside { list_any is_patch_off_page patches.now ≡ false }
    ensures { page.new ≡ with_patches page.old patches.now }
{
    for p in patches {
        put_patch(page, p);
    }
}

fn put_patch(page: &mut [u8], p: &Patch)
    requires page { length page.old ≡ page_len }
    requires inside { is_patch_off_page p.now ≡ false }
    ensures { page.new ≡ with_patch page.old p.now }
{
    match p {
        Patch::Bytes(w) => put(page, w),
        Patch::Fill { offset, len, byte } => {
            let start = *offset as usize;
            page[start..start + *len as usize].fill(*byte);
        }
    }
}

fn put_all(page: &mut [u8], writes: &[Write])
    requires page { length page.old ≡ page_len }
    requires inside { list_any is_off_page writes.now ≡ false }
    ensures { page.new ≡ with_patches page.old (plain writes.now) }
{
    for w in writes {
        put(page, w);
    }
}

fn put(page: &mut [u8], w: &Write)
    requires page { length page.old ≡ page_len }
    requires inside { w.now.offset + length w.now.bytes ≤ page_len }
    ensures { page.new ≡ with_bytes page.old w.now.offset w.now.bytes }
{
    let start = w.offset() as usize;
    let bytes = w.bytes();
    page[start..start + bytes.len()].copy_from_slice(bytes);
}
