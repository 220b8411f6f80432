ghost use Rattle.std.specs.Prelude.{◌≡◌, ◌≤◌, false, length};
ghost use Rattle.std.specs.List.{list_any, sum_by};
ghost use Rattle.redo_core.specs.Data.{plain};
ghost use Rattle.redo_core.specs.Shape.{patches_fault, is_empty, is_off_page, is_empty_patch, is_patch_off_page, bytes_in, max_patches};

use crate::patches::Patch;
use crate::shapes::{MAX_BYTES, MAX_PATCHES, PAGE_LEN, ShapeFault};
use crate::writes::Write;

/// The first fault of a record's writes.
#[tactic(auto, using(crate::proofs::Plain::plain_length, crate::proofs::Plain::plain_empty, crate::proofs::Plain::plain_off_page, crate::proofs::Plain::plain_bytes))]
pub(crate) fn writes_fault(writes: &[Write]) -> Option<ShapeFault>
    ensures { result ≡ patches_fault (plain writes.now) }
{
    if writes.len() > MAX_PATCHES {
        return Some(ShapeFault::ManyWrites);
    }
    if has_empty(writes) {
        return Some(ShapeFault::EmptyWrite);
    }
    if has_off_page(writes) {
        return Some(ShapeFault::OffPage);
    }
    if bytes_of(writes) > MAX_BYTES {
        return Some(ShapeFault::ManyBytes);
    }
    None
}

fn has_empty(writes: &[Write]) -> bool
    ensures { result ≡ list_any is_empty writes.now }
{
    writes.iter().any(|w| w.bytes().len() == 0)
}

fn has_off_page(writes: &[Write]) -> bool
    ensures { result ≡ list_any is_off_page writes.now }
{
    writes.iter().any(|w| w.bytes().len() > PAGE_LEN
        || w.offset() as usize + w.bytes().len() > PAGE_LEN)
}

fn bytes_of(writes: &[Write]) -> usize
    requires few { length writes.now ≤ max_patches }
    requires inside { list_any is_off_page writes.now ≡ false }
    ensures { result ≡ sum_by (λ w. length w.bytes) writes.now }
{
    let mut total = 0;
    for w in writes {
        total += w.bytes().len();
    }
    total
}

/// The first fault of a record's patches.
pub(crate) fn patches_fault(patches: &[Patch]) -> Option<ShapeFault>
    ensures { result ≡ patches_fault patches.now }
{
    if patches.len() > MAX_PATCHES {
        return Some(ShapeFault::ManyWrites);
    }
    if has_empty_patch(patches) {
        return Some(ShapeFault::EmptyWrite);
    }
    if has_patch_off_page(patches) {
        return Some(ShapeFault::OffPage);
    }
    if bytes_of_patches(patches) > MAX_BYTES {
        return Some(ShapeFault::ManyBytes);
    }
    None
}

fn has_empty_patch(patches: &[Patch]) -> bool
    ensures { result ≡ list_any is_empty_patch patches.now }
{
    patches.iter().any(|p| p.is_empty())
}

fn has_patch_off_page(patches: &[Patch]) -> bool
    ensures { result ≡ list_any is_patch_off_page patches.now }
{
    patches.iter().any(|p| p.is_off_page())
}

fn bytes_of_patches(patches: &[Patch]) -> usize
    requires few { length patches.now ≤ max_patches }
    requires inside { list_any is_patch_off_page patches.now ≡ false }
    ensures { result ≡ sum_by bytes_in patches.now }
{
    let mut total = 0;
    for p in patches {
        total += p.bytes_in();
    }
    total
}
