//! How many bytes a delta has on the wire, without one being made.

ghost use Rattle.std.specs.Prelude.{◌≡◌, ◌≤◌, ◌+◌, ◌*◌, ◌^◌, ℕ, List, false, length, map};
ghost use Rattle.std.specs.List.{AllByRecursion, flat_map, list_any};
ghost use Rattle.redo_core.specs.Body.{patches_of};
ghost use Rattle.redo_core.specs.Meaning.{ImageData};
ghost use Rattle.redo_core.specs.Shape.{is_off_page, is_patch_off_page, max_patches, page_len};
ghost use Rattle.redo_core.specs.declared.patches.Patch.TheVariants.{Bytes};
ghost use Rattle.messages.specs.Deltas.{delta_of};
ghost use Rattle.messages.specs.Books.{has_many};
ghost use Rattle.redo_wire.specs.Books.{book_bytes};
ghost use Rattle.redo_wire.specs.Deltas.{delta_bytes};
ghost use Rattle.redo_wire.specs.Records.{patch_bytes, body_bytes, record_bytes};

use crate::records::is_full_record;
use messages::BookRef;
use redo_core::{Body, PAGE_LEN, Patch, Record, Write};

/// The bytes of a page with its page number.
const IMAGE_LEN: u128 = 2 + PAGE_LEN as u128;

/// How many bytes the delta of a book, so many pages and some records has, whatever its base is.
#[tactic(auto, using(crate::proofs::Lengths::delta_len))]
pub fn delta_size(book: &BookRef<'_>, pages: usize, records: &[&Record]) -> u128
    ensures { (base : ℕ) (images : List ImageData) → length images ≡ pages → AllByRecursion (λ p. length p.bytes ≡ page_len) images
        → result ≡ length (delta_bytes (delta_of book.now base images (map (λ r. r.now) records.now))) }
{
    // The tag, the base, and the counts of the two lists.
    let fixed = 1 + 6 + 4 + 4;
    fixed + book_size(book) + IMAGE_LEN * pages as u128 + records_size(records)
}

/// How many bytes a book has.
#[tactic(auto, using(crate::proofs::Lengths::book_len))]
fn book_size(book: &BookRef<'_>) -> u128
    ensures size { result ≡ length (book_bytes (has_many book.now) book.now) }
    ensures small { result ≤ 2 ^ 72 }
{
    let points = book.points().len() as u128;
    let reader = u128::from(points > 1);
    let cuts = 14 * book.cuts().len() as u128;
    let waits = (8 + reader) * book.waits().len() as u128;
    2 + cuts + reader + 6 * points + 4 + waits
}

/// How many bytes records have together.
fn records_size(records: &[&Record]) -> u128
    ensures size { result ≡ length (flat_map record_bytes (map (λ r. r.now) records.now)) }
    ensures small { result ≤ 2 ^ 84 }
{
    let mut total = 0;
    for redo in records {
        total += u128::from(record_size(redo));
    }
    total
}

/// How many bytes a record has, with its tag.
#[tactic(auto, using(crate::proofs::Lengths::record_len))]
fn record_size(redo: &Record) -> u32
    ensures size { result ≡ length (record_bytes redo.now) }
    ensures small { result ≤ 2 ^ 20 }
{
    let is_full = is_full_record(redo);
    23 + body_size(is_full, redo)
}

/// How many bytes the flags and the patches of a record have.
#[tactic(auto, using(crate::proofs::Lengths::body_len))]
fn body_size(is_full: bool, redo: &Record) -> u32
    ensures size { result ≡ length (body_bytes is_full redo.now) }
    ensures small { result ≤ 2 ^ 19 }
{
    let flags = u32::from(is_full);
    flags + 1 + patches_size(is_full, &redo.body())
}

/// How many bytes patches have together.
fn patches_size(is_full: bool, body: &Body) -> u32
    requires few { length (patches_of body.now) ≤ max_patches }
    requires inside { list_any is_patch_off_page (patches_of body.now) ≡ false }
    ensures size { result ≡ length (flat_map (patch_bytes is_full) (patches_of body.now)) }
    ensures small { result ≤ 64 * 4101 }
{
    match body {
        Body::Writes(writes) => writes_size(is_full, writes),
        Body::Patches(patches) => listed_size(is_full, patches),
    }
}

fn writes_size(is_full: bool, writes: &[Write]) -> u32
    requires few { length writes.now ≤ max_patches }
    requires inside { list_any is_off_page writes.now ≡ false }
    ensures size { result ≡ length (flat_map (λ w. patch_bytes is_full (Bytes w)) writes.now) }
    ensures small { result ≤ 64 * 4101 }
{
    let mut total = 0;
    for w in writes {
        total += write_size(is_full, w);
    }
    total
}

fn listed_size(is_full: bool, patches: &[Patch]) -> u32
    requires few { length patches.now ≤ max_patches }
    requires inside { list_any is_patch_off_page patches.now ≡ false }
    ensures size { result ≡ length (flat_map (patch_bytes is_full) patches.now) }
    ensures small { result ≤ 64 * 4101 }
{
    let mut total = 0;
    for p in patches {
        total += patch_size(is_full, p);
    }
    total
}

#[tactic(auto, using(crate::proofs::Lengths::fill_len))]
fn patch_size(is_full: bool, patch: &Patch) -> u32
    requires { is_patch_off_page patch.now ≡ false }
    ensures size { result ≡ length (patch_bytes is_full patch.now) }
    ensures small { result ≤ 4101 }
{
    match patch {
        Patch::Bytes(w) => write_size(is_full, w),
        Patch::Fill { .. } => 6,
    }
}

/// How many bytes a write has: in the full form its kind, the offset, the length and its bytes.
#[tactic(auto, using(crate::proofs::Lengths::write_len))]
fn write_size(is_full: bool, write: &Write) -> u32
    requires { write.now.offset + length write.now.bytes ≤ page_len }
    ensures size { result ≡ length (patch_bytes is_full (Bytes write.now)) }
    ensures small { result ≤ 4101 }
{
    u32::from(is_full) + 4 + write.bytes().len() as u32
}
