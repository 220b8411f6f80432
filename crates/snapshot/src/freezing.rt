ghost use Rattle.std.specs.Prelude.{◌≡◌, ℕ, ◌<◌, ◌≤◌, map, IfOk, IfErr, IfSome, IsNone};
ghost use Rattle.redo_core.specs.Order.{Lists, RecordBefore};
ghost use Rattle.segment_theorems.specs.HasMeaning.{HasAnchor, IsKeptBy};
ghost use Rattle.snapshot.specs.Snapshots.{SnapshotData as AnySnapshot, Freezes, IsPieceCount, max_total};
ghost use Rattle.snapshot.specs.declared.freezing.FreezeFault.TheVariants.{TooMany as TooManyOf, Memory as MemoryOf};

use crate::snapshot::{BATCH, Snapshot};
use redo_core::Record;
use segment_core::{Segment, book_of, kept_of, pages_at_anchor};
use std::alloc::{AllocError, Global};
use thiserror::Error;

/// Why a segment is not frozen.
#[derive(Clone, Copy, Debug, PartialEq, Eq, Error)]
pub enum FreezeFault {
    /// There would be more than 2^32 - 1 pieces.
    #[error("a snapshot has at most 2^32 - 1 pieces")]
    TooMany,
    #[error("out of memory")]
    Memory,
}

/// A snapshot of a segment under a name: its book, its anchor, the pages there that are not zeros, and the records that its meaning
/// keeps. No block chain is walked.
///
/// Errors: `TooMany` past 2^32 - 1 pieces; `Memory`.
pub fn freeze(segment: &Segment, name: u64) -> Result<Snapshot, FreezeFault>
    ensures frozen { IfOk result (Freezes segment.now) }
    ensures name { IfOk result (λ d. d.name ≡ name) }
    ensures few { IfOk result (λ d. d.total ≤ max_total) }
    ensures many { IfErr result (λ e. e ≡ TooManyOf → (d : AnySnapshot) → Freezes segment.now d → max_total < d.total) }
{
    let Ok(book) = book_of(segment) else {
        return Err(FreezeFault::Memory);
    };
    let Ok(pages) = pages_at_anchor(segment) else {
        return Err(FreezeFault::Memory);
    };
    let Ok(records) = kept_records(segment) else {
        return Err(FreezeFault::Memory);
    };
    match piece_count(pages.len(), records.len()) {
        Some(total) => Ok(Snapshot::new(name, total, book, segment.anchor(), pages, records)),
        None => Err(FreezeFault::TooMany),
    }
}

/// How many pieces a head, so many pages and so many records make, or None past 2^32 - 1.
fn piece_count(pages: usize, records: usize) -> Option<u32>
    ensures some { IfSome result (IsPieceCount pages records) }
    ensures none { IsNone result → (total : ℕ) → IsPieceCount pages records total → max_total < total }
{
    let batches = records.div_ceil(BATCH);
    let total = pages.saturating_add(batches).saturating_add(1);
    u32::try_from(total).ok()
}

/// Copies of the records that the segment's meaning keeps, rising by key.
fn kept_records(segment: &Segment) -> Result<Vec<Record>, AllocError>
    ensures { (anchor : ℕ) → HasAnchor segment.now anchor → IfOk result (λ v. Lists RecordBefore (IsKeptBy segment.now anchor) v.items) }
{
    let kept = kept_of(segment)?;
    copies_of(segment.allocator(), &kept)
}

fn copies_of(alloc: Global, records: &[&Record]) -> Result<Vec<Record>, AllocError>
    ensures { IfOk result (λ v. v.items ≡ map (λ x. x.now) records.now) }
{
    let mut copied = Vec::with_capacity(alloc, records.len())?;
    for redo in records {
        copied.push(redo.copy()?)?;
    }
    Ok(copied)
}
