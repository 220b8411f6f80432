//! The stored records that a summary does not list.
ghost use Rattle.std.specs.Prelude.{◌≡◌, map, IfOk};
ghost use Rattle.redo_core.specs.Order.{IsRising, Lists, RecordBefore};
ghost use Rattle.redo_core.specs.Keys.{KeyBefore};
ghost use Rattle.gossip_core.specs.Replying.{IsSent};

use redo_core::{Key, Record};
use segment_core::Segment;
use std::alloc::{AllocError, Global};

/// Copies of the stored records that wait, or are alive above a point, and whose keys are not listed, rising by key.
pub(crate) fn unlisted(
    segment: &Segment,
    point: u64,
    keys: &[Key],
) -> Result<Vec<Record>, AllocError>
    requires { IsRising KeyBefore keys.now }
    ensures { IfOk result (λ v. Lists RecordBefore (IsSent segment.now point keys.now) v.items) }
{
    let found = segment.kept_unlisted(point, keys)?;
    copies(segment.allocator(), &found)
}

/// Copies of some records, in their order.
fn copies(alloc: Global, records: &[&Record]) -> Result<Vec<Record>, AllocError>
    ensures { IfOk result (λ v. v.items ≡ map (λ r. r.now) records.now) }
{
    let mut copied = Vec::with_capacity(alloc, records.len())?;
    for redo in records {
        copied.push(redo.copy()?)?;
    }
    Ok(copied)
}
