ghost use Rattle.std.specs.Prelude.{◌≡◌, ℕ, ◌↔◌, map, IsTrue, IfOk};
ghost use Rattle.std.specs.List.{Contains};
ghost use Rattle.redo_core.specs.Data.{RecordData};
ghost use Rattle.redo_core.specs.Order.{IsRising, Lists, RecordBefore};
ghost use Rattle.segment_theorems.specs.HasMeaning.{HasAnchor, IsKeptBy};

use redo_core::Record;
use segment_core::Segment;
use std::alloc::AllocError;

/// Those of a segment's stored records that its meaning keeps, of a list that rises by key. It fails only if memory runs out.
pub(crate) fn kept_among<'a>(
    segment: &Segment,
    records: &[&'a Record],
) -> Result<Vec<&'a Record>, AllocError>
    requires rising { IsRising RecordBefore (map (λ x. x.now) records.now) }
    requires held { (r : RecordData) → Contains (map (λ x. x.now) records.now) r → Contains segment.now.held r }
    ensures { (anchor : ℕ) → HasAnchor segment.now anchor → IfOk result (λ v. Lists RecordBefore (λ r. Contains (map (λ x. x.now) records.now) r × IsKeptBy segment.now anchor r) (map (λ x. x.now) v.items)) }
{
    let anchor = segment.anchor();
    let mut kept = Vec::new(segment.allocator());
    for redo in records {
        if keeps(segment, anchor, redo) {
            kept.push(*redo)?;
        }
    }
    Ok(kept)
}

/// Whether a stored record waits, or is alive above a point.
pub(crate) fn keeps(segment: &Segment, point: u64, redo: &Record) -> bool
    ensures { Contains segment.now.held redo.now → IsTrue result ↔ IsKeptBy segment.now point redo.now }
{
    segment.keeps(redo.key(), point)
}
