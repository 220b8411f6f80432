ghost use Rattle.std.specs.Prelude.{◌≡◌, ℕ, map, IfOk};
ghost use Rattle.redo_core.specs.Order.{Lists, RecordBefore};
ghost use Rattle.segment_theorems.specs.HasMeaning.{HasAnchor, IsKeptBy};

use crate::segment::Segment;
use redo_core::Record;
use std::alloc::AllocError;

/// The records that a segment's meaning keeps, rising by key. It fails only if memory runs out.
pub fn kept_of(segment: &Segment) -> Result<Vec<&Record>, AllocError>
    ensures { (anchor : ℕ) → HasAnchor segment.now anchor → IfOk result (λ v. Lists RecordBefore (IsKeptBy segment.now anchor) (map (λ x. x.now) v.items)) }
{
    let anchor = segment.anchor();
    segment.kept_unlisted(anchor, &[])
}
