//! What the contracts determine, so that no other body meets them. Each function states its law; no code calls it.

ghost use Rattle.std.specs.Prelude.{◌≡◌, IfOk};

use crate::freezing::{FreezeFault, freeze};
use crate::snapshot::Snapshot;
use segment_core::Segment;

fn a_segment_has_one_snapshot(
    segment: &Segment,
    name: u64,
) -> Result<(Snapshot, Snapshot), FreezeFault>
    ensures { IfOk result (λ both. both.0 ≡ both.1) }
{
    let one = freeze(segment, name)?;
    let other = freeze(segment, name)?;
    Ok((one, other))
}
