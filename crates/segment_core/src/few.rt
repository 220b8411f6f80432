ghost use Rattle.std.specs.Prelude.{◌≤◌, ◌*◌, ◌↔◌, length, IsTrue};

use crate::segment::Segment;

/// Whether `count` records are few of those that a segment stores, at most one of eight: it is then cheaper to look each of them up than
/// to scan all.
pub fn prefers_lookup(count: usize, segment: &Segment) -> bool
    ensures { IsTrue result ↔ (8 * count ≤ length segment.now.held) }
{
    count <= segment.held_len() / 8
}
