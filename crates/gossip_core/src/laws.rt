//! The meaning that the clauses for arbitrary facts refer to exists.
//!
//! `every_segment_has_one_meaning`: whatever facts reached a segment, it has exactly one meaning by itself. So what `summary`, and
//! comparisons of segments, promise of the meanings that segments have is promised of each segment.
ghost use Rattle.gossip_core.specs.Laws.{EverySegmentHasOneMeaning};

/// A segment has one meaning by itself, for arbitrary facts.
pub fn every_segment_has_one_meaning()
    ensures { EverySegmentHasOneMeaning }
{}
