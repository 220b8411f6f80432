//! One segment with a cache of the page images that were last read: it answers as the segment does, whatever the cache kept.
//!
//! A read keeps a copy of its image where memory allows, one a page and at most as many as the cache was made for, and the next read of
//! that page at that point is answered from it. Each image kept is, at all times and for arbitrary facts, the page that the segment shows
//! at its point, and the point is not above the complete point. Images are dropped where a change could make them wrong: all of them with
//! a truncation, with an absorbed delta, with a join, or with the segment borrowed to be changed. Each read checks which points may be
//! read, so no image is served below the minimum read point.
#![tactic(auto)]

mod cached;
mod images;
mod kept;

pub use cached::CachedSegment;
pub use kept::KeptImage;
