//! Segments of one log, joined and compared by what they mean, whatever each has folded and dropped.
//!
//! `join` merges what one segment means into another: the one takes the facts that the other exports, inserts what else the other stores
//! and neither has folded, and takes its newer images; where any of that is refused, it is rolled back. Inside one sound log it means
//! the union, and for arbitrary facts it is refused as the first exported fact would be. `covers` returns whether one meaning is at or
//! above another, part by part and for arbitrary facts; inside one sound log that is so exactly where the one segment means a part of the
//! log that contains a part of the other's meaning. `same` returns whether the two meanings are one: each covers the other, and the pages
//! at their anchors are the same. `laws` has the theorems on merging. `joining` and `holding` have the join, `missing` what it brings in,
//! and `covering` and `sameness` the comparisons; `segment_core` defines what a segment exports, and how exported facts are taken.
#![tactic(auto)]

mod covering;
mod holding;
mod joining;
pub mod laws;
mod missing;
mod sameness;

pub use covering::covers;
pub use joining::join;
pub use sameness::same;
