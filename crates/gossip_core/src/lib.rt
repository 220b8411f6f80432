//! Gossip: a segment summarizes what it has, another one answers with what that lacks, and the first takes it in.
//!
//! `summary` returns a segment's meaning without its pages, its kept records by their keys alone. `reply` makes the delta that fills what
//! a summary lacks, old summaries and those of other nodes too: where the summary's anchor reaches the replier's base point, just the
//! records above the lower of the two anchors; else the pages at the replier's anchor, with the records that its meaning keeps;
//! `reply_size` returns how many bytes it has without making it. `absorb` merges a delta into a segment that answers for the summary it
//! was made for; `uncovered` reports what of a summary a segment does not answer for. All hold for arbitrary facts as their definitions
//! say, and inside every sound log for the parts of it. `laws` proves that a segment has one meaning, for arbitrary facts.
#![tactic(auto)]

mod absorbing;
mod answering;
mod fixed;
pub mod laws;
mod replies;
mod sizes;
mod summaries;
mod unlisted;

pub use absorbing::{AbsorbRefusal, absorb};
pub use answering::{Shown, uncovered};
pub use replies::reply;
pub use segment_core::{book_of, stored_page_after};
pub use sizes::reply_size;
pub use summaries::summary;
