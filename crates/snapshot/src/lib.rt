//! Snapshots: a new segment put together from the pieces of an old one, in whatever order they come.
//!
//! `freeze` makes a `Snapshot` of a segment, which is exported in pieces: the head with its book and anchor, a piece for each nonzero
//! page at the anchor, and the records that its meaning keeps, 64 a piece. A `Staging` takes pieces of one name and total, each once.
//! `Staging::finish` puts the segment together, or reports the least piece that is missing, or else the least one that cannot follow
//! those before it. Inside every sound log, what is put together from a segment's pieces means what that segment means.
#![tactic(auto)]

mod finishing;
mod fixed;
mod freezing;
mod placing;
mod snapshot;
mod staging;

pub use finishing::FinishFault;
pub use freezing::{FreezeFault, freeze};
pub use snapshot::Snapshot;
pub use staging::{AddFault, Staging};
