//! One segment with its cache as a machine of requests and replies, as values: no reader, no writer and no thread.
//!
//! `Replica::step` carries out one request and gives one reply. What each reply means, and what the request leaves of the segment, of
//! the snapshot that is exported and of the staging that is filled, is `IsReply` (`specs/Machine`), by cases on the request, for
//! arbitrary facts: each case is the contract of the call below that carries it out, and each refusal has a reply of its own, returned
//! exactly where that call is refused so. A refused request, and one that lacks memory, changes nothing; a read then may still change
//! which images the cache keeps.
#![tactic(auto)]

mod at_segment;
mod boxes;
mod gossiping;
mod hydrating;
pub mod laws;
mod machine;
mod replies;
mod replying;
mod requests;

pub use boxes::Boxed;
pub use machine::Replica;
pub use replies::{Reply, Status};
pub use requests::Request;
