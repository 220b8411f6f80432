//! The guard of a storage node: a replica with the generation, the birth, the accepted truncation and the membership of its node, as
//! values.
//!
//! Several engines may believe that they write a volume. Each one has a generation, and a node answers one of them alone: the one whose
//! generation it has last been fenced to. `Guard::step` carries out one request and gives one reply. What each reply means, and what the
//! request leaves, is `IsGuardReply` (`specs/Guarding`), by cases on the request: one definition for each, with every reply that it may
//! get and exactly where it gets it. What a guard never takes back, whatever it is asked, is in `laws`.
#![tactic(auto)]

mod guards;
pub mod laws;
mod replies;
mod requests;

pub use guards::Guard;
pub use replies::Reply;
pub use requests::{AcceptedCut, Admission, Request};
