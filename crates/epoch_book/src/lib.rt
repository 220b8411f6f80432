//! The truncations and the advances that a segment knows.
//!
//! A book learns one fact at a time, in any order. It returns the complete epoch, each reader's point and the least of them, and the
//! standing of a record of an epoch and LSN. An advance of an unknown epoch waits until the truncations up to it are known.
//! A book refuses a fact that contradicts a stored one, for arbitrary facts; it never refuses a fact of a sound log.
#![tactic(auto)]

mod advances;
mod book;
mod cuts;
mod fixed;
mod known;
mod laws;
mod lows;
mod parts;
mod points;
mod refusals;
mod standing;
mod wait_list;

pub use book::EpochBook;
pub use laws::sound_facts_are_learnt;
pub use parts::is_contradicted;
pub use refusals::{BookRefusal, Held, Learnt};
pub use standing::Standing;
