//! Intakes: bounded queues of parcels, from several senders to one taker, each in a thread of its own.
//!
//! A parcel is a fact of a named log with its sender and its number among that sender's parcels. Each accepted parcel is
//! taken once or is left at the end, and those of one sender come in the order in which they were accepted: what was taken of
//! a sender is numbered 1, 2, 3 and so on, and at the end what was taken of it and then what is left of it are its accepted
//! offers. A refused offer hands its parcel back.
//!
//! A note carries a count from one end to the other: how many parcels of a sender were accepted, or how many were taken.
//! By it a taker that finds nothing knows that it has taken all it heard of, and an only sender that is refused knows that a
//! full queue of its parcels was not yet heard to be taken.
#![tactic(auto)]

mod ending;
mod intake;
mod notes;
mod opening;
mod parcel;
mod passes;
mod rule;

pub use intake::{Full, Intake, MAX_CAPACITY, MAX_SENDERS, Unended};
pub use notes::Note;
pub use parcel::Parcel;
pub use passes::{SenderPass, TakerPass, UsedUp};
