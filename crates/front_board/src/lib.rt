//! A board of fronts that threads share without waiting: one atomic word for each node, which only grows.
//!
//! Each word is at every moment a front of the log that the board is of, and no seat knows of more than the words hold.
//! A seat is what one thread knows of its board: `publish` is one `fetch_max`, `front` one load, and `quorum` one load of each
//! word. None of the three waits or takes memory.
#![tactic(auto)]

mod board;
mod fixed;
mod fronts;
pub mod laws;
mod rule;
mod survey;

pub use board::{Board, Seat};
pub use fronts::LogFront;
