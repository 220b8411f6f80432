//! The forms of steps that a script asks of a fleet, for any type that names the facts that nodes take.
//!
//! Each form is defined once: scripts, which name facts by their index, and fleets, which get the facts, have the same steps.
#![tactic(auto)]

mod steps;

pub use steps::Step;
