//! Facts, logs, bytes and the reference model.
//!
//! A line that encodes a fact is stored, `clear` drops the stored facts, and `kept` and `model` query them.

mod bench;
mod bodies;
mod drills;
mod model;
mod shapes;
mod step_rows;
mod wire;
mod writing;

pub use crate::fact_calls::bench::{Fixture, answer, new_bench};
