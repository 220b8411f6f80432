//! Segments call by call: a line names a call of a segment, of two segments or of one with a cache, with its numbers.
//!
//! `fresh N` starts with a new segment of N readers; `swap` exchanges it for the other one.

mod bench;
mod cache_calls;
mod changes;
mod pairs;
mod questions;

pub use crate::segment_calls::bench::{Fixture, answer, new_bench};
