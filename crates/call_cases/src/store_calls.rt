//! What a segment stores, call by call: a line names a call of a `HotLog`, an `EpochBook` or a `BaseStore` with its numbers.
//!
//! `fresh N` starts again from scratch, with a book of N readers.

mod bench;
mod book_calls;
mod image_calls;
mod log_answers;
mod log_changes;

pub use crate::store_calls::bench::{Fixture, answer, new_bench};
