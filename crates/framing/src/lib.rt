//! Lines or frames from a reader, each answered by one on a writer, by any machine that answers them.
//!
//! `lines::serve` and `frames::serve` read to the end of their input and write the answers in order, each once. An answer is written and
//! flushed before the next request is carried out. What they write is the answers to the whole requests of what they have read; where the
//! writer fails it is a beginning of those. `devices` has what both share: readers and writers that remember whether a call failed, and the
//! faults of a run. `statuses` has the exit statuses of programs. `Short` has the bytes of an answer that takes no memory. `Named` gives a program its own name on the command line.
#![tactic(auto)]

pub mod devices;
pub mod frames;
mod keeping;
pub mod lines;
mod named;
mod short;
pub mod statuses;

pub use named::Named;
pub use short::Short;
