//! The writer of a log that others keep. It numbers nothing by itself: the caller picks each record's number, and the writer gives the
//! record its epoch and its backlinks, in memory that does not grow with the log.
//!
//! A writer *continues* a log where the log is sound and what the writer keeps is what the log says. For every log that a writer
//! continues, a call that succeeds returns a fact with which the log stays sound, and the writer continues the longer log.
#![tactic(auto)]

mod parts;
mod tail;
mod writer;

pub use parts::{AliveRecord, WriterParts};
pub use writer::RedoWriter;
