//! Test cases of messages. Facts, segments and messages are numbered from 1 as they are made; a message is the bytes of a summary, a
//! delta or a piece. So bytes from outside, and facts of no sound log, reach the calls that no script of the program `fleet` reaches.
//!
//! A call that runs out of memory is made once more, so whichever one allocation is refused here, the program writes what it writes
//! with ample memory, or ends by an error. A call that has changed something answers with no allocation.

mod bench;
mod exchanges;
mod fleets;
mod pieces;
mod segments;

use crate::answer::Answer;
use crate::message_calls::bench::call;
pub use crate::message_calls::bench::{Fixture, new_bench};
use case_io::Row;
use std::alloc::AllocError;

/// The answer of a call. Bytes for which memory ran out are unknown too.
pub fn answer(bench: &mut Fixture, row: &Row) -> Result<Answer, AllocError> {
    match call(bench, row) {
        Ok(Answer::Unknown) | Err(AllocError) => call(bench, row),
        answered => answered,
    }
}
