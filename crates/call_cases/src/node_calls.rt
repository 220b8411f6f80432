//! Test cases of the calls of nodes and of boards: a line names a call and its numbers, and its answer is printed.
//!
//! A call that runs out of memory is made once more, so whichever one allocation is refused here, the program writes what it writes
//! with ample memory, or ends by an error.

mod answers;
pub mod bench;
mod board;
mod endings;
mod host;
mod threads;
