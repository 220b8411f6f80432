//! Lines from a reader, each answered by one line on a writer before the next line is carried out, by any machine that answers lines.
//!
//! `serve` reads to the end of its input (`specs/LinesServed`). A line above a limit is answered `long line`, and its bytes are not kept;
//! one for which there is no room is answered `memory` and does not reach the machine. Bytes after the last LF are not answered. An error
//! names the device that failed.

mod answer;
mod machine;
mod pending;
mod serving;

pub use answer::Answer;
pub use machine::LineMachine;
pub use serving::serve;
