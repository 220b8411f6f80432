//! Frames from a reader, each answered by one frame on a writer before the next frame is read, by any machine that answers frames.
//!
//! A frame is a length in four bytes, the highest first, and that many bytes. `serve` reads to the end of its input (`specs/FramesServed`);
//! where the writer fails it has read nothing after the last answered frame. A frame above a limit is answered `long frame`, and its bytes
//! are not kept; one for which there is no room is answered `memory` and does not reach the machine. Room is reserved only for bytes that
//! have arrived. Bytes after the last whole frame are not answered. An error names the device that failed.

mod answer;
mod incoming;
mod inside;
pub mod laws;
mod machine;
mod reading;
mod serving;
mod writing;

pub use answer::FrameAnswer;
pub use inside::{count_frames, split_frame};
pub use machine::FrameMachine;
pub use serving::serve;
