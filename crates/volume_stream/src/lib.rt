//! The engine's machine of a volume, spoken to in frames: an event is a frame, and its answer one frame with a frame for each action.
//!
//! `AnswersEvent` (`specs/Answering`) says what each frame is answered. The requests inside are those that a node's stream reads, and the
//! answers inside are those that it writes (`laws`).
#![tactic(auto)]

mod action_frames;
mod event_frames;
mod event_numbers;
mod heard;
pub mod laws;
mod machine;
mod program;
mod reply_frames;
mod reply_numbers;
mod request_frames;
mod segment_replies;
mod stream;
mod words;
mod writes;

pub use machine::{Engine, answer_frame};
pub use program::{LIMIT, run_program, settings_for, settings_in};
pub use reply_frames::read_reply;
pub use request_frames::request_frame;
pub use stream::serve;
