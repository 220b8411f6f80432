//! One guarded replica on a stream of lines or of frames: each request is answered by one line or frame, before the next one is read.
#![tactic(auto)]

mod answering;
mod answers;
mod asked;
mod bodies;
mod ending;
mod faults;
mod fielded;
mod frame_requests;
mod gathered;
mod guard_answers;
mod guard_numbers;
mod guard_requests;
mod help;
mod job;
pub mod laws;
mod many;
mod node;
mod numbered;
mod program;
mod requests;
mod short;
mod stream;
mod telling;
mod values;
mod wide;
mod wording;

pub use asked::{Asked, GuardAsked, Window};
pub use ending::status_of;
pub use faults::{LineError, LineFault};
pub use frame_requests::{halves, read_frame};
pub use guard_requests::read_request;
pub use job::{Form, Job, job_of};
pub use many::answer_frame;
pub use node::{Node, answer_line};
pub use program::{LIMIT, PAGES, run_program};
pub use requests::read_line;
pub use stream::{serve, serve_frames};
pub use wide::{WIDE, wide_number, wide_numbers};
