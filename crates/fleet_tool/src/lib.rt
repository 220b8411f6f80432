//! Texts in, texts out, over any reader and writer; and the program `fleet` over any runtime.
//!
//! `run_text` answers a script with the replies of a fleet, `check_text` answers a log with its soundness, `inspect_text` describes
//! what each line of a capture encodes. They write the output that the definitions in `specs/` give for the whole input, for
//! every input whose bytes the reader specifies; an input has just one (`laws`). They read the whole input before they write anything;
//! an error names the device that failed, or says that memory ran out, and after `Input` and `Memory` nothing was written.
//!
//! Threads read the fact lines of a long text, and describe the lines of a long capture, in blocks of whole lines. What they make of the
//! blocks is joined in order.
//!
//! `explain_text` answers as the first two do, and returns a true reason of a bad line or of a fault.
//!
//! `drill_text` reads nothing: it runs a drill in threads, and writes the results once the whole text is complete. `job_of` parses
//! the command line, and accepts only drills of 1 to 6 nodes and 1 to 16 workers of each kind.
#![tactic(auto)]

mod answer;
mod drill_line;
mod drilling;
mod ending;
mod explaining;
mod help;
mod inspect;
mod job;
pub mod laws;
mod lines;
mod placed_steps;
mod program;
mod run;

pub use answer::Verdict;
pub use drill_line::DrillTask;
pub use drilling::drill_text;
pub use explaining::Reason;
pub use fleet_drill::Size;
pub use framing::devices::{RunFault, Watched};
pub use job::{CommandFault, LinesTask, Task, TextTask, job_of};
pub use program::run_program;
pub use run::{Explained, check_text, explain_text, inspect_text, run_text};
