//! A drill: nodes of one log that workers in threads deliver to, fold and bring together, and the result as text.
//!
//! `drill` runs one from end to end. Each of its stages is a call too: a setup is opened, its plan is worked, the nodes are closed and
//! the receipts verified, the segments are joined, and a report is written. Where all workers were started, the receipts of each node
//! are verified; each joined segment means a part of the log.
#![tactic(auto)]

mod dealing;
mod floor;
mod joining;
mod rounds;
mod running;
mod settling;
mod telling;
mod working;

pub use floor::{DrillSetup, open_floor};
pub use joining::{Joined, join_all};
pub use rounds::make_plan;
pub use running::{MAX_NODES, MAX_WORKERS, Open, Size, drill};
pub use settling::close_all;
pub use telling::tell;
pub use working::{DrillResult, work};
