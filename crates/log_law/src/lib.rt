//! Sound logs. `check_log` decides the five laws of a log, in n log n time, and reports the least index that breaks one
//! together with the least law that it breaks.
//!
//! A fact breaks law 1 where an earlier fact has its key and differs, law 2 where a record's epoch has not begun or its LSN
//! is not above the epoch's `hi`, laws 3 and 4 where a segment or block backlink is not the greatest alive LSN below the
//! record's own, and law 5 where an advance's reader is not of the roster, its epoch has not begun, or a later truncation
//! that all readers are past cuts below its point.
//!
//! `breach_of` reports how a fact breaks its law: the other fact, the missing epoch, or the reader.
//!
//! `Writer` makes logs that are sound at all times: it gives each record its epoch and backlinks, and refuses what would break
//! a law.
#![tactic(auto)]

mod alive;
mod breach;
mod check;
mod counted;
mod fixed;
mod keys;
mod links;
mod lows;
mod targets;
mod writer;

pub use breach::{Breach, breach_of};
pub use check::{CheckFault, check_log};
pub use writer::{Writer, WriterFault};
