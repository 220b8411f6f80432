//! The reference model: a slow program for what a list of facts means, without state, index or order of arrival.
//!
//! Each call takes what its definition takes and computes it by scans of the facts: the complete epoch, standings,
//! linked LSNs, the complete point, the readers' points and the least of them, the anchor and pages, the first fault of a
//! log, and meanings compared.
//! It is right for every list of facts, sound or not; only a page requires that its linked records have each LSN once, and `same`
//! that the two sets are parts of one sound log. Tests compare faster programs with it.
#![tactic(auto)]

mod chains;
mod comparing;
mod counted;
mod epochs;
mod faults;
mod fixed;
mod links;
mod pages;
mod past;
mod positions;
mod readers;
mod standings;
mod views;

pub use comparing::{covers, same};
pub use epochs::complete_epoch;
pub use faults::first_fault;
pub use links::{anchor, complete_point, is_linked};
pub use pages::page_at;
pub use positions::position;
pub use readers::{min_point, point, points};
pub use standings::{is_alive, standing};
pub use views::{ModelStanding, Position};
