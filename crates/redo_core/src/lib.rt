//! Facts of a redo log (records, truncations, advances of readers' points), pages, and the definitions of what a set
//! of facts means.
//!
//! Every value of a fact's type has a valid shape, and the contracts of its getters say so. `apply` is what a record does to a page.
//! `specs/` has the definitions that the contracts of all crates above use, one concept a file.
#![tactic(auto)]

mod advances;
mod contents;
mod cuts;
mod facts;
mod fixed;
mod held_bytes;
mod kept_bodies;
mod keys;
mod laws;
mod pages;
mod patches;
mod read_points;
mod records;
mod refusal;
mod rosters;
mod shapes;
mod shared_page;
mod writes;

pub use advances::Advance;
pub use cuts::Cut;
pub use facts::Fact;
pub use keys::Key;
pub use laws::{Law, LawFault};
pub use pages::{Page, apply};
pub use patches::{Body, Patch};
pub use read_points::ReadPoints;
pub use records::{Record, RecordFault, RecordHead};
pub use refusal::Refused;
pub use rosters::Roster;
pub use shapes::{MAX_BYTES, MAX_NUMBER, MAX_PATCHES, MAX_READERS, PAGE_LEN, ShapeFault};
pub use shared_page::SharedPage;
pub use writes::Write;
