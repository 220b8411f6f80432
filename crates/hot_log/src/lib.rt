//! The redo records that a segment stores, and what they link.
//!
//! A log stores at most one record of a key (epoch, LSN), in the order of the keys; it refuses another record of a stored key.
//! Given a book of truncations, it removes what an image contains and what is dead; a `BookView` borrows both, and returns which
//! LSNs are linked from a base, the alive records of a page in order of their LSNs, the successor of an LSN, and the LSN that
//! blocks the first alive record above one. Every result is exact for every set of records, also one that no sound log has.
//! Only `put`, `copy`, `records_of`, `records_since_init`, `kept_keys`, `kept_unlisted` and `missing` allocate.
//!
//! The records are stored by page and, within a page, by key (`records`), and by key alone (`key_records`); beside them are the keys by
//! segment backlink from a point on (`index`), all with a key in one word (`packed`). `view` has the queries of a view; `search` has those that
//! go from key to key, and `links` those that follow backlinks; `unlisted` has the kept records that a list of keys lacks.
//! `removal` removes records one by one. `comparing` compares what two logs keep, and `ahead` iterates over one log in step with another.
#![tactic(auto)]

mod ahead;
mod comparing;
mod fixed;
mod index;
mod key_records;
mod links;
mod log;
mod packed;
mod records;
mod removal;
mod search;
mod spans;
mod steps;
mod unlisted;
mod view;

pub use log::{HotLog, Put, PutFault};
pub use search::is_kept;
pub use steps::Steps;
pub use view::BookView;
