//! The wire: bytes of facts, of the summaries and deltas that nodes exchange, and of the pieces of snapshots.
//!
//! Each value has one encoding. `encode_*` appends it; `decode_*` takes the whole of its input, which a hostile peer may have
//! written, and returns the value exactly where the input is an encoding, else the first fault from front to back. `specs/`
//! has the encoding and the reading apart, and `laws` proves that they agree, that an encoding has one value, and that no
//! encoding begins another.
//!
//! Some values have two forms, distinguished by their tags: records of writes alone and the others, advances of reader 1 and of
//! the others, summaries, deltas and heads of snapshots for a roster of one reader and of several. Which form a value has follows from
//! its data.
#![tactic(auto)]

mod advances;
mod books;
mod cuts;
mod deltas;
mod facts;
mod faults;
mod fields;
mod fixed;
mod forms;
mod images;
mod keys;
pub mod laws;
mod limits;
mod lists;
mod patches;
mod pieces;
mod places;
mod record_lists;
mod records;
mod room;
mod sizes;
mod summaries;
mod tags;
mod values;

pub use deltas::{decode_delta, encode_delta};
pub use facts::{decode_fact, encode_fact};
pub use faults::{WireError, WireFault};
pub use messages::{Book, Delta, PageImage, Piece, PieceContent, RecordBatch, Summary};
pub use pieces::{decode_piece, encode_piece};
pub use sizes::delta_size;
pub use summaries::{decode_summary, encode_summary};
pub use values::{WireValue, decode_value};
