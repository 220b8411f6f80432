//! The values of messages: the summary that a segment sends of itself, the delta that answers it, and the pieces of a snapshot.
//!
//! Each value satisfies its invariant from its construction on: `new` requires it, each getter ensures it, and `specs/` defines it,
//! a file for each kind. A value has no encoding here.
#![tactic(auto)]

mod books;
mod deltas;
mod fixed;
mod images;
mod pieces;
mod summaries;

pub use books::{Book, BookRef};
pub use deltas::Delta;
pub use images::PageImage;
pub use pieces::{MAX_BATCH, Piece, PieceContent, RecordBatch};
pub use summaries::Summary;
