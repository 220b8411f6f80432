//! One segment: it keeps the facts that reached it and answers as that set of facts, including the records that it has dropped.
//!
//! For every sound log, and every part of it that a segment means: `take` on Ok makes it mean the part with the fact, returns
//! `Changed` exactly where the meaning changed, and is refused only if memory runs out; `front`, `anchor`, `gap` and `read` answer
//! for the part, whatever order its facts came in. A fold (`plan_fold`, `FoldPlan::fold`, `commit_fold`) raises a page's image to
//! the anchor, a `discard` drops the records that images have, a `tidy` leaves just the kept ones: all keep what the segment
//! means. For arbitrary facts a take reports what it stored, and each refusal but lack of memory, a broken block chain and a gap are
//! returned exactly where their definitions hold. A `MergeTransaction` takes facts, inserts records and merges images, and rolls the
//! segment back where it is dropped before its end: so a segment merges all that another exports or nothing, and copies no stored record.
#![tactic(auto)]

mod answers;
mod at_anchor;
mod books;
mod comparing;
mod cutting;
mod exported_pages;
mod few;
mod fixed;
mod fold_plan;
mod gaps;
mod images;
mod importing;
mod kept;
mod known;
pub mod laws;
mod merge_transaction;
mod pending;
mod points;
mod putting;
mod restoring;
mod savepoint;
mod segment;
mod shedding;
mod stored;
mod walk;

pub use answers::{Front, Gap, ReadFault, Refusal, Taken};
pub use books::{book_of, book_ref};
pub use epoch_book::{Held, Standing};
pub use exported_pages::{count_at_anchor, pages_at_anchor, stored_page_after};
pub use few::prefers_lookup;
pub use fold_plan::{CommitFault, FoldPlan, Folded};
pub use importing::import_facts;
pub use kept::kept_of;
pub use merge_transaction::MergeTransaction;
pub use page_base::BaseImage;
pub use savepoint::Savepoint;
pub use segment::Segment;
