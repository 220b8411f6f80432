//! A storage node that threads share: a segment under a lock, with the trail of the facts that it acknowledged. The segment keeps up to
//! 64 page images of what it last read.
//!
//! Whenever the lock is free, the segment means a part of the log that has every fact of the trail. A delivery takes its fact and
//! appends it in one critical section, and the pass that brought it has the receipt: each later read by the pass answers for a part
//! of the log that has the facts of all its receipts, and at the end the pass's receipts are its entries of the trail. A view holds the
//! log's own page, so any two views of one epoch, page and point are equal, whichever nodes and threads gave them. A fold is the log's
//! page at an anchor, and mail has what some part of the log has, so both fit every node of the log.
//!
//! A call that changes the node returns its answer with a `Section`: evidence of the state that it found under the lock and of the one
//! that it left. A call that is refused leaves that state as it was and hands back its argument. Each call but `open` waits for the lock;
//! nothing promises when, and no call has two locks.
#![tactic(auto)]

mod answers;
mod closed;
mod folds;
mod kept;
pub mod laws;
mod mail;
mod node;
mod receipts;
mod views;

pub use answers::{AbsorbFault, DeliverFault, ReadAfterFault, Stranger};
pub use closed::{Closed, settle};
pub use folds::{FoldPlan, Folded};
pub use kept::Kept;
pub use mail::Mail;
pub use node::{Node, Pass, Section};
pub use receipts::{Ack, Receipt};
pub use views::View;
