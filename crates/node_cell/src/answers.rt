use gossip_core::Shown;
use segment_core::ReadFault;
use thiserror::Error;

/// Why a delivered fact is not acknowledged.
#[derive(Clone, Copy, Debug, PartialEq, Eq, Error)]
pub enum DeliverFault {
    /// The trail has as many entries as its capacity allows.
    #[error("the trail is full: it has {capacity} entries")]
    TrailFull { capacity: u64 },
    #[error("out of memory")]
    Memory,
}

/// A receipt's fact is not at the receipt's place in the trail: the entry there has another place in the log, or there is no entry.
#[derive(Clone, Copy, Debug, PartialEq, Eq, Error)]
#[error("the receipt belongs to another node")]
pub struct Stranger {
    pub found: Option<u64>,
}

/// Why mail is not absorbed.
#[derive(Clone, Copy, Debug, PartialEq, Eq, Error)]
pub enum AbsorbFault {
    /// The node does not answer for the summary that the delta was made for: so much of it is uncovered.
    #[error("the node does not cover the summary")]
    Uncovered { shown: Shown },
    #[error("out of memory")]
    Memory,
}

/// Why a page is not read after a receipt.
#[derive(Clone, Copy, Debug, PartialEq, Eq, Error)]
pub enum ReadAfterFault {
    /// The receipt is not of this node.
    #[error("the receipt belongs to another node")]
    Stranger(Stranger),
    #[error("the page cannot be read at the point")]
    Read(ReadFault),
}
