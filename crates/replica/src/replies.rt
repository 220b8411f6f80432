use crate::boxes::Boxed;
use gossip_core::Shown;
use messages::{Delta, Piece, Summary};
use redo_core::{Page, Record};
use segment_core::{Front, Gap, Refusal};

/// What a replica replies to a request.
#[derive(Drop)]
pub enum Reply {
    /// The segment is a new one, of the requested roster.
    Opened,
    /// The fact changed what the segment means.
    Changed,
    /// The fact changed nothing.
    Unchanged,
    /// The fact, or one of the delta or the staged segment, does not fit what the segment knows. It does not come over a sound log.
    Refused { why: Refusal },
    Front { front: Front },
    Gap { gap: Gap },
    /// No stored record waits, and none that is alive is above the complete point.
    NoGap,
    State { status: Status },
    Page { image: Page },
    /// The read point is below the minimum read point.
    Below { min: u64 },
    /// The read point is above the complete point.
    Above { complete: u64 },
    /// The block chain of the page is broken at the record with this LSN. It does not come over a sound log.
    BrokenBlockChain { page: u16, number: u64 },
    Summary { summary: Boxed<Summary> },
    Delta { delta: Boxed<Delta> },
    /// The delta would have more bytes than the request allows.
    Large,
    /// The segment means what it meant and what the answering one meant.
    Absorbed,
    /// The segment does not answer for the summary that the delta was made for: `shown` is uncovered.
    Uncovered { shown: Shown },
    Folded,
    Discarded,
    Tidied,
    /// A snapshot of `pieces` pieces is kept.
    Frozen { pieces: u32 },
    /// The snapshot would have more than 2^32 - 1 pieces.
    TooMany,
    Piece { piece: Boxed<Piece> },
    /// No snapshot is kept.
    NoSnapshot,
    /// The index is not below the count of the snapshot's pieces.
    NoPiece,
    Staged,
    Added,
    /// The piece is of another name or total than the staging.
    Stranger,
    /// The piece of this index has come already.
    Double { index: u32 },
    /// There is no staging.
    NoStaging,
    /// The staged segment has replaced the segment, and the staging is gone.
    Restored,
    /// The segment means what it meant and what the staged one means, and the staging is gone.
    United,
    /// The piece of this index has not come.
    Missing { index: u32 },
    /// The piece of this index cannot follow those before it.
    Malformed { index: u32 },
    Next { redo: Record },
    /// No stored record has a key above the one given.
    NoNext,
    /// Memory ran out, and nothing has changed.
    Memory,
}

/// What a segment stores, in figures.
#[derive(Clone, Copy, Debug, PartialEq, Eq)]
pub struct Status {
    pub epoch: u16,
    pub complete: u64,
    pub min: u64,
    pub anchor: u64,
    pub base: u64,
    /// Stored records, and those of them that the meaning keeps.
    pub held: usize,
    pub kept: usize,
    /// Stored images of pages.
    pub images: usize,
    pub truncations: usize,
    /// Advances that wait for their epoch.
    pub waiting: usize,
}
