use crate::boxes::Boxed;
use messages::{Delta, Piece, Summary};
use redo_core::{Fact, Key, Roster};

/// A request to a replica.
#[derive(Drop)]
pub enum Request {
    /// Replace the segment by an empty one of this roster of readers.
    Open {
        roster: Roster,
    },
    /// Take a fact.
    Take {
        fact: Fact,
    },
    /// The complete epoch, the complete point and the minimum read point.
    Front,
    /// What the complete point waits for.
    Gap,
    /// What is stored, in figures.
    State,
    /// A page at a read point.
    Read {
        page: u16,
        point: u64,
    },
    /// The summary of the segment, for another replica to answer.
    Ask,
    /// What the segment has beyond the summary that another one sent.
    Answer {
        summary: Boxed<Summary>,
    },
    /// The same, where it has at most `most` bytes on the wire.
    AnswerWithin {
        summary: Boxed<Summary>,
        most: u64,
    },
    /// What another replica answered to a summary of this one.
    Absorb {
        summary: Boxed<Summary>,
        delta: Boxed<Delta>,
    },
    /// Fold a page to the anchor.
    Fold {
        page: u16,
    },
    /// Drop the records that the images have.
    Discard,
    /// Fold each page, and drop all but what the meaning keeps.
    Tidy,
    /// Keep a snapshot under this name until the next one.
    Freeze {
        name: u64,
    },
    /// The piece of the kept snapshot at an index, from 0.
    Piece {
        index: u32,
    },
    /// Replace the staging by an empty one for the snapshot of this name and `total` pieces.
    Stage {
        name: u64,
        total: u32,
    },
    /// Add a piece to the staging.
    Add {
        piece: Boxed<Piece>,
    },
    /// Replace the segment by the one that the staging's pieces make.
    Finish,
    /// Join the segment that the staging's pieces make into the segment.
    Unite,
    /// The stored record with the least key above this one, or above none.
    Next {
        after: Option<Key>,
    },
}
