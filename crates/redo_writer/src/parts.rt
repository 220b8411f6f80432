use redo_core::ReadPoints;
use std::collections::VecDeque;

/// What a writer keeps of an alive record that a truncation may still annul.
#[derive(Clone, Copy, Debug, PartialEq, Eq)]
pub struct AliveRecord {
    pub number: u64,
    pub page: u16,
    pub block_back: u64,
}

/// What a writer keeps of its log: all that `RedoWriter::resume` needs.
#[derive(Drop)]
pub struct WriterParts {
    pub epoch: u16,
    /// The last number of the epoch, or its `hi` where it has no record yet.
    pub last: u64,
    /// Each reader's point.
    pub points: ReadPoints,
    /// The greatest alive number of each page, by page. A page past its end has none.
    pub page_tops: Vec<u64>,
    /// An alive number at or below the minimum read point, or 0.
    pub settled: u64,
    /// The alive records above `settled`, newest first.
    pub alive: VecDeque<AliveRecord>,
}
