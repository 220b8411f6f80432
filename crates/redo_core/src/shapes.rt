use std::fmt;
use thiserror::Error;

/// The greatest LSN, point and `hi` of a fact: 2^48 - 1.
pub const MAX_NUMBER: u64 = 281474976710655;

/// The most readers that a roster has.
pub const MAX_READERS: u8 = 15;

/// The length of every page, in bytes.
pub const PAGE_LEN: usize = 4096;

/// The most patches that a record has.
pub const MAX_PATCHES: usize = 64;

/// The most bytes that the writes of a record bring together. Fills bring none.
pub const MAX_BYTES: usize = 8192;

/// The first fault of a record, a truncation, an advance or a roster, in the order in which faults are checked.
#[derive(Clone, Copy, Debug, PartialEq, Eq, Error)]
pub enum ShapeFault {
    NumberIsZero,
    BackNotBelow,
    BlockBackAbove,
    ManyWrites,
    EmptyWrite,
    OffPage,
    ManyBytes,
    EpochIsZero,
    LoAboveHi,
    TooLarge,
    NoSuchReader,
    RosterSize,
}

impl fmt::Display for ShapeFault {
    fn fmt<W: fmt::Write>(&self, f: &mut fmt::Formatter<W>) -> fmt::Result {
        f.write_str(match self {
            ShapeFault::NumberIsZero => "the LSN or point is 0",
            ShapeFault::BackNotBelow => "the segment backlink is not below the LSN",
            ShapeFault::BlockBackAbove => "the block backlink is above the segment backlink",
            ShapeFault::ManyWrites => "more than 64 writes",
            ShapeFault::EmptyWrite => "a write has no bytes",
            ShapeFault::OffPage => "a write ends past its page",
            ShapeFault::ManyBytes => "more than 8,192 bytes",
            ShapeFault::EpochIsZero => "a truncation of epoch 0",
            ShapeFault::LoAboveHi => "lo is above hi",
            ShapeFault::TooLarge => "a number above 2^48 - 1",
            ShapeFault::NoSuchReader => "a reader outside 1 to 15",
            ShapeFault::RosterSize => "a roster of no readers, or of more than 15",
        })
    }
}
