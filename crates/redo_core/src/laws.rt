ghost use Rattle.std.specs.Prelude.{◌≡◌};
ghost use Rattle.redo_core.specs.Fault.{law_number};

/// The five laws of a sound log, in the order in which they are checked.
#[derive(Clone, Copy, Debug, PartialEq, Eq)]
pub enum Law {
    /// Different facts have different keys.
    OneFactPerKey,
    /// A record's epoch has begun, and its LSN is above the epoch's `hi`.
    EpochBegun,
    /// The segment backlink is the greatest LSN below the record's own that is alive in its epoch.
    SegmentBacklink,
    /// The block backlink is the same for the records of its page.
    BlockBacklink,
    /// An advance's reader is of the roster, its epoch has begun, and no later truncation that all readers are past cuts below its point.
    AdvanceKept,
}

impl Law {
    /// The number by which the law is reported: 1 to 5.
    pub fn number(self) -> u8
        ensures { result ≡ law_number self }
    {
        match self {
            Law::OneFactPerKey => 1,
            Law::EpochBegun => 2,
            Law::SegmentBacklink => 3,
            Law::BlockBacklink => 4,
            Law::AdvanceKept => 5,
        }
    }
}

/// The least index of a log (from 1) that breaks a law, with the least law that it breaks.
#[derive(Clone, Copy, Debug, PartialEq, Eq)]
pub struct LawFault {
    pub law: Law,
    pub place: u64,
}
