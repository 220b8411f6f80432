// The first byte of each form, and the kinds of patches and pieces. A further form takes a tag of its own here; every other byte is an
// unknown tag.

/// A record of writes alone.
pub(crate) const RECORD: u8 = 0x01;

/// A record with flags, and with the kind of each patch.
pub(crate) const FULL_RECORD: u8 = 0x06;

pub(crate) const CUT: u8 = 0x02;

/// An advance of reader 1.
pub(crate) const ADVANCE: u8 = 0x03;

/// An advance of another reader.
pub(crate) const READER_ADVANCE: u8 = 0x05;

/// A summary for a roster of one reader.
pub(crate) const SUMMARY: u8 = 0x10;

/// A summary for a roster of several readers.
pub(crate) const ROSTER_SUMMARY: u8 = 0x20;

/// A delta for a roster of one reader.
pub(crate) const DELTA: u8 = 0x11;

/// A delta for a roster of several readers.
pub(crate) const ROSTER_DELTA: u8 = 0x21;

/// A piece of a snapshot, but for the head for a roster of several readers.
pub(crate) const PIECE: u8 = 0x12;

/// The head of a snapshot for a roster of several readers.
pub(crate) const ROSTER_PIECE: u8 = 0x22;

/// A patch that is a write.
pub(crate) const BYTES_KIND: u8 = 0x00;

/// A patch that is a fill.
pub(crate) const FILL_KIND: u8 = 0x01;

/// A piece that is the head.
pub(crate) const HEAD_KIND: u8 = 0x00;

/// A piece that is a page.
pub(crate) const PAGE_KIND: u8 = 0x01;

/// A piece of records.
pub(crate) const RECORDS_KIND: u8 = 0x02;
