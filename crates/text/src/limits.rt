//! How large the numbers of fields may be.

/// An epoch, a page, an offset, or a node, also one that there is not.
pub const SHORT: u64 = 65535;

/// The index of a piece, a number of pieces, of messages, or of bytes in a message.
pub const LONG: u64 = 4294967295;

/// The bytes of a page.
pub const PAGE: u64 = 4096;
