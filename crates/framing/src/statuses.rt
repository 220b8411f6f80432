//! The exit statuses that programs over lines and frames have in common.

/// A bad command line.
pub const BAD: u8 = 2;

/// The output of the help failed.
pub const DEVICE: u8 = 4;

/// Memory ran out.
pub const MEMORY: u8 = 5;
