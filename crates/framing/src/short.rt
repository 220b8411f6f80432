//! Short answers.

use arrayvec::ArrayVec;

/// The bytes of a short answer, which take no memory.
pub type Short = ArrayVec<u8, 256>;
