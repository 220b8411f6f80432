// How long the lists of the formats may be, by the bits of their count fields.

/// A list whose count has 16 bits is shorter than this.
pub(crate) const COUNT16_END: usize = 65536;

/// A list whose count has 32 bits is shorter than this.
pub(crate) const COUNT32_END: usize = 4294967296;
