//! Laws of frames.

ghost use Rattle.framing.specs.FrameLaws.{OneReading};

/// Bytes determine their whole frames and the rest after them, so a reader of the output finds the answers that were written.
pub fn one_reading()
    ensures { OneReading }
{}
