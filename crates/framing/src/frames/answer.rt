//! The bytes that answer a frame.

ghost use Rattle.std.specs.Prelude.{◌≡◌};
ghost use Rattle.framing.specs.AnswerBytes.{bytes_of};

use crate::short::Short;

/// The bytes of an answer frame: fixed ones or short ones, which need no memory, or bytes that were made.
#[derive(Drop)]
pub enum FrameAnswer {
    Fixed(&'static [u8]),
    Short(Short),
    Made(Vec<u8>),
}

impl FrameAnswer {
    /// The bytes, without their length.
    pub fn as_bytes(&self) -> &[u8]
        ensures { result.now ≡ bytes_of self.now }
    {
        match self {
            FrameAnswer::Fixed(bytes) => bytes,
            FrameAnswer::Short(bytes) => bytes.as_slice(),
            FrameAnswer::Made(bytes) => bytes.as_slice(),
        }
    }
}
