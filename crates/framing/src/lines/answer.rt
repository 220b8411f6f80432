//! The line that answers a line.

ghost use Rattle.std.specs.Prelude.{◌≡◌};
ghost use Rattle.framing.specs.AnswerText.{text_of};

use crate::short::Short;

/// An answer line with its LF: a fixed one or a short one, which need no memory, or one that was made.
#[derive(Drop)]
pub enum Answer {
    Fixed(&'static str),
    Short(Short),
    Made(Vec<u8>),
}

impl Answer {
    /// The bytes of the line.
    pub fn as_bytes(&self) -> &[u8]
        ensures { result.now ≡ text_of self.now }
    {
        match self {
            Answer::Fixed(text) => text.as_bytes(),
            Answer::Short(text) => text.as_slice(),
            Answer::Made(text) => text.as_slice(),
        }
    }
}
