//! What answers frames.

use crate::frames::answer::FrameAnswer;

/// A machine that answers frames, one after another.
pub trait FrameMachine {
    ghost use Rattle.std.specs.Prelude.{ℕ, List, ◌<◌, ◌^◌, length};
    ghost use Rattle.framing.specs.AnswerBytes.{bytes_of};

    /// From a first state to another one, the frame's bytes may be answered by the bytes.
    ghost answers: { Self → List ℕ → List ℕ → Self → Type 0 };

    /// Answers the bytes of a frame, with bytes that have room in one.
    fn answer(&mut self, frame: &[u8]) -> FrameAnswer
        ensures answers { answers self.old frame.now (bytes_of result) self.new }
        ensures short { length (bytes_of result) < 2 ^ 32 };
}
