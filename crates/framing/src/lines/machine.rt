//! What answers lines.

use crate::lines::answer::Answer;

/// A machine that answers lines, one after another.
pub trait LineMachine {
    ghost use Rattle.std.specs.Prelude.{ℕ, List};
    ghost use Rattle.framing.specs.AnswerText.{text_of};

    /// From a first state to another one, the line without its LF may be answered by the text.
    ghost answers: { Self → List ℕ → List ℕ → Self → Type 0 };

    /// Answers a line; `line` is without its LF.
    fn answer(&mut self, line: &[u8]) -> Answer
        ensures { answers self.old line.now (text_of result) self.new };
}
