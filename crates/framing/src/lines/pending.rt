//! The line that has not ended yet.

ghost use Rattle.std.specs.Prelude.{◌≡◌, ◌++◌, ℕ, List, []};
ghost use Rattle.framing.specs.AnswerText.{text_of};
ghost use Rattle.framing.specs.Lines.{AnswersLine};
ghost use Rattle.framing.specs.LineKeeping.{HoldsLine, line_limit};

use crate::keeping::Keeping;
use crate::lines::answer::Answer;
use crate::lines::machine::LineMachine;
use std::alloc::Global;

/// The beginning of a line, up to a limit.
#[derive(Drop)]
pub struct Pending {
    bytes: Vec<u8>,
    keeping: Keeping,
    limit: usize,
}

impl Pending {
    /// A line of which nothing has arrived.
    pub fn new(alloc: Global, limit: usize) -> Self
        ensures holds { HoldsLine result [] }
        ensures limit { line_limit result ≡ limit }
    {
        Pending {
            bytes: Vec::new(alloc),
            keeping: Keeping::Whole,
            limit,
        }
    }

    /// Adds bytes of the line that have arrived.
    pub fn add(&mut self, part: &[u8])
        ensures holds { (begun : List ℕ) → HoldsLine self.old begun → HoldsLine self.new (begun ++ part.now) }
        ensures limit { line_limit self.new ≡ line_limit self.old }
    {
        if self.keeping != Keeping::Whole {
            return;
        }
        if part.len() > self.limit.saturating_sub(self.bytes.len()) {
            self.let_go(Keeping::Long);
        } else if self.bytes.extend_from_slice(part).is_err() {
            self.let_go(Keeping::Lost);
        }
    }

    fn let_go(&mut self, keeping: Keeping)
        ensures keeping { self.new.keeping ≡ keeping }
        ensures bytes { self.new.bytes.items ≡ [] }
        ensures limit { self.new.limit ≡ self.old.limit }
    {
        self.bytes.clear();
        self.keeping = keeping;
    }

    /// Answers the line, which has ended: by the machine, unless it is too long or lost. Then the next line begins.
    pub fn answer<M: LineMachine>(&mut self, machine: &mut M) -> Answer
        ensures answers { (line : List ℕ) → HoldsLine self.old line →
            AnswersLine M.answers (line_limit self.old) machine.old line (text_of result) machine.new }
        ensures holds { HoldsLine self.new [] }
        ensures limit { line_limit self.new ≡ line_limit self.old }
    {
        let answer = match self.keeping {
            Keeping::Whole => machine.answer(&self.bytes),
            Keeping::Long => Answer::Fixed("long line\n"),
            Keeping::Lost => Answer::Fixed("memory\n"),
        };
        self.let_go(Keeping::Whole);
        answer
    }
}
