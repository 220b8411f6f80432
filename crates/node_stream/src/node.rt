//! A guarded replica that answers lines, and frames.

ghost use Rattle.std.specs.Prelude.{◌≡◌, IfOk};
ghost use Rattle.replica.specs.Parts.{empty_replica};
ghost use Rattle.guard.specs.Data.{fresh_guard};
ghost use Rattle.framing.specs.AnswerText.{text_of};
ghost use Rattle.node_stream.specs.Answering.{IsAnswer};

use crate::answering::answer_one;
use crate::job::Form;
use crate::many::answer_frame;
use framing::frames::{FrameAnswer, FrameMachine};
use framing::lines::{Answer, LineMachine};
use guard::Guard;
use redo_core::Roster;
use replica::Replica;
use std::alloc::{AllocError, Global};
use std::marker::Model;

/// Answers a request line, which is given without its LF, by a line: that of the reply where it encodes a request, else why it encodes
/// none, and then nothing has changed.
///
/// The line `memory` says that memory ran out. Then, and where the reply is a refusal, a read may have changed which images the cache
/// keeps, and any other request has changed nothing.
pub fn answer_line(alloc: Global, guard: &mut Guard, line: &[u8]) -> Answer
    ensures { IsAnswer guard.old line.now (text_of result) guard.new }
{
    answer_one(alloc, Form::Lines, guard, line)
}

/// A guarded replica that answers lines and frames, with answers in memory of this allocator.
#[derive(Drop)]
pub struct Node {
    alloc: Global,
    guard: Guard,
}

impl Model for Node {
    ghost use Rattle.guard.specs.Data.{GuardData};

    ghost Value = { GuardData };

    ghost view = { λ n. n.guard };
}

impl Node {
    /// The guard of a fresh node, round a replica of a roster of readers that no fact has reached. Its cache keeps at most so many images
    /// of pages, with 0 none. No earlier life of the node may have had this birth, where the node is to serve several engines.
    ///
    /// It fails only if memory runs out.
    pub fn new(alloc: Global, roster: Roster, pages: usize, birth: u64) -> Result<Self, AllocError>
        ensures { IfOk result (λ n. n ≡ fresh_guard (empty_replica roster pages) birth) }
    {
        let guard = Guard::new(Replica::new(alloc, roster, pages)?, birth);
        Ok(Node { alloc, guard })
    }

    /// What its answers are made with.
    pub fn allocator(&self) -> Global {
        self.alloc
    }
}

impl LineMachine for Node {
    ghost use Rattle.node_stream.specs.Answering.{IsAnswer};

    ghost answers = { IsAnswer };

    fn answer(&mut self, line: &[u8]) -> Answer {
        answer_line(self.alloc, &mut self.guard, line)
    }
}

impl FrameMachine for Node {
    ghost use Rattle.node_stream.specs.Answering.{IsFrameAnswer};

    ghost answers = { IsFrameAnswer };

    fn answer(&mut self, frame: &[u8]) -> FrameAnswer {
        answer_frame(self.alloc, &mut self.guard, frame)
    }
}
