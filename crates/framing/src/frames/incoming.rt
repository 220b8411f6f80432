//! The frame that is being read.

ghost use Rattle.std.specs.Prelude.{◌≡◌, ◌++◌, ◌+◌, ◌*◌, ◌≤◌, ◌<◌, ◌^◌, ℕ, List, [], length, max, true, false, if◌then◌else◌, vec_capacity};
ghost use Rattle.framing.specs.AnswerBytes.{bytes_of};
ghost use Rattle.framing.specs.Frames.{AnswersFrame};
ghost use Rattle.framing.specs.FrameKeeping.{HoldsFrame, frame_limit, room_of};

use crate::frames::answer::FrameAnswer;
use crate::frames::machine::FrameMachine;
use crate::keeping::Keeping;
use std::alloc::Global;

/// The part of a frame that has arrived, kept up to a limit.
#[derive(Drop)]
pub struct Incoming {
    bytes: Vec<u8>,
    keeping: Keeping,
    limit: usize,
}

impl Incoming {
    /// No frame yet.
    pub fn new(alloc: Global, limit: usize) -> Self
        ensures limit { frame_limit result ≡ limit }
        ensures room { room_of result ≡ 0 }
    {
        Incoming {
            bytes: Vec::new(alloc),
            keeping: Keeping::Whole,
            limit,
        }
    }

    /// Begins a frame of `length` bytes. No room is reserved for it.
    pub fn begin(&mut self, length: usize)
        ensures holds { HoldsFrame self.new length [] }
        ensures room { room_of self.new ≡ room_of self.old }
        ensures limit { frame_limit self.new ≡ frame_limit self.old }
    {
        self.bytes.clear();
        self.keeping = if length > self.limit {
            Keeping::Long
        } else {
            Keeping::Whole
        };
    }

    /// Reserves room for `more` bytes: twice the bytes that have arrived, if that is enough. Returns whether there was memory for it.
    fn make_room(&mut self, more: usize) -> bool
        ensures bytes { self.new.bytes.items ≡ self.old.bytes.items }
        ensures keeping { self.new.keeping ≡ self.old.keeping }
        ensures limit { frame_limit self.new ≡ frame_limit self.old }
        ensures enough { result ≡ true → length self.old.bytes.items + more ≤ room_of self.new }
        ensures room { room_of self.new ≤ max (room_of self.old) (2 * (length self.old.bytes.items + more)) }
    {
        let len = self.bytes.len();
        if more <= self.bytes.capacity() - len {
            return true;
        }
        self.bytes.reserve_exact(more.max(len)).is_ok()
    }

    /// Appends bytes for which there is room.
    fn append(&mut self, part: &[u8])
        requires { length self.old.bytes.items + length part.now ≤ room_of self.old }
        ensures bytes { self.new.bytes.items ≡ self.old.bytes.items ++ part.now }
        ensures keeping { self.new.keeping ≡ self.old.keeping }
        ensures limit { frame_limit self.new ≡ frame_limit self.old }
        ensures room { room_of self.new ≡ room_of self.old }
    {
        for byte in part {
            self.bytes.push_reserved(*byte);
        }
    }

    /// Adds bytes of the frame that have arrived.
    pub fn add(&mut self, part: &[u8])
        ensures holds { (n : ℕ) (begun : List ℕ) → HoldsFrame self.old n begun → HoldsFrame self.new n (begun ++ part.now) }
        ensures room { (n : ℕ) (begun : List ℕ) → HoldsFrame self.old n begun →
            room_of self.new ≤ max (room_of self.old) (2 * (length begun + length part.now)) }
        ensures limit { frame_limit self.new ≡ frame_limit self.old }
    {
        if self.keeping != Keeping::Whole {
            return;
        }
        if self.make_room(part.len()) {
            self.append(part);
        } else {
            self.bytes.clear();
            self.keeping = Keeping::Lost;
        }
    }

    /// Answers the frame, of which all bytes have arrived: by the machine, unless it is too long or lost.
    pub fn answer<M: FrameMachine>(&self, machine: &mut M) -> FrameAnswer
        ensures answers { (frame : List ℕ) → HoldsFrame self.now (length frame) frame →
            AnswersFrame M.answers (frame_limit self.now) machine.old frame (bytes_of result) machine.new }
        ensures short { length (bytes_of result) < 2 ^ 32 }
    {
        match self.keeping {
            Keeping::Whole => machine.answer(&self.bytes),
            Keeping::Long => FrameAnswer::Fixed("long frame".as_bytes()),
            Keeping::Lost => FrameAnswer::Fixed("memory".as_bytes()),
        }
    }
}
