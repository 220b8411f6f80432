//! The machine of a volume that answers the frames of events.

ghost use Rattle.std.specs.Prelude.{◌≡◌};
ghost use Rattle.framing.specs.AnswerBytes.{bytes_of};
ghost use Rattle.framing.specs.Frames.{IsShort};
ghost use Rattle.volume.specs.Data.{volume_of};
ghost use Rattle.volume.specs.declared.phases.Phase.TheVariants.{Idle as IsIdlePhase};
ghost use Rattle.volume_stream.specs.Answering.{AnswersEvent, StepsEvent};

use crate::action_frames::actions_frame;
use crate::event_frames::read_event;
use crate::heard::Heard;
use framing::frames::{FrameAnswer, FrameMachine};
use std::alloc::Global;
use std::marker::Model;
use volume::{Event, Settings, Volume};

/// The frame of the fault `NotOpen`, with its length.
const NOT_OPEN: &[u8] = b"\0\0\0\x08not open";

/// Carries out an event, and answers with the frames of the actions that follow from it.
fn answer_event(alloc: Global, volume: &mut Volume, event: Event) -> FrameAnswer
    ensures answers { StepsEvent volume.old event (bytes_of result) volume.new }
    ensures short { IsShort (bytes_of result) }
{
    let Ok(actions) = volume.step(event) else {
        return FrameAnswer::Fixed("memory".as_bytes());
    };
    match actions_frame(alloc, &actions) {
        Ok(bytes) => FrameAnswer::Made(bytes),
        Err(_) => {
            // Nobody gets these actions, so the machine must not count on them.
            volume.close();
            FrameAnswer::Fixed(NOT_OPEN)
        }
    }
}

/// Answers the bytes of an event's frame: with a frame for each action that follows, or `memory`, and then the event counts as not having
/// come. The answer `bad event` is to bytes that are no event, which change nothing.
///
/// Where there is no memory for the answer alone, the volume is closed, and the answer is the fault `not open`.
pub fn answer_frame(alloc: Global, volume: &mut Volume, frame: &[u8]) -> FrameAnswer
    ensures answers { AnswersEvent volume.old frame.now (bytes_of result) volume.new }
    ensures short { IsShort (bytes_of result) }
{
    match read_event(alloc, frame) {
        Ok(Heard::Event(event)) => answer_event(alloc, volume, event),
        Ok(Heard::Nothing) => FrameAnswer::Fixed("".as_bytes()),
        Ok(Heard::Unknown) => FrameAnswer::Fixed("bad event".as_bytes()),
        Err(_) => FrameAnswer::Fixed("memory".as_bytes()),
    }
}

/// The machine of a volume that answers frames, with answers in memory of this allocator.
#[derive(Drop)]
pub struct Engine {
    alloc: Global,
    volume: Volume,
}

impl Model for Engine {
    ghost use Rattle.volume.specs.Data.{VolumeData};

    ghost Value = { VolumeData };

    ghost view = { λ e. e.volume };
}

impl Engine {
    /// A machine that nothing has happened to.
    pub fn new(alloc: Global, settings: Settings) -> Self
        ensures { result ≡ volume_of settings 0 IsIdlePhase }
    {
        let volume = Volume::new(alloc, settings);
        Engine { alloc, volume }
    }

    /// What its answers are made with.
    pub fn allocator(&self) -> Global {
        self.alloc
    }
}

impl FrameMachine for Engine {
    ghost use Rattle.volume_stream.specs.Answering.{AnswersEvent};

    ghost answers = { AnswersEvent };

    fn answer(&mut self, frame: &[u8]) -> FrameAnswer {
        answer_frame(self.alloc, &mut self.volume, frame)
    }
}
