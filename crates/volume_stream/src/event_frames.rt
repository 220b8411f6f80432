//! From the bytes of a frame to the event.

ghost use Rattle.std.specs.Prelude.{◌≡◌, IfOk};
ghost use Rattle.volume_stream.specs.EventFrames.{said_by, lone_event, answered_event, event_in};

use crate::event_numbers::{NODE, numbered_event};
use crate::heard::Heard;
use crate::reply_frames::read_reply;
use crate::writes::write_event;
use node_stream::{halves, wide_number};
use std::alloc::{AllocError, Global};
use text::is_word;
use volume::Event;

/// What the bytes of a frame say. It fails only if memory runs out.
#[tactic(auto, unfolding(crate::specs::EventFrames::event_words))]
pub(crate) fn read_event(alloc: Global, frame: &[u8]) -> Result<Heard, AllocError>
    ensures { IfOk result (λ h. said_by h ≡ event_in frame.now) }
{
    let Some((word, rest)) = halves(frame) else {
        return Ok(lone(frame));
    };
    if is_word(word, b"answered".as_slice()) {
        answered(alloc, rest)
    } else if is_word(word, b"write".as_slice()) {
        write_event(alloc, rest)
    } else if is_word(word, b"commit".as_slice()) {
        let header = Vec::from_slice(alloc, rest)?;
        Ok(Heard::Event(Event::Commit { header }))
    } else {
        numbered_event(alloc, word, rest)
    }
}

#[tactic(auto, unfolding(crate::specs::EventFrames::lone_event))]
fn lone(text: &[u8]) -> Heard
    ensures { said_by result ≡ lone_event text.now }
{
    if is_word(text, b"create".as_slice()) {
        Heard::Event(Event::Create)
    } else {
        Heard::Unknown
    }
}

/// The bytes after `answered`: a node, and its answer.
#[tactic(auto, unfolding(crate::specs::EventFrames::answered_event))]
fn answered(alloc: Global, rest: &[u8]) -> Result<Heard, AllocError>
    ensures { IfOk result (λ h. said_by h ≡ answered_event rest.now) }
{
    let Some((digits, answer)) = halves(rest) else {
        return Ok(Heard::Unknown);
    };
    let Some(node) = wide_number(digits, NODE) else {
        return Ok(Heard::Unknown);
    };
    let node = node as u8;
    match read_reply(alloc, answer)? {
        Some(reply) => Ok(Heard::Event(Event::Answered { node, reply })),
        None => Ok(Heard::Nothing),
    }
}
