//! Replies of a segment to which an engine listens.

ghost use Rattle.std.specs.Prelude.{◌≡◌, IfOk};
ghost use Rattle.redo_wire.specs.SummaryReading.{decoded_summary};
ghost use Rattle.redo_wire.specs.DeltaReading.{decoded_delta};
ghost use Rattle.replica.specs.declared.replies.Reply.TheVariants as segment;
ghost use Rattle.volume_stream.specs.Words.{made_of};
ghost use Rattle.volume_stream.specs.ReplyFrames.{decoded_as, front_form, lone_segment_reply, segment_reply};

use crate::words::read_numbers;
use node_stream::halves;
use redo_core::MAX_NUMBER;
use redo_wire::{WireError, decode_delta, decode_summary};
use replica::{Boxed, Reply};
use segment_core::Front;
use std::alloc::{AllocError, Global};
use text::is_word;
use text::limits::SHORT;

/// The reply that the bytes encode, where an engine listens to it; None for any other. It fails only if memory runs out.
#[tactic(auto, unfolding(crate::specs::ReplyFrames::segment_words))]
pub(crate) fn segment_reply(alloc: Global, text: &[u8]) -> Result<Option<Reply>, AllocError>
    ensures { IfOk result (λ o. o ≡ segment_reply text.now) }
{
    let Some((word, rest)) = halves(text) else {
        return Ok(lone(text));
    };
    if is_word(word, b"front".as_slice()) {
        front(alloc, rest)
    } else if is_word(word, b"summary".as_slice()) {
        summary(alloc, rest)
    } else if is_word(word, b"delta".as_slice()) {
        delta(alloc, rest)
    } else {
        Ok(None)
    }
}

#[tactic(auto, unfolding(crate::specs::ReplyFrames::lone_segment_reply))]
fn lone(text: &[u8]) -> Option<Reply>
    ensures { result ≡ lone_segment_reply text.now }
{
    if is_word(text, b"changed".as_slice()) {
        Some(Reply::Changed)
    } else if is_word(text, b"unchanged".as_slice()) {
        Some(Reply::Unchanged)
    } else if is_word(text, b"absorbed".as_slice()) {
        Some(Reply::Absorbed)
    } else {
        None
    }
}

fn front(alloc: Global, rest: &[u8]) -> Result<Option<Reply>, AllocError>
    ensures { IfOk result (λ o. o ≡ made_of front_form rest.now) }
{
    let limits = [SHORT, MAX_NUMBER, MAX_NUMBER];
    let Some(numbers) = read_numbers(alloc, limits, rest)? else {
        return Ok(None);
    };
    let [epoch, complete, min] = numbers;
    let front = Front {
        epoch: epoch as u16,
        complete,
        min,
    };
    Ok(Some(Reply::Front { front }))
}

fn summary(alloc: Global, bytes: &[u8]) -> Result<Option<Reply>, AllocError>
    ensures { IfOk result (λ o. o ≡ decoded_as (decoded_summary bytes.now) segment.Summary) }
{
    match decode_summary(alloc, bytes) {
        Ok(summary) => {
            let summary = Boxed::new(alloc, summary)?;
            Ok(Some(Reply::Summary { summary }))
        }
        Err(WireError::Memory) => Err(AllocError),
        Err(WireError::Fault(_)) => Ok(None),
    }
}

fn delta(alloc: Global, bytes: &[u8]) -> Result<Option<Reply>, AllocError>
    ensures { IfOk result (λ o. o ≡ decoded_as (decoded_delta bytes.now) segment.Delta) }
{
    match decode_delta(alloc, bytes) {
        Ok(delta) => {
            let delta = Boxed::new(alloc, delta)?;
            Ok(Some(Reply::Delta { delta }))
        }
        Err(WireError::Memory) => Err(AllocError),
        Err(WireError::Fault(_)) => Ok(None),
    }
}
