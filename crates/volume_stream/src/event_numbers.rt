//! Events that are a word and numbers.

ghost use Rattle.std.specs.Prelude.{◌≡◌, IfOk};
ghost use Rattle.volume_stream.specs.Words.{made_of};
ghost use Rattle.volume_stream.specs.EventFrames.{said_by, or_unknown, open_form, advance_form, failed_form, numbered_event};

use crate::heard::Heard;
use crate::words::read_numbers;
use node_stream::WIDE;
use redo_core::{MAX_NUMBER, MAX_READERS};
use std::alloc::{AllocError, Global};
use text::is_word;
use volume::Event;

/// The greatest number of a node.
pub(crate) const NODE: u64 = 255;

fn open(alloc: Global, rest: &[u8]) -> Result<Heard, AllocError>
    ensures { IfOk result (λ h. said_by h ≡ or_unknown (made_of open_form rest.now)) }
{
    let Some(numbers) = read_numbers(alloc, [WIDE], rest)? else {
        return Ok(Heard::Unknown);
    };
    let [generation] = numbers;
    Ok(Heard::Event(Event::Open { generation }))
}

fn advance(alloc: Global, rest: &[u8]) -> Result<Heard, AllocError>
    ensures { IfOk result (λ h. said_by h ≡ or_unknown (made_of advance_form rest.now)) }
{
    let limits = [u64::from(MAX_READERS), MAX_NUMBER];
    let Some(numbers) = read_numbers(alloc, limits, rest)? else {
        return Ok(Heard::Unknown);
    };
    let [reader, point] = numbers;
    let reader = reader as u8;
    Ok(Heard::Event(Event::Advance { reader, point }))
}

fn failed(alloc: Global, rest: &[u8]) -> Result<Heard, AllocError>
    ensures { IfOk result (λ h. said_by h ≡ or_unknown (made_of failed_form rest.now)) }
{
    let Some(numbers) = read_numbers(alloc, [NODE], rest)? else {
        return Ok(Heard::Unknown);
    };
    let [node] = numbers;
    let node = node as u8;
    Ok(Heard::Event(Event::Failed { node }))
}

/// What a word and numbers say. It fails only if memory runs out.
#[tactic(auto, unfolding(crate::specs::EventFrames::numbered_event))]
pub(crate) fn numbered_event(alloc: Global, word: &[u8], rest: &[u8]) -> Result<Heard, AllocError>
    ensures { IfOk result (λ h. said_by h ≡ numbered_event word.now rest.now) }
{
    if is_word(word, b"open".as_slice()) {
        open(alloc, rest)
    } else if is_word(word, b"advance".as_slice()) {
        advance(alloc, rest)
    } else if is_word(word, b"failed".as_slice()) {
        failed(alloc, rest)
    } else {
        Ok(Heard::Unknown)
    }
}
