//! From a frame to a request.

ghost use Rattle.std.specs.Prelude.{◌≡◌, ◌<◌, ◌==◌, length, position, option_map, IfOk, IfSome};
ghost use Rattle.node_stream.specs.Asking.{IsInside};
ghost use Rattle.node_stream.specs.Reading.{Gives};
ghost use Rattle.node_stream.specs.FrameReading.{halves, absorbed, within_frame, absorb_frame, request_in};

use crate::asked::Asked;
use crate::faults::{LineError, LineFault};
use crate::fielded::{absorb, add, answer, answer_within, take};
use crate::job::Form;
use crate::requests::read_line;
use memchr::memchr;
use std::alloc::Global;
use text::limits::LONG;
use text::{is_word, read_number};

/// The place of the first space.
fn first_space(text: &[u8]) -> Option<usize>
    ensures place { result ≡ position (λ b. b == 32) text.now }
    ensures within { IfSome result (λ at. at < length text.now) }
{
    memchr(b' ', text)
}

/// The bytes before the first space, and those after it.
pub fn halves(text: &[u8]) -> Option<(&[u8], &[u8])>
    ensures { option_map (λ p. (p.0.now, p.1.now)) result ≡ halves text.now }
{
    let at = first_space(text)?;
    let (front, _) = text.split_at(at);
    let (_, behind) = text.split_at(at + 1);
    Some((front, behind))
}

/// A number of bytes, and the bytes of a summary.
fn within(alloc: Global, text: &[u8]) -> Result<Asked, LineError>
    ensures asks { Gives (λ x. x) result (within_frame text.now) }
    ensures inside { IfOk result (λ a. IsInside a.window) }
{
    match halves(text) {
        Some((limit, field)) => answer_within(alloc, Form::Frames, limit, field),
        None => Err(LineError::Fault(LineFault::Form)),
    }
}

/// The bytes of a summary, which follow their number, and those of a delta.
fn absorbed(text: &[u8]) -> Option<(&[u8], &[u8])>
    ensures { option_map (λ p. (p.0.now, p.1.now)) result ≡ absorbed text.now }
{
    let (digits, behind) = halves(text)?;
    let count = read_number(digits, LONG)? as usize;
    if count > behind.len() {
        return None;
    }
    Some(behind.split_at(count))
}

fn absorb_text(alloc: Global, text: &[u8]) -> Result<Asked, LineError>
    ensures asks { Gives (λ x. x) result (absorb_frame text.now) }
    ensures inside { IfOk result (λ a. IsInside a.window) }
{
    match absorbed(text) {
        Some((shown, answered)) => absorb(alloc, Form::Frames, shown, answered),
        None => Err(LineError::Fault(LineFault::Form)),
    }
}

/// What a frame asks: after a word that takes bytes these follow as they are; any other frame asks what the line of its bytes asks.
///
/// Errors: `Fault` where it encodes no request, with the first cause from left to right and never `Hex`, and `Memory`.
#[tactic(auto, unfolding(crate::specs::FrameReading::halves_frame))]
pub fn read_frame(alloc: Global, frame: &[u8]) -> Result<Asked, LineError>
    ensures asks { Gives (λ x. x) result (request_in frame.now) }
    ensures inside { IfOk result (λ a. IsInside a.window) }
{
    let Some((word, rest)) = halves(frame) else {
        return read_line(alloc, frame);
    };
    if is_word(word, b"take".as_slice()) {
        take(alloc, Form::Frames, rest)
    } else if is_word(word, b"answer".as_slice()) {
        answer(alloc, Form::Frames, rest)
    } else if is_word(word, b"within".as_slice()) {
        within(alloc, rest)
    } else if is_word(word, b"add".as_slice()) {
        add(alloc, Form::Frames, rest)
    } else if is_word(word, b"absorb".as_slice()) {
        absorb_text(alloc, rest)
    } else {
        read_line(alloc, frame)
    }
}
