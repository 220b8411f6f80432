//! From a line or a frame to a request of a guard.

ghost use Rattle.std.specs.Prelude.{◌≡◌, IfOk, IfSome, option_map};
ghost use Rattle.text.specs.Fields.{made_by};
ghost use Rattle.text.specs.Parts.{parts_at};
ghost use Rattle.node_stream.specs.Asking.{IsInside};
ghost use Rattle.node_stream.specs.Reading.{Gives, formed as formed_of};
ghost use Rattle.node_stream.specs.GuardReading.{fence_form, propose_form, admission_of, own_asked, plain_text};
ghost use Rattle.node_stream.specs.GuardReading.{wide_front, under_text, lone_text, guard_request};

use crate::asked::{Asked, GuardAsked};
use crate::faults::{LineError, LineFault};
use crate::frame_requests::{halves, read_frame};
use crate::guard_numbers::{admit, fence, propose};
use crate::job::Form;
use crate::requests::{formed, read_line};
use crate::wide::{WIDE, wide_number};
use guard::Request;
use std::alloc::Global;
use text::{first_parts, is_word};

/// What a line or a frame asks of a replica.
fn read_own(alloc: Global, form: Form, text: &[u8]) -> Result<Asked, LineError>
    ensures asks { Gives (λ x. x) result (own_asked form text.now) }
    ensures inside { IfOk result (λ a. IsInside a.window) }
{
    match form {
        Form::Lines => read_line(alloc, text),
        Form::Frames => read_frame(alloc, text),
    }
}

/// A request of a replica that no engine asks under its generation.
#[tactic(auto, unfolding(crate::specs::GuardReading::plain_text))]
fn read_plain(alloc: Global, form: Form, text: &[u8]) -> Result<GuardAsked, LineError>
    ensures asks { Gives (λ x. x) result (plain_text form text.now) }
    ensures inside { IfOk result (λ a. IsInside a.window) }
{
    let asked = read_own(alloc, form, text)?;
    Ok(GuardAsked::plain(asked))
}

/// A generation or a birth, and the bytes after it and a space.
fn front(text: &[u8]) -> Option<(u64, &[u8])>
    ensures { option_map (λ p. (p.0, p.1.now)) result ≡ wide_front text.now }
{
    let (digits, behind) = halves(text)?;
    Some((wide_number(digits, WIDE)?, behind))
}

/// The bytes after `as`: a generation, a birth, and a request of a replica.
#[tactic(auto, unfolding(crate::specs::GuardReading::under_text))]
fn read_under(alloc: Global, form: Form, text: &[u8]) -> Result<GuardAsked, LineError>
    ensures asks { Gives (λ x. x) result (under_text form text.now) }
    ensures inside { IfOk result (λ a. IsInside a.window) }
{
    let Some((generation, behind)) = front(text) else {
        return Err(LineError::Fault(LineFault::Form));
    };
    let Some((birth, own)) = front(behind) else {
        return Err(LineError::Fault(LineFault::Form));
    };
    let asked = read_own(alloc, form, own)?;
    Ok(GuardAsked::under(generation, birth, asked))
}

#[tactic(auto, using(crate::proofs::GuardFields::fence_fields))]
fn read_fence(alloc: Global, text: &[u8]) -> Result<GuardAsked, LineError>
    ensures asks { Gives (λ x. x) result (formed_of (made_by fence_form (parts_at 32 text.now))) }
    ensures inside { IfOk result (λ a. IsInside a.window) }
{
    let fields = first_parts(alloc, text, b' ')?;
    formed(fence(&fields))
}

#[tactic(auto, using(crate::proofs::GuardFields::propose_fields))]
fn read_propose(alloc: Global, text: &[u8]) -> Result<GuardAsked, LineError>
    ensures asks { Gives (λ x. x) result (formed_of (made_by propose_form (parts_at 32 text.now))) }
    ensures inside { IfOk result (λ a. IsInside a.window) }
{
    let fields = first_parts(alloc, text, b' ')?;
    formed(propose(&fields))
}

#[tactic(auto, using(crate::proofs::GuardFields::admission_fields))]
fn read_admit(alloc: Global, text: &[u8]) -> Result<GuardAsked, LineError>
    ensures asks { Gives (λ x. x) result (formed_of (admission_of (parts_at 32 text.now))) }
    ensures inside { IfOk result (λ a. IsInside a.window) }
{
    let fields = first_parts(alloc, text, b' ')?;
    formed(admit(&fields))
}

/// A text without a space.
#[tactic(auto, unfolding(crate::specs::GuardReading::lone_text))]
fn read_lone(alloc: Global, form: Form, text: &[u8]) -> Result<GuardAsked, LineError>
    ensures asks { Gives (λ x. x) result (lone_text form text.now) }
    ensures inside { IfOk result (λ a. IsInside a.window) }
{
    if is_word(text, b"status".as_slice()) {
        Ok(GuardAsked::new(Request::Status))
    } else {
        read_plain(alloc, form, text)
    }
}

/// What a line, without its LF, or a frame asks of a guard.
///
/// Errors: `Fault` where it encodes no request, with the first cause from left to right but the limit of `answer` first, and in a frame never
/// `Hex`; and `Memory`.
#[tactic(auto, unfolding(crate::specs::GuardReading::guard_words))]
pub fn read_request(alloc: Global, form: Form, text: &[u8]) -> Result<GuardAsked, LineError>
    ensures asks { Gives (λ x. x) result (guard_request form text.now) }
    ensures inside { IfOk result (λ a. IsInside a.window) }
{
    let Some((word, rest)) = halves(text) else {
        return read_lone(alloc, form, text);
    };
    if is_word(word, b"as".as_slice()) {
        read_under(alloc, form, rest)
    } else if is_word(word, b"fence".as_slice()) {
        read_fence(alloc, rest)
    } else if is_word(word, b"propose".as_slice()) {
        read_propose(alloc, rest)
    } else if is_word(word, b"admit".as_slice()) {
        read_admit(alloc, rest)
    } else {
        read_plain(alloc, form, text)
    }
}
