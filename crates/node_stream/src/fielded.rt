//! Requests of a word and bytes, in lines and in frames.

ghost use Rattle.std.specs.Prelude.{IfOk};
ghost use Rattle.node_stream.specs.Asking.{IsInside};
ghost use Rattle.node_stream.specs.Reading.{Gives, asked_take, asked_answer, asked_within, asked_add, asked_absorb};

use crate::asked::Asked;
use crate::faults::{LineError, LineFault};
use crate::job::Form;
use crate::values::{delta, fact, piece, summary};
use replica::Request;
use std::alloc::Global;
use text::limits::LONG;
use text::read_number;

pub fn take(alloc: Global, form: Form, field: &[u8]) -> Result<Asked, LineError>
    ensures asks { Gives (λ x. x) result (asked_take form field.now) }
    ensures inside { IfOk result (λ a. IsInside a.window) }
{
    let fact = fact(alloc, form, field)?;
    Ok(Asked::new(Request::Take { fact }))
}

pub fn answer(alloc: Global, form: Form, field: &[u8]) -> Result<Asked, LineError>
    ensures asks { Gives (λ x. x) result (asked_answer form field.now) }
    ensures inside { IfOk result (λ a. IsInside a.window) }
{
    let summary = summary(alloc, form, field)?;
    Ok(Asked::new(Request::Answer { summary }))
}

/// A summary, to be answered within so many bytes.
pub fn answer_within(
    alloc: Global,
    form: Form,
    limit: &[u8],
    field: &[u8],
) -> Result<Asked, LineError>
    ensures asks { Gives (λ x. x) result (asked_within form limit.now field.now) }
    ensures inside { IfOk result (λ a. IsInside a.window) }
{
    let Some(most) = read_number(limit, LONG) else {
        return Err(LineError::Fault(LineFault::Form));
    };
    let summary = summary(alloc, form, field)?;
    Ok(Asked::new(Request::AnswerWithin { summary, most }))
}

pub fn add(alloc: Global, form: Form, field: &[u8]) -> Result<Asked, LineError>
    ensures asks { Gives (λ x. x) result (asked_add form field.now) }
    ensures inside { IfOk result (λ a. IsInside a.window) }
{
    let piece = piece(alloc, form, field)?;
    Ok(Asked::new(Request::Add { piece }))
}

/// A summary, and the delta that answers it.
pub fn absorb(alloc: Global, form: Form, shown: &[u8], answered: &[u8]) -> Result<Asked, LineError>
    ensures asks { Gives (λ x. x) result (asked_absorb form shown.now answered.now) }
    ensures inside { IfOk result (λ a. IsInside a.window) }
{
    let summary = summary(alloc, form, shown)?;
    let delta = delta(alloc, form, answered)?;
    Ok(Asked::new(Request::Absorb { summary, delta }))
}
