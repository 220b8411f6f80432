//! From a line to a request.

ghost use Rattle.std.specs.Prelude.{◌≡◌, ◌∷◌, [], map, IfOk, IfSome};
ghost use Rattle.node_stream.specs.Asking.{IsInside};
ghost use Rattle.node_stream.specs.Reading.{Gives, formed as formed_of, field_line, fields_line, words_line, request_of};

use crate::asked::Asked;
use crate::faults::{LineError, LineFault};
use crate::fielded::{absorb, add, answer, answer_within, take};
use crate::job::Form;
use crate::numbered::{numbers, word};
use std::alloc::Global;
use text::{first_parts, is_word};

/// What has the form of a request.
pub fn formed<T: Drop>(asked: Option<T>) -> Result<T, LineError>
    ensures asks { Gives (λ x. x) result (formed_of asked) }
    ensures same { IfOk result (λ a. asked ≡ Some a) }
{
    match asked {
        Some(asked) => Ok(asked),
        None => Err(LineError::Fault(LineFault::Form)),
    }
}

#[tactic(auto, unfolding(crate::specs::Reading::field_line))]
fn with_field(alloc: Global, words: &[&[u8]], word: &[u8], field: &[u8]) -> Result<Asked, LineError>
    requires { map (λ x. x.now) words.now ≡ word.now ∷ field.now ∷ [] }
    ensures asks { Gives (λ x. x) result (field_line word.now field.now) }
    ensures inside { IfOk result (λ a. IsInside a.window) }
{
    if is_word(word, b"take".as_slice()) {
        take(alloc, Form::Lines, field)
    } else if is_word(word, b"answer".as_slice()) {
        answer(alloc, Form::Lines, field)
    } else if is_word(word, b"add".as_slice()) {
        add(alloc, Form::Lines, field)
    } else {
        formed(numbers(words))
    }
}

#[tactic(auto, unfolding(crate::specs::Reading::fields_line))]
fn with_fields(
    alloc: Global,
    words: &[&[u8]],
    word: &[u8],
    field: &[u8],
    next: &[u8],
) -> Result<Asked, LineError>
    requires { map (λ x. x.now) words.now ≡ word.now ∷ field.now ∷ next.now ∷ [] }
    ensures asks { Gives (λ x. x) result (fields_line word.now field.now next.now) }
    ensures inside { IfOk result (λ a. IsInside a.window) }
{
    if is_word(word, b"absorb".as_slice()) {
        absorb(alloc, Form::Lines, field, next)
    } else if is_word(word, b"answer".as_slice()) {
        answer_within(alloc, Form::Lines, next, field)
    } else {
        formed(numbers(words))
    }
}

#[tactic(auto, unfolding(crate::specs::Reading::words_line))]
fn read_words(alloc: Global, words: &[&[u8]]) -> Result<Asked, LineError>
    ensures asks { Gives (λ x. x) result (words_line (map (λ x. x.now) words.now)) }
    ensures inside { IfOk result (λ a. IsInside a.window) }
{
    match words {
        [single] => formed(word(single)),
        [name, field] => with_field(alloc, words, name, field),
        [name, field, next] => with_fields(alloc, words, name, field, next),
        _ => formed(numbers(words)),
    }
}

/// What a line asks.
///
/// Errors: `Fault` where it encodes no request, with the first cause from left to right but the limit of `answer` first, and `Memory`.
#[tactic(auto, using(crate::proofs::FirstWords::first_words))]
pub fn read_line(alloc: Global, line: &[u8]) -> Result<Asked, LineError>
    ensures asks { Gives (λ x. x) result (request_of line.now) }
    ensures inside { IfOk result (λ a. IsInside a.window) }
{
    let words = first_parts(alloc, line, b' ')?;
    read_words(alloc, &words)
}
