//! Why the fields of a line are not the numbers that it requires. Only lines that were refused come here, so nothing is made to be fast.

ghost use Rattle.std.specs.Prelude.{◌≡◌, ◌≤◌, ◌<◌, ◌^◌, ◌↔◌, ◌==◌, IsTrue, None, Some, drop, length, slice_get, slice_index};
ghost use Rattle.std.specs.List.{All};
ghost use Rattle.std.specs.Str.{all_ascii_digits};
ghost use Rattle.text.specs.Number.{decimal_value};
ghost use Rattle.text.specs.Parts.{parts_at};
ghost use Rattle.text.specs.Fields.{numbers_of, fields_in};
ghost use Rattle.script_text.specs.NumberFaults.{IsNumberFault};
ghost use Rattle.script_text.specs.FieldReasons.{HasWrongField, IsWrongField, IsFieldReason};

use crate::reasons::{LineReason, NumberFault};
use text::{first_part, read_number};

fn is_digits(word: &[u8]) -> bool
    ensures { result ≡ all_ascii_digits word.now }
{
    for c in word {
        if !c.is_ascii_digit() {
            return false;
        }
    }
    true
}

fn has_leading_zero(word: &[u8]) -> bool
    ensures { IsTrue result ↔ (slice_index word.now 0 ≡ 48) × (1 < length word.now) }
{
    word.len() > 1 && word[0] == b'0'
}

/// What is wrong with a word that is no number up to `limit`.
#[tactic(auto, using(crate::proofs::Faults::above_limit))]
fn number_fault(word: &[u8], limit: u64) -> NumberFault
    requires { decimal_value limit word.now ≡ None }
    ensures { IsNumberFault limit word.now result }
{
    if word.is_empty() {
        NumberFault::Empty
    } else if !is_digits(word) {
        NumberFault::NotDigits
    } else if has_leading_zero(word) {
        NumberFault::LeadingZero
    } else {
        NumberFault::Above(limit)
    }
}

/// How many parts the text has between separators.
#[tactic(auto, using(crate::proofs::Faults::many_parts))]
pub(crate) fn count_parts(text: &[u8], separator: u8) -> usize
    ensures { result ≡ length (parts_at separator text.now) }
{
    let mut count = 1;
    for byte in text {
        if *byte == separator {
            count += 1;
        }
    }
    count
}

/// The first field, and the text after it, where the text has another.
fn next_field(text: &[u8]) -> (&[u8], &[u8])
    ensures first { slice_get (parts_at 32 text.now) 0 ≡ Some result.0.now }
    ensures rest { 1 < length (parts_at 32 text.now) → parts_at 32 result.1.now ≡ drop 1 (parts_at 32 text.now) }
{
    match first_part(text, b' ') {
        Some(found) => found,
        None => (text, text),
    }
}

/// The first field that is no number up to its limit, where one is.
pub(crate) fn wrong_field(limits: &[u64], text: &[u8]) -> LineReason
    requires limits { All (λ limit. limit < 2 ^ 60) limits.now }
    requires wrong { HasWrongField limits.now (parts_at 32 text.now) }
    ensures { IsWrongField limits.now (parts_at 32 text.now) result }
{
    let mut rest = text;
    for i in 0..limits.len() {
        let (word, behind) = next_field(rest);
        let limit = limits[i];
        if read_number(word, limit).is_none() {
            return LineReason::Field {
                at: i + 2,
                fault: number_fault(word, limit),
            };
        }
        rest = behind;
    }
    unreachable!()
}

/// Why the fields are not as many numbers as there are limits, each at most its limit: they are more or fewer, or one is wrong.
pub(crate) fn fields_reason(limits: &[u64], fields: Option<&[u8]>) -> LineReason
    requires limits { All (λ limit. limit < 2 ^ 60) limits.now }
    requires none { numbers_of limits.now (fields_in fields) ≡ None }
    ensures { IsFieldReason limits.now (fields_in fields.entry) result }
{
    let wanted = limits.len();
    match fields {
        None => LineReason::FieldCount { wanted },
        Some(text) => {
            if count_parts(text, b' ') != wanted {
                return LineReason::FieldCount { wanted };
            }
            wrong_field(limits, text)
        }
    }
}
