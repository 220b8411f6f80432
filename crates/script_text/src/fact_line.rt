//! Fact lines.

ghost use Rattle.std.specs.Prelude.{◌≡◌, ◌≤◌, ◌++◌, [], ◌∷◌, Some, None, IfOk, IfErr, IfSome, codes, option_map};
ghost use Rattle.redo_core.specs.Data.{advance_of};
ghost use Rattle.redo_core.specs.Shape.{max_number, max_readers, advance_fault};
ghost use Rattle.text.specs.Parts.{parts_at};
ghost use Rattle.text.specs.Fields.{numbers_of, numbers_then, fields_in};
ghost use Rattle.script_text.specs.FactLine.{shaped, head_numbers, record_limits, record_line, cut_line, advance_line, fact_line, fact_of};
ghost use Rattle.script_text.specs.FactReasons.{IsShape, IsBodyReason, IsRecordReason, IsCutReason, IsAdvanceReason, IsFactReason};
ghost use Rattle.script_text.specs.LineReasons.{IfBad};

use crate::contents::record_of;
use crate::field_reasons::{count_parts, wrong_field};
use crate::forms::three;
use crate::reasons::{FactError, LineReason};
use redo_core::{Advance, Cut, Fact, MAX_NUMBER, MAX_READERS, RecordHead};
use std::alloc::{AllocError, Global};
use text::limits::SHORT;
use text::{field, first_part, is_word, three_fields, two_fields};

/// The numbers of the fields behind `rec`, and the text behind them, which has the contents where it is one field.
fn record_fields(fields: Option<&[u8]>) -> Option<(RecordHead, &[u8])>
    ensures { option_map (λ p. (head_numbers p.0, parts_at 32 p.1.now)) result ≡ numbers_then record_limits (fields_in fields.entry) }
{
    let (epoch, rest) = field(fields?, SHORT)?;
    let (number, rest) = field(rest, MAX_NUMBER)?;
    let (back, rest) = field(rest, MAX_NUMBER)?;
    let (page, rest) = field(rest, SHORT)?;
    let (block_back, text) = field(rest, MAX_NUMBER)?;
    let head = RecordHead {
        epoch: epoch as u16,
        number,
        back,
        page: page as u16,
        block_back,
    };
    Some((head, text))
}

/// Why the fields are no numbers of a record, with its contents behind them.
#[tactic(auto, using(crate::proofs::RecordLine::wrong_number, crate::proofs::RecordLine::number_reason))]
fn record_reason(fields: Option<&[u8]>) -> LineReason
    requires { numbers_then record_limits (fields_in fields) ≡ None }
    ensures { IsRecordReason (fields_in fields.entry) result }
{
    match fields {
        None => LineReason::FieldCount { wanted: 6 },
        Some(text) => {
            if count_parts(text, b' ') != 6 {
                return LineReason::FieldCount { wanted: 6 };
            }
            wrong_field(&[SHORT, MAX_NUMBER, MAX_NUMBER, SHORT, MAX_NUMBER], text)
        }
    }
}

/// Why the text behind a record's numbers gives no record: it is more than one field, or the reason that it has as one.
#[tactic(auto, using(crate::proofs::RecordLine::body_reason))]
fn text_error(head: RecordHead, fields: Option<&[u8]>, text: &[u8], error: FactError) -> FactError
    requires numbers { numbers_then record_limits (fields_in fields) ≡ Some (head_numbers head, parts_at 32 text.now) }
    requires body { IfBad (IsBodyReason head text.now) error }
    ensures { IfBad (IsRecordReason (fields_in fields.entry)) result }
{
    match first_part(text, b' ') {
        Some((_word, _behind)) => FactError::Bad(LineReason::FieldCount { wanted: 6 }),
        None => error,
    }
}

/// The fields behind `rec`.
fn record_line(alloc: Global, fields: Option<&[u8]>) -> Result<Fact, FactError>
    ensures fact { IfOk result (λ f. record_line (fields_in fields.entry) ≡ Some f) }
    ensures reason { IfErr result (IfBad (IsRecordReason (fields_in fields.entry))) }
{
    let Some((head, text)) = record_fields(fields) else {
        return Err(FactError::Bad(record_reason(fields)));
    };
    // Contents that are read have no space in them, so only those that are not are searched for one.
    match record_of(alloc, head, text) {
        Ok(fact) => Ok(fact),
        Err(error) => Err(text_error(head, fields, text, error)),
    }
}

/// The fields behind `cut`.
#[tactic(auto, unfolding(crate::specs::FactLine::cut_line, crate::specs::FactLine::shaped))]
fn cut_line(fields: Option<&[u8]>) -> Result<Fact, LineReason>
    ensures fact { IfOk result (λ f. cut_line (fields_in fields.entry) ≡ Some f) }
    ensures reason { IfErr result (IsCutReason (fields_in fields.entry)) }
{
    let [epoch, lo, hi] = three(fields, SHORT, MAX_NUMBER, MAX_NUMBER)?;
    match Cut::new(epoch as u16, lo, hi) {
        Ok(cut) => Ok(Fact::Cut(cut)),
        Err(fault) => Err(LineReason::Shape(fault)),
    }
}

/// The advance, or the fault of its shape.
#[tactic(auto, unfolding(crate::specs::FactLine::shaped))]
fn advance(epoch: u64, point: u64, reader: u64) -> Result<Fact, LineReason>
    requires epoch { epoch ≤ 65535 }
    requires reader { reader ≤ max_readers }
    ensures fact { IfOk result (λ f. shaped (Fact.Advance (advance_of epoch reader point)) ≡ Some f) }
    ensures reason { IfErr result (IsShape (advance_fault (advance_of epoch reader point))) }
{
    match Advance::of_reader(reader as u8, epoch as u16, point) {
        Ok(advance) => Ok(Fact::Advance(advance)),
        Err(fault) => Err(LineReason::Shape(fault)),
    }
}

/// Why the fields are no numbers of an advance.
#[tactic(auto, using(crate::proofs::AdvanceLine::two_wrong, crate::proofs::AdvanceLine::three_wrong))]
fn advance_reason(fields: &[u8]) -> LineReason
    requires two { numbers_of (65535 ∷ max_number ∷ []) (parts_at 32 fields.now) ≡ None }
    requires three { numbers_of (65535 ∷ max_number ∷ max_readers ∷ []) (parts_at 32 fields.now) ≡ None }
    ensures { IsAdvanceReason (parts_at 32 fields.now) result }
{
    match count_parts(fields, b' ') {
        2 => wrong_field(&[SHORT, MAX_NUMBER], fields),
        3 => wrong_field(&[SHORT, MAX_NUMBER, u64::from(MAX_READERS)], fields),
        _ => LineReason::AdvanceFieldCount,
    }
}

/// The fields behind `min`. The reader is 1 where it is not named.
#[tactic(auto, using(crate::proofs::AdvanceLine::two_read, crate::proofs::AdvanceLine::three_read, crate::proofs::AdvanceLine::two_shape, crate::proofs::AdvanceLine::three_shape))]
fn advance_line(fields: &[u8]) -> Result<Fact, LineReason>
    ensures fact { IfOk result (λ f. advance_line (parts_at 32 fields.now) ≡ Some f) }
    ensures reason { IfErr result (IsAdvanceReason (parts_at 32 fields.now)) }
{
    if let Some(numbers) = two_fields(fields, SHORT, MAX_NUMBER) {
        let [epoch, point] = numbers;
        return advance(epoch, point, 1);
    }
    match three_fields(fields, SHORT, MAX_NUMBER, u64::from(MAX_READERS)) {
        Some(numbers) => {
            let [epoch, point, reader] = numbers;
            advance(epoch, point, reader)
        }
        None => Err(advance_reason(fields)),
    }
}

/// The fields of an advance, of which there may be none.
#[tactic(auto, unfolding(crate::specs::FactLine::advance_line))]
fn any_advance(fields: Option<&[u8]>) -> Result<Fact, LineReason>
    ensures fact { IfOk result (λ f. advance_line (fields_in fields.entry) ≡ Some f) }
    ensures reason { IfErr result (IsAdvanceReason (fields_in fields.entry)) }
{
    match fields {
        Some(text) => advance_line(text),
        None => Err(LineReason::AdvanceFieldCount),
    }
}

/// The fact of a word and the fields behind it.
#[tactic(auto, unfolding(crate::specs::FactLine::fact_line))]
fn fact_line(alloc: Global, word: &[u8], fields: Option<&[u8]>) -> Result<Fact, FactError>
    ensures fact { IfOk result (λ f. fact_line (word.now ∷ fields_in fields.entry) ≡ Some f) }
    ensures reason { IfErr result (IfBad (IsFactReason (word.now ∷ fields_in fields.entry))) }
{
    if is_word(word, b"rec") {
        record_line(alloc, fields)
    } else if is_word(word, b"cut") {
        Ok(cut_line(fields)?)
    } else if is_word(word, b"min") {
        Ok(any_advance(fields)?)
    } else {
        Err(FactError::Bad(LineReason::UnknownWord))
    }
}

/// The text behind `rec ` at the beginning of a line. Each byte is matched by itself, which takes less than a comparison of slices.
#[inline]
fn behind_rec(line: &[u8]) -> Option<&[u8]>
    ensures { IfSome result (λ fields. line.now ≡ codes "rec " ++ fields.now) }
{
    match line {
        [b'r', b'e', b'c', b' ', fields @ ..] => Some(fields),
        _ => None,
    }
}

/// The fact that a line encodes.
///
/// Errors: `Bad` with a true reason where it encodes none, and `Memory`.
#[tactic(auto, using(crate::proofs::Words::record_parts))]
pub fn fact(alloc: Global, line: &[u8]) -> Result<Fact, FactError>
    ensures fact { IfOk result (λ f. fact_of line.now ≡ Some f) }
    ensures none { IfErr result (IfBad (λ _. fact_of line.now ≡ None)) }
    ensures reason { IfErr result (IfBad (IsFactReason (parts_at 32 line.now))) }
{
    // Most facts are records, whose word ends where it is known to.
    if let Some(fields) = behind_rec(line) {
        return record_line(alloc, Some(fields));
    }
    match first_part(line, b' ') {
        Some((word, fields)) => fact_line(alloc, word, Some(fields)),
        None => fact_line(alloc, line, None),
    }
}
