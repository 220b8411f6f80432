//! Step lines.

ghost use Rattle.std.specs.Prelude.{◌≡◌, ◌≤◌, ◌++◌, [], ◌∷◌, Some, IfOk, IfErr, IfSome, codes};
ghost use Rattle.std.specs.List.{AllZip};
ghost use Rattle.redo_core.specs.Shape.{max_number};
ghost use Rattle.text.specs.Parts.{parts_at};
ghost use Rattle.text.specs.Fields.{numbers_of, fields_in, made_by, read_by};
ghost use Rattle.script_text.specs.Script.{most};
ghost use Rattle.script_text.specs.StepLine.{take_form, fold_form, discard_form, front_form, read_form, join_form, same_form, covers_form, wipe_form, ask_form, answer_form, absorb_form, message_forms, step_forms, step_line, step_of};
ghost use Rattle.script_text.specs.FieldReasons.{IsFieldReason};
ghost use Rattle.script_text.specs.FormReasons.{IsFormReason, IsReasonBy};

use crate::field_reasons::fields_reason;
use crate::forms::{one, two};
use crate::reasons::LineReason;
use redo_core::MAX_NUMBER;
use script_steps::Step;
use text::limits::{LONG, PAGE, SHORT};
use text::{field, first_part, is_word, three_fields};

fn take(facts: usize, fields: Option<&[u8]>) -> Result<Step<usize>, LineReason>
    requires { facts ≤ most }
    ensures step { IfOk result (λ s. made_by (take_form facts) (fields_in fields.entry) ≡ Some s) }
    ensures reason { IfErr result (IsFormReason (take_form facts) (fields_in fields.entry)) }
{
    let [node, place] = two(fields, SHORT, facts as u64)?;
    if place == 0 {
        return Err(LineReason::Zero { at: 3 });
    }
    Ok(Step::Take {
        node: node as u16,
        fact: place as usize,
    })
}

fn fold(fields: Option<&[u8]>) -> Result<Step<usize>, LineReason>
    ensures step { IfOk result (λ s. made_by fold_form (fields_in fields.entry) ≡ Some s) }
    ensures reason { IfErr result (IsFormReason fold_form (fields_in fields.entry)) }
{
    let [node, page] = two(fields, SHORT, SHORT)?;
    Ok(Step::Fold {
        node: node as u16,
        page: page as u16,
    })
}

fn discard(fields: Option<&[u8]>) -> Result<Step<usize>, LineReason>
    ensures step { IfOk result (λ s. made_by discard_form (fields_in fields.entry) ≡ Some s) }
    ensures reason { IfErr result (IsFormReason discard_form (fields_in fields.entry)) }
{
    let node = one(fields, SHORT)?;
    Ok(Step::Discard { node: node as u16 })
}

fn front(fields: Option<&[u8]>) -> Result<Step<usize>, LineReason>
    ensures step { IfOk result (λ s. made_by front_form (fields_in fields.entry) ≡ Some s) }
    ensures reason { IfErr result (IsFormReason front_form (fields_in fields.entry)) }
{
    let node = one(fields, SHORT)?;
    Ok(Step::Front { node: node as u16 })
}

/// The numbers of a read: node, page, point, offset and length.
#[inline]
fn read_fields(fields: &[u8]) -> Option<[u64; 5]>
    ensures value { result ≡ numbers_of (65535 ∷ 65535 ∷ max_number ∷ 4096 ∷ 4096 ∷ []) (parts_at 32 fields.now) }
    ensures bound { IfSome result (λ ns. AllZip (λ n limit. n ≤ limit) ns (65535 ∷ 65535 ∷ max_number ∷ 4096 ∷ 4096 ∷ [])) }
{
    let (node, rest) = field(fields, SHORT)?;
    let (page, rest) = field(rest, SHORT)?;
    let [point, offset, len] = three_fields(rest, MAX_NUMBER, PAGE, PAGE)?;
    Some([node, page, point, offset, len])
}

/// The same, or why the fields are no such numbers.
fn read_numbers(fields: Option<&[u8]>) -> Result<[u64; 5], LineReason>
    ensures value { IfOk result (λ ns. numbers_of (65535 ∷ 65535 ∷ max_number ∷ 4096 ∷ 4096 ∷ []) (fields_in fields.entry) ≡ Some ns) }
    ensures bound { IfOk result (λ ns. AllZip (λ n limit. n ≤ limit) ns (65535 ∷ 65535 ∷ max_number ∷ 4096 ∷ 4096 ∷ [])) }
    ensures reason { IfErr result (IsFieldReason (65535 ∷ 65535 ∷ max_number ∷ 4096 ∷ 4096 ∷ []) (fields_in fields.entry)) }
{
    let limits = [SHORT, SHORT, MAX_NUMBER, PAGE, PAGE];
    match fields {
        Some(text) => match read_fields(text) {
            Some(numbers) => Ok(numbers),
            None => Err(fields_reason(&limits, fields)),
        },
        None => Err(fields_reason(&limits, fields)),
    }
}

fn read(fields: Option<&[u8]>) -> Result<Step<usize>, LineReason>
    ensures step { IfOk result (λ s. made_by read_form (fields_in fields.entry) ≡ Some s) }
    ensures reason { IfErr result (IsFormReason read_form (fields_in fields.entry)) }
{
    let [node, page, point, offset, len] = read_numbers(fields)?;
    if len == 0 {
        return Err(LineReason::Zero { at: 6 });
    }
    if offset + len > PAGE {
        return Err(LineReason::PastPage);
    }
    Ok(Step::Read {
        node: node as u16,
        page: page as u16,
        point,
        offset: offset as u16,
        len: len as u16,
    })
}

fn join(fields: Option<&[u8]>) -> Result<Step<usize>, LineReason>
    ensures step { IfOk result (λ s. made_by join_form (fields_in fields.entry) ≡ Some s) }
    ensures reason { IfErr result (IsFormReason join_form (fields_in fields.entry)) }
{
    let [node, from] = two(fields, SHORT, SHORT)?;
    Ok(Step::Join {
        node: node as u16,
        from: from as u16,
    })
}

fn same(fields: Option<&[u8]>) -> Result<Step<usize>, LineReason>
    ensures step { IfOk result (λ s. made_by same_form (fields_in fields.entry) ≡ Some s) }
    ensures reason { IfErr result (IsFormReason same_form (fields_in fields.entry)) }
{
    let [node, other] = two(fields, SHORT, SHORT)?;
    Ok(Step::Same {
        node: node as u16,
        other: other as u16,
    })
}

fn covers(fields: Option<&[u8]>) -> Result<Step<usize>, LineReason>
    ensures step { IfOk result (λ s. made_by covers_form (fields_in fields.entry) ≡ Some s) }
    ensures reason { IfErr result (IsFormReason covers_form (fields_in fields.entry)) }
{
    let [node, other] = two(fields, SHORT, SHORT)?;
    Ok(Step::Covers {
        node: node as u16,
        other: other as u16,
    })
}

fn wipe(fields: Option<&[u8]>) -> Result<Step<usize>, LineReason>
    ensures step { IfOk result (λ s. made_by wipe_form (fields_in fields.entry) ≡ Some s) }
    ensures reason { IfErr result (IsFormReason wipe_form (fields_in fields.entry)) }
{
    let node = one(fields, SHORT)?;
    Ok(Step::Wipe { node: node as u16 })
}

fn ask(fields: Option<&[u8]>) -> Result<Step<usize>, LineReason>
    ensures step { IfOk result (λ s. made_by ask_form (fields_in fields.entry) ≡ Some s) }
    ensures reason { IfErr result (IsFormReason ask_form (fields_in fields.entry)) }
{
    let node = one(fields, SHORT)?;
    Ok(Step::Ask { node: node as u16 })
}

fn answer(fields: Option<&[u8]>) -> Result<Step<usize>, LineReason>
    ensures step { IfOk result (λ s. made_by answer_form (fields_in fields.entry) ≡ Some s) }
    ensures reason { IfErr result (IsFormReason answer_form (fields_in fields.entry)) }
{
    let [node, message] = two(fields, SHORT, LONG)?;
    Ok(Step::Answer {
        node: node as u16,
        message: message as usize,
    })
}

fn absorb(fields: Option<&[u8]>) -> Result<Step<usize>, LineReason>
    ensures step { IfOk result (λ s. made_by absorb_form (fields_in fields.entry) ≡ Some s) }
    ensures reason { IfErr result (IsFormReason absorb_form (fields_in fields.entry)) }
{
    let [node, message] = two(fields, SHORT, LONG)?;
    Ok(Step::Absorb {
        node: node as u16,
        message: message as usize,
    })
}

/// The step of a message, by its word and the fields behind it.
fn message_line(word: &[u8], fields: Option<&[u8]>) -> Result<Step<usize>, LineReason>
    ensures step { IfOk result (λ s. read_by message_forms (word.now ∷ fields_in fields.entry) ≡ Some s) }
    ensures reason { IfErr result (IsReasonBy message_forms (word.now ∷ fields_in fields.entry)) }
{
    if is_word(word, b"ask") {
        ask(fields)
    } else if is_word(word, b"answer") {
        answer(fields)
    } else if is_word(word, b"absorb") {
        absorb(fields)
    } else {
        Err(LineReason::UnknownWord)
    }
}

/// The step of a node that comes, goes, or is held against another, or of a message.
fn node_line(word: &[u8], fields: Option<&[u8]>) -> Result<Step<usize>, LineReason>
    ensures step { IfOk result (λ s. read_by (join_form ∷ same_form ∷ covers_form ∷ wipe_form ∷ message_forms) (word.now ∷ fields_in fields.entry) ≡ Some s) }
    ensures reason { IfErr result (IsReasonBy (join_form ∷ same_form ∷ covers_form ∷ wipe_form ∷ message_forms) (word.now ∷ fields_in fields.entry)) }
{
    if is_word(word, b"join") {
        join(fields)
    } else if is_word(word, b"same") {
        same(fields)
    } else if is_word(word, b"covers") {
        covers(fields)
    } else if is_word(word, b"wipe") {
        wipe(fields)
    } else {
        message_line(word, fields)
    }
}

/// The step of a word and the fields after it, for so many facts.
#[tactic(auto, unfolding(crate::specs::StepLine::step_line))]
fn step_line(facts: usize, word: &[u8], fields: Option<&[u8]>) -> Result<Step<usize>, LineReason>
    requires { facts ≤ most }
    ensures step { IfOk result (λ s. step_line facts (word.now ∷ fields_in fields.entry) ≡ Some s) }
    ensures reason { IfErr result (IsReasonBy (step_forms facts) (word.now ∷ fields_in fields.entry)) }
{
    if is_word(word, b"take") {
        take(facts, fields)
    } else if is_word(word, b"fold") {
        fold(fields)
    } else if is_word(word, b"discard") {
        discard(fields)
    } else if is_word(word, b"front") {
        front(fields)
    } else if is_word(word, b"read") {
        read(fields)
    } else {
        node_line(word, fields)
    }
}

/// The text behind `take ` at the beginning of a line. Each byte is matched by itself, which takes less than a comparison of slices.
#[inline]
fn behind_take(line: &[u8]) -> Option<&[u8]>
    ensures { IfSome result (λ fields. line.now ≡ codes "take " ++ fields.now) }
{
    match line {
        [b't', b'a', b'k', b'e', b' ', fields @ ..] => Some(fields),
        _ => None,
    }
}

/// The step of a line, for so many facts; or why it encodes none.
#[tactic(auto, using(crate::proofs::Words::take_parts))]
pub(crate) fn step(facts: usize, line: &[u8]) -> Result<Step<usize>, LineReason>
    requires { facts ≤ most }
    ensures step { IfOk result (λ s. step_of facts line.now ≡ Some s) }
    ensures reason { IfErr result (IsReasonBy (step_forms facts) (parts_at 32 line.now)) }
{
    // Most steps are takes, whose word ends where it is known to.
    if let Some(fields) = behind_take(line) {
        return take(facts, Some(fields));
    }
    match first_part(line, b' ') {
        Some((word, fields)) => step_line(facts, word, Some(fields)),
        None => step_line(facts, line, None),
    }
}
