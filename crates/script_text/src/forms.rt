//! The numbers behind a word: as many as its form has limits, or why they are not.

ghost use Rattle.std.specs.Prelude.{◌≡◌, ◌≤◌, ◌<◌, ◌^◌, [], ◌∷◌, Some, IfOk, IfErr};
ghost use Rattle.std.specs.List.{AllZip};
ghost use Rattle.text.specs.Fields.{numbers_of, fields_in};
ghost use Rattle.script_text.specs.FieldReasons.{IsFieldReason};

use crate::field_reasons::fields_reason;
use crate::reasons::LineReason;
use text::{last_field, three_fields, two_fields};

/// The number of the one field, if it is at most `limit`.
#[inline]
pub(crate) fn one(fields: Option<&[u8]>, limit: u64) -> Result<u64, LineReason>
    requires { limit < 2 ^ 60 }
    ensures value { IfOk result (λ n. numbers_of (limit ∷ []) (fields_in fields.entry) ≡ Some (n ∷ [])) }
    ensures bound { IfOk result (λ n. n ≤ limit) }
    ensures reason { IfErr result (IsFieldReason (limit ∷ []) (fields_in fields.entry)) }
{
    match fields {
        Some(text) => match last_field(text, limit) {
            Some(number) => Ok(number),
            None => Err(fields_reason(&[limit], fields)),
        },
        None => Err(fields_reason(&[limit], fields)),
    }
}

/// The numbers of two fields, each at most its limit.
#[inline]
pub(crate) fn two(fields: Option<&[u8]>, first: u64, second: u64) -> Result<[u64; 2], LineReason>
    requires first { first < 2 ^ 60 }
    requires second { second < 2 ^ 60 }
    ensures value { IfOk result (λ ns. numbers_of (first ∷ second ∷ []) (fields_in fields.entry) ≡ Some ns) }
    ensures bound { IfOk result (λ ns. AllZip (λ n limit. n ≤ limit) ns (first ∷ second ∷ [])) }
    ensures reason { IfErr result (IsFieldReason (first ∷ second ∷ []) (fields_in fields.entry)) }
{
    match fields {
        Some(text) => match two_fields(text, first, second) {
            Some(numbers) => Ok(numbers),
            None => Err(fields_reason(&[first, second], fields)),
        },
        None => Err(fields_reason(&[first, second], fields)),
    }
}

/// The numbers of three fields, each at most its limit.
#[inline]
pub(crate) fn three(
    fields: Option<&[u8]>,
    first: u64,
    second: u64,
    third: u64,
) -> Result<[u64; 3], LineReason>
    requires first { first < 2 ^ 60 }
    requires second { second < 2 ^ 60 }
    requires third { third < 2 ^ 60 }
    ensures value { IfOk result (λ ns. numbers_of (first ∷ second ∷ third ∷ []) (fields_in fields.entry) ≡ Some ns) }
    ensures bound { IfOk result (λ ns. AllZip (λ n limit. n ≤ limit) ns (first ∷ second ∷ third ∷ [])) }
    ensures reason { IfErr result (IsFieldReason (first ∷ second ∷ third ∷ []) (fields_in fields.entry)) }
{
    match fields {
        Some(text) => match three_fields(text, first, second, third) {
            Some(numbers) => Ok(numbers),
            None => Err(fields_reason(&[first, second, third], fields)),
        },
        None => Err(fields_reason(&[first, second, third], fields)),
    }
}
