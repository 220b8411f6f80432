//! Why a word is no patch. Only words that were refused come here.

ghost use Rattle.std.specs.Prelude.{◌≡◌, ◌≢◌, ◌∷◌, [], length, None, MatchBool, MatchOption, IfOk};
ghost use Rattle.text.specs.Parts.{parts_at};
ghost use Rattle.script_text.specs.FactLine.{patch_of};
ghost use Rattle.script_text.specs.PatchFaults.{IsPatchPlace, IsNoPatchPlace, IsPatchFault};

use crate::reasons::PatchFault;
use std::alloc::{AllocError, Global};
use text::limits::{PAGE, SHORT};
use text::{decoded, first_part, read_number};

/// Whether the word is a place: an offset, or an offset and a length round a star.
fn is_place(word: &[u8]) -> bool
    ensures { MatchBool result (IsPatchPlace word.now) (IsNoPatchPlace word.now) }
{
    match first_part(word, b'*') {
        None => read_number(word, SHORT).is_some(),
        Some((offset, len)) => read_number(offset, SHORT).is_some()
            && read_number(len, PAGE).is_some(),
    }
}

/// The place and the digits round the one colon of a word.
#[tactic(auto, using(text::proofs::Split::some_parts))]
fn round_colon(word: &[u8]) -> Option<(&[u8], &[u8])>
    ensures { MatchOption result (length (parts_at 58 word.now) ≢ 2) (λ p. parts_at 58 word.now ≡ p.0.now ∷ p.1.now ∷ []) }
{
    let (place, digits) = first_part(word, b':')?;
    match first_part(digits, b':') {
        None => Some((place, digits)),
        Some(_) => None,
    }
}

/// Why a word that is no patch is none.
pub(crate) fn patch_fault(alloc: Global, word: &[u8]) -> Result<PatchFault, AllocError>
    requires { patch_of word.now ≡ None }
    ensures { IfOk result (λ fault. IsPatchFault word.now fault) }
{
    let Some((place, digits)) = round_colon(word) else {
        return Ok(PatchFault::Colon);
    };
    if !is_place(place) {
        return Ok(PatchFault::Place);
    }
    let Some(bytes) = decoded(alloc, digits)? else {
        return Ok(PatchFault::Digits);
    };
    if bytes.is_empty() {
        return Ok(PatchFault::NoBytes);
    }
    // A place and bytes are a patch, unless they are a fill of more than one byte.
    Ok(PatchFault::FillBytes)
}
