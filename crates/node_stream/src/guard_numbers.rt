//! Requests of a guard that are a word and numbers.

ghost use Rattle.std.specs.Prelude.{◌≡◌, ◌≤◌, map, IfSome, option_map};
ghost use Rattle.redo_core.specs.Data.{cut_of};
ghost use Rattle.redo_core.specs.Shape.{cut_fault};
ghost use Rattle.text.specs.Fields.{made_by};
ghost use Rattle.node_stream.specs.Asking.{IsInside};
ghost use Rattle.node_stream.specs.GuardReading.{faultless, fence_form, propose_form, admit_form, admit_with_form, admission_of};

use crate::asked::GuardAsked;
use crate::wide::{WIDE, wide_numbers};
use guard::{AcceptedCut, Admission, Request};
use redo_core::{Cut, MAX_NUMBER};
use text::limits::SHORT;

/// The truncation of three numbers, unless its shape has a fault.
fn cut_from(epoch: u64, lo: u64, hi: u64) -> Option<Cut>
    requires { epoch ≤ 65535 }
    ensures { result ≡ faultless (cut_fault (cut_of epoch lo hi)) (cut_of epoch lo hi) }
{
    Cut::new(epoch as u16, lo, hi).ok()
}

/// The fields after `fence`.
pub fn fence(fields: &[&[u8]]) -> Option<GuardAsked>
    ensures asks { result ≡ made_by fence_form (map (λ x. x.now) fields.now) }
    ensures inside { IfSome result (λ a. IsInside a.window) }
{
    let [generation] = wide_numbers([WIDE], fields)?;
    Some(GuardAsked::new(Request::Fence { generation }))
}

/// The fields after `propose`.
pub fn propose(fields: &[&[u8]]) -> Option<GuardAsked>
    ensures asks { result ≡ made_by propose_form (map (λ x. x.now) fields.now) }
    ensures inside { IfSome result (λ a. IsInside a.window) }
{
    let [generation, birth, epoch, lo, hi] = wide_numbers(
        [WIDE, WIDE, SHORT, MAX_NUMBER, MAX_NUMBER],
        fields,
    )?;
    let cut = cut_from(epoch, lo, hi)?;
    Some(GuardAsked::new(Request::Propose {
        generation,
        birth,
        cut,
    }))
}

/// An admission with no accepted truncation.
fn admit_alone(fields: &[&[u8]]) -> Option<GuardAsked>
    ensures asks { result ≡ made_by admit_form (map (λ x. x.now) fields.now) }
    ensures inside { IfSome result (λ a. IsInside a.window) }
{
    let [generation, birth, epoch, complete] = wide_numbers(
        [WIDE, WIDE, SHORT, MAX_NUMBER],
        fields,
    )?;
    Some(GuardAsked::new(Request::Admit(Admission {
        generation,
        birth,
        epoch: epoch as u16,
        complete,
        accepted: None,
    })))
}

/// An admission with an accepted truncation.
fn admit_with(fields: &[&[u8]]) -> Option<GuardAsked>
    ensures asks { result ≡ made_by admit_with_form (map (λ x. x.now) fields.now) }
    ensures inside { IfSome result (λ a. IsInside a.window) }
{
    let [generation, birth, epoch, complete, by, next, lo, hi] = wide_numbers(
        [
            WIDE, WIDE, SHORT, MAX_NUMBER, WIDE, SHORT, MAX_NUMBER, MAX_NUMBER,
        ],
        fields,
    )?;
    let cut = cut_from(next, lo, hi)?;
    Some(GuardAsked::new(Request::Admit(Admission {
        generation,
        birth,
        epoch: epoch as u16,
        complete,
        accepted: Some(AcceptedCut {
            generation: by,
            cut,
        }),
    })))
}

/// The fields after `admit`: four numbers, or eight.
#[tactic(auto, unfolding(crate::specs::GuardReading::admission_of))]
pub fn admit(fields: &[&[u8]]) -> Option<GuardAsked>
    ensures asks { result ≡ admission_of (map (λ x. x.now) fields.now) }
    ensures inside { IfSome result (λ a. IsInside a.window) }
{
    match admit_alone(fields) {
        Some(asked) => Some(asked),
        None => admit_with(fields),
    }
}
