//! Values of any kind, read by their first byte.

ghost use Rattle.std.specs.Prelude.{IfOk, Ok};
ghost use Rattle.redo_wire.specs.declared.values.WireValue.{WireValue};
ghost use Rattle.redo_wire.specs.Outcomes.{GivesRead};
ghost use Rattle.redo_wire.specs.Values.{EncodesValue, decoded_value};

use crate::deltas::decode_delta;
use crate::facts::decode_fact;
use crate::faults::{WireError, WireFault};
use crate::pieces::decode_piece;
use crate::summaries::decode_summary;
use crate::tags;
use messages::{Delta, Piece, Summary};
use redo_core::Fact;
use std::alloc::Global;

/// A value of the wire: a fact, a summary, a delta or a piece.
#[derive(Drop)]
pub enum WireValue {
    Fact(Fact),
    Summary(Summary),
    Delta(Delta),
    Piece(Piece),
}

/// The value that the bytes encode, all of them: what the decoder of the first byte's form answers. A byte of no form, or none
/// at all, goes to the decoder of facts.
///
/// Errors: the first fault from front to back (never `TooLong`), or `Memory`.
pub fn decode_value(alloc: Global, bytes: &[u8]) -> Result<WireValue, WireError>
    // What is read is what the bytes encode.
    ensures found { IfOk result (λ v. EncodesValue v bytes.now) }

    // What the bytes encode is read, unless memory runs out.
    ensures encoded { (v : WireValue) → EncodesValue v bytes.now → GivesRead result (Ok v) }

    // Which fault is returned where they encode nothing.
    ensures fault { GivesRead result (decoded_value bytes.now) }
{
    value_by_tag(alloc, bytes)
}

fn value_by_tag(alloc: Global, bytes: &[u8]) -> Result<WireValue, WireError>
    ensures { GivesRead result (decoded_value bytes.now) }
{
    match bytes {
        [] => Err(WireError::Fault(WireFault::Short)),
        [tags::SUMMARY | tags::ROSTER_SUMMARY, ..] => {
            Ok(WireValue::Summary(decode_summary(alloc, bytes)?))
        }
        [tags::DELTA | tags::ROSTER_DELTA, ..] => Ok(WireValue::Delta(decode_delta(alloc, bytes)?)),
        [tags::PIECE | tags::ROSTER_PIECE, ..] => Ok(WireValue::Piece(decode_piece(alloc, bytes)?)),
        _ => Ok(WireValue::Fact(decode_fact(alloc, bytes)?)),
    }
}
