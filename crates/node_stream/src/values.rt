//! Values of the wire, each in a field of a line or of a frame.

ghost use Rattle.std.specs.Cow.{cow_slice_items};
ghost use Rattle.node_stream.specs.Reading.{Gives, bytes_by, fact_by, summary_by, delta_by, piece_by};

use crate::faults::{LineError, LineFault};
use crate::job::Form;
use redo_core::Fact;
use redo_wire::{
    Delta, Piece, Summary, WireError, decode_delta, decode_fact, decode_piece, decode_summary,
};
use replica::Boxed;
use std::alloc::Global;
use std::borrow::CowSlice;
use text::decoded;

/// The bytes of a field: of hexadecimal digits of either case in a line, and as they are in a frame.
fn bytes(alloc: Global, form: Form, field: &[u8]) -> Result<CowSlice<u8>, LineError>
    ensures { Gives (λ c. cow_slice_items c) result (bytes_by form field.now) }
{
    match form {
        Form::Lines => match decoded(alloc, field)? {
            Some(bytes) => Ok(CowSlice::Owned(bytes)),
            None => Err(LineError::Fault(LineFault::Hex)),
        },
        Form::Frames => Ok(CowSlice::Borrowed(field)),
    }
}

/// The fact that a field encodes.
pub fn fact(alloc: Global, form: Form, field: &[u8]) -> Result<Fact, LineError>
    ensures { Gives (λ x. x) result (fact_by form field.now) }
{
    let bytes = bytes(alloc, form, field)?;
    match decode_fact(alloc, &bytes) {
        Ok(fact) => Ok(fact),
        Err(WireError::Memory) => Err(LineError::Memory),
        Err(WireError::Fault(fault)) => Err(LineError::Fault(LineFault::Wire(fault))),
    }
}

/// The summary that a field encodes.
pub fn summary(alloc: Global, form: Form, field: &[u8]) -> Result<Boxed<Summary>, LineError>
    ensures { Gives (λ x. x) result (summary_by form field.now) }
{
    let bytes = bytes(alloc, form, field)?;
    match decode_summary(alloc, &bytes) {
        Ok(summary) => Ok(Boxed::new(alloc, summary)?),
        Err(WireError::Memory) => Err(LineError::Memory),
        Err(WireError::Fault(fault)) => Err(LineError::Fault(LineFault::Wire(fault))),
    }
}

/// The delta that a field encodes.
pub fn delta(alloc: Global, form: Form, field: &[u8]) -> Result<Boxed<Delta>, LineError>
    ensures { Gives (λ x. x) result (delta_by form field.now) }
{
    let bytes = bytes(alloc, form, field)?;
    match decode_delta(alloc, &bytes) {
        Ok(delta) => Ok(Boxed::new(alloc, delta)?),
        Err(WireError::Memory) => Err(LineError::Memory),
        Err(WireError::Fault(fault)) => Err(LineError::Fault(LineFault::Wire(fault))),
    }
}

/// The piece that a field encodes.
pub fn piece(alloc: Global, form: Form, field: &[u8]) -> Result<Boxed<Piece>, LineError>
    ensures { Gives (λ x. x) result (piece_by form field.now) }
{
    let bytes = bytes(alloc, form, field)?;
    match decode_piece(alloc, &bytes) {
        Ok(piece) => Ok(Boxed::new(alloc, piece)?),
        Err(WireError::Memory) => Err(LineError::Memory),
        Err(WireError::Fault(fault)) => Err(LineError::Fault(LineFault::Wire(fault))),
    }
}
