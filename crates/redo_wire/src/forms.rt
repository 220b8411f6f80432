//! What distinguishes the two forms of a value: the tag, and the bytes that only the second form has.

ghost use Rattle.std.specs.Prelude.{◌≡◌, ◌≤◌, ◌++◌, OnOk};
ghost use Rattle.redo_wire.specs.Forms.{form_at, form_bytes, within_at, byte_in};
ghost use Rattle.redo_wire.specs.Outcomes.{Gives};

use crate::faults::{WireError, WireFault};
use crate::fields::read_byte;
use bytes::{BufMut, BytesMut};
use std::alloc::AllocError;

/// Whether the first byte is the tag of the second form. Every other tag but the first form's is unknown.
#[tactic(auto, unfolding(crate::specs::Forms::form_at))]
pub(crate) fn read_form(first: u8, second: u8, bytes: &[u8]) -> Result<(bool, &[u8]), WireError>
    ensures { Gives (λ x. (x.0, x.1.now)) result (form_at first second bytes.now) }
{
    let (tag, rest) = read_byte(bytes)?;
    if tag == first {
        return Ok((false, rest));
    }
    if tag == second {
        return Ok((true, rest));
    }
    Err(WireError::Fault(WireFault::UnknownTag))
}

/// Appends the tag of the first or the second form. It fails only if memory runs out.
pub(crate) fn put_form(
    out: &mut BytesMut,
    first: u8,
    second: u8,
    is_second: bool,
) -> Result<(), AllocError>
    ensures { OnOk result (out.new.items ≡ out.old.items ++ form_bytes first second is_second) }
{
    out.put_u8(if is_second { second } else { first })
}

/// A byte from `lo` to `hi`, which only the second form has; in the first it is `absent`.
pub(crate) fn read_within(
    is_second: bool,
    absent: u8,
    lo: u8,
    hi: u8,
    bytes: &[u8],
) -> Result<(u8, &[u8]), WireError>
    ensures { Gives (λ x. (x.0, x.1.now)) result (within_at is_second absent lo hi bytes.now) }
{
    if !is_second {
        return Ok((absent, bytes));
    }
    let (n, rest) = read_byte(bytes)?;
    if n < lo {
        return Err(WireError::Fault(WireFault::Shape));
    }
    if n > hi {
        return Err(WireError::Fault(WireFault::Shape));
    }
    Ok((n, rest))
}

/// Appends a byte that only the second form has; nothing in the first. It fails only if memory runs out.
pub(crate) fn put_within(out: &mut BytesMut, is_second: bool, n: u8) -> Result<(), AllocError>
    ensures { OnOk result (out.new.items ≡ out.old.items ++ byte_in is_second n) }
{
    if is_second {
        out.put_u8(n)?;
    }
    Ok(())
}
