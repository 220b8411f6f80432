//! Reading and writing truncations, as facts and as elements of a list.

ghost use Rattle.std.specs.Prelude.{◌≡◌, ◌++◌, OnOk};
ghost use Rattle.redo_wire.specs.Outcomes.{Gives};
ghost use Rattle.redo_wire.specs.Facts.{IsWireCut, cut_bytes};
ghost use Rattle.redo_wire.specs.FactReading.{cut_at};
ghost use Rattle.redo_wire.specs.BookReading.{next_cut_at};

use crate::faults::{WireError, WireFault};
use crate::fields::{put_u16, put_u48, read_u16, read_u48};
use crate::lists::{ListReader, ListWriter};
use bytes::BytesMut;
use redo_core::Cut;
use std::alloc::{AllocError, Global};

/// Truncations by epoch.
#[derive(Clone, Copy)]
pub struct CutList;

impl ListReader for CutList {
    ghost use Rattle.redo_wire.specs.BookReading.{next_cut_at, cut_epoch};

    type Item = Cut;

    /// The epoch of the truncation before.
    type State = u16;

    ghost step = { λ _. next_cut_at };

    ghost next = { cut_epoch };

    fn read_next(self, last: u16, _alloc: Global, bytes: &[u8]) -> Result<(Cut, &[u8]), WireError> {
        read_next_cut(last, bytes)
    }

    fn state_after(self, _last: u16, cut: &Cut) -> u16 {
        cut.epoch()
    }
}

impl ListWriter for CutList {
    ghost use Rattle.redo_wire.specs.Facts.{IsWireCut, cut_bytes};

    type Item = Cut;

    ghost encode = { λ _. cut_bytes };

    ghost fits = { λ _. IsWireCut };

    fn put(self, out: &mut BytesMut, cut: &Cut) -> Result<(), AllocError> {
        put_cut(out, cut)
    }
}

/// Reads a truncation, without a tag, from the front of the bytes; returns it and the bytes after it.
///
/// Errors: `Short`; `Shape` where the epoch is 0 or no truncation has these fields.
#[tactic(auto, unfolding(crate::specs::FactReading::cut_at))]
pub(crate) fn read_cut(bytes: &[u8]) -> Result<(Cut, &[u8]), WireError>
    ensures { Gives (λ x. (x.0, x.1.now)) result (cut_at bytes.now) }
{
    let (epoch, rest) = read_u16(bytes)?;
    if epoch == 0 {
        return Err(WireError::Fault(WireFault::Shape));
    }
    let (lo, rest) = read_u48(rest)?;
    let (hi, rest) = read_u48(rest)?;
    match Cut::new(epoch, lo, hi) {
        Ok(cut) => Ok((cut, rest)),
        Err(_) => Err(WireError::Fault(WireFault::Shape)),
    }
}

fn read_next_cut(last: u16, bytes: &[u8]) -> Result<(Cut, &[u8]), WireError>
    ensures { Gives (λ x. (x.0, x.1.now)) result (next_cut_at last bytes.now) }
{
    match read_cut(bytes) {
        Err(e) => Err(e),
        Ok((cut, rest)) => {
            if cut.epoch() <= last {
                return Err(WireError::Fault(WireFault::Order));
            }
            Ok((cut, rest))
        }
    }
}

/// Appends a truncation, without a tag. It fails only if memory runs out: some of the bytes may then be appended.
pub(crate) fn put_cut(out: &mut BytesMut, cut: &Cut) -> Result<(), AllocError>
    ensures ok { OnOk result (out.new.items ≡ out.old.items ++ cut_bytes cut.now) }
    ensures wire { OnOk result (IsWireCut cut.now) }
{
    put_u16(out, cut.epoch())?;
    put_u48(out, cut.lo())?;
    put_u48(out, cut.hi())?;
    Ok(())
}
