//! Why a line encodes no request.

ghost use Rattle.std.specs.Prelude.{◌≡◌};
ghost use Rattle.node_stream.specs.declared.faults.LineError.TheVariants.{Memory};

use redo_wire::WireFault;
use std::alloc::AllocError;
use std::fmt;
use thiserror::Error;

/// Why a line encodes no request.
#[derive(Clone, Copy, Debug, PartialEq, Eq, Error)]
pub enum LineFault {
    /// It has the form of no request.
    Form,
    /// It has the form of a request, but for digits that are no hexadecimal digits, or not an even number of them.
    Hex,
    /// The digits encode bytes that are no value of the kind that belongs there.
    Wire(WireFault),
}

impl fmt::Display for LineFault {
    fn fmt<W: fmt::Write>(&self, f: &mut fmt::Formatter<W>) -> fmt::Result {
        f.write_str(match self {
            LineFault::Wire(fault) => return fmt::Display::fmt(fault, f),
            LineFault::Form => "bad line",
            LineFault::Hex => "bad hex",
        })
    }
}

/// Why a line was not read.
#[derive(Debug, Drop, Error)]
pub enum LineError {
    Memory,
    Fault(LineFault),
}

impl fmt::Display for LineError {
    fn fmt<W: fmt::Write>(&self, f: &mut fmt::Formatter<W>) -> fmt::Result {
        match self {
            LineError::Memory => f.write_str("out of memory"),
            LineError::Fault(fault) => fmt::Display::fmt(fault, f),
        }
    }
}

impl From<AllocError> for LineError {
    ghost from_gives = { λ _ e. e ≡ Memory };

    fn from(_e: AllocError) -> LineError {
        LineError::Memory
    }
}
