ghost use Rattle.std.specs.Prelude.{◌≡◌};
ghost use Rattle.redo_wire.specs.Faults.{fault_number};
ghost use Rattle.redo_wire.specs.declared.faults.WireError.TheVariants.{Memory};

use std::alloc::{AllocError, AllocFailed};
use std::fmt;
use thiserror::Error;

/// Why bytes encode no value, as the first fault from front to back, or why a value has no encoding.
#[derive(Clone, Copy, Debug, PartialEq, Eq, Error)]
pub enum WireFault {
    Short,
    UnknownTag,
    Shape,
    Order,
    Rest,
    /// Returned by encoding alone.
    TooLong,
}

impl fmt::Display for WireFault {
    fn fmt<W: fmt::Write>(&self, f: &mut fmt::Formatter<W>) -> fmt::Result {
        f.write_str(match self {
            WireFault::Short => "the bytes end inside a field",
            WireFault::UnknownTag => "a tag that is not allowed here",
            WireFault::Shape => "a shape rule is broken",
            WireFault::Order => "an element is not above the one before it",
            WireFault::Rest => "bytes are left after the value",
            WireFault::TooLong => "a list has more elements than its count field can express",
        })
    }
}

impl WireFault {
    ghost use Rattle.redo_wire.specs.Faults.{fault_number};

    /// The number by which the fault is reported: 1 to 5 where bytes are read, 6 where a value is written.
    pub fn number(self) -> u8
        ensures { result ≡ fault_number self }
    {
        match self {
            WireFault::Short => 1,
            WireFault::UnknownTag => 2,
            WireFault::Shape => 3,
            WireFault::Order => 4,
            WireFault::Rest => 5,
            WireFault::TooLong => 6,
        }
    }
}

/// Why a call of this crate failed: lack of memory, or a fault of what it was given.
#[derive(Debug, Drop, Error)]
pub enum WireError {
    #[error("out of memory")]
    Memory,
    #[error(transparent)]
    Fault(WireFault),
}

impl From<AllocError> for WireError {
    ghost from_gives = { λ _ e. e ≡ Memory };

    fn from(_e: AllocError) -> WireError {
        WireError::Memory
    }
}

impl<T: Drop> From<AllocFailed<T>> for WireError {
    ghost from_gives = { λ _ e. e ≡ Memory };

    fn from(_e: AllocFailed<T>) -> WireError {
        WireError::Memory
    }
}
