//! Why a text call failed.

ghost use Rattle.std.specs.Prelude.{◌≡◌};
ghost use Rattle.framing.specs.declared.devices.fault.RunFault.TheVariants.{Memory};

use std::alloc::AllocError;
use thiserror::Error;

/// Why no text was written, or not the whole of it.
#[derive(Clone, Copy, Debug, PartialEq, Eq, Error)]
pub enum RunFault {
    #[error("input failed")]
    Input,
    #[error("output failed")]
    Output,
    #[error("out of memory")]
    Memory,
}

impl From<AllocError> for RunFault {
    ghost from_gives = { λ _ e. e ≡ Memory };

    fn from(_e: AllocError) -> RunFault {
        RunFault::Memory
    }
}
