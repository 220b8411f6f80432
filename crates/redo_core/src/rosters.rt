ghost use Rattle.std.specs.Prelude.{◌≡◌, IfOk};
ghost use Rattle.std.specs.Result.{result_err};
ghost use Rattle.redo_core.specs.Roster.{IsRoster};
ghost use Rattle.redo_core.specs.Shape.{roster_fault};

use crate::shapes::{MAX_READERS, ShapeFault};
use std::marker::Model;

/// How many readers a log has, 1 to 15. They are numbered from 1, and the roster of a log never changes.
#[derive(Clone, Copy, Debug, PartialEq, Eq)]
pub struct Roster {
    readers: u8,
}

impl Model for Roster {
    ghost use Rattle.std.specs.Prelude.{ℕ};
    ghost use Rattle.redo_core.specs.Roster.{IsRoster};

    ghost Value = { ℕ };

    ghost view = { λ r. r.readers };

    ghost inverse = { λ n. record { readers = n } };

    ghost invariant = { λ r. IsRoster r.readers };
}

impl Roster {
    /// A roster of 1 to 15 readers; the error is the fault of another number.
    pub fn new(readers: u8) -> Result<Self, ShapeFault>
        ensures ok { IfOk result (λ r. r ≡ readers) }
        ensures fault { result_err result ≡ roster_fault readers }
    {
        if readers == 0 {
            return Err(ShapeFault::RosterSize);
        }
        if readers > MAX_READERS {
            return Err(ShapeFault::RosterSize);
        }
        Ok(Roster { readers })
    }

    /// The number of readers, which is also the last reader's.
    pub fn readers(self) -> u8
        ensures value { result ≡ self }
        ensures range { IsRoster self }
    {
        self.readers
    }
}
