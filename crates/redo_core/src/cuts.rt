ghost use Rattle.std.specs.Prelude.{◌≡◌, ◌<◌, ◌≤◌, IfOk, None};
ghost use Rattle.std.specs.Result.{result_err};
ghost use Rattle.redo_core.specs.Data.{cut_of};
ghost use Rattle.redo_core.specs.Shape.{cut_fault, max_number};

use crate::shapes::{MAX_NUMBER, ShapeFault};
use std::marker::Model;

/// A truncation: with it its epoch begins. It annuls the records of earlier epochs above `lo`, and its own epoch's LSNs
/// are above `hi`.
#[derive(Clone, Copy, Debug, PartialEq, Eq)]
pub struct Cut {
    epoch: u16,
    lo: u64,
    hi: u64,
}

impl Model for Cut {
    ghost use Rattle.std.specs.Prelude.{◌≡◌, None};
    ghost use Rattle.redo_core.specs.Data.{CutData, cut_of};
    ghost use Rattle.redo_core.specs.Shape.{cut_fault};

    ghost Value = { CutData };

    ghost view = { λ c. record { epoch = c.epoch; lo = c.lo; hi = c.hi } };

    ghost inverse = { λ c. record { epoch = c.epoch; lo = c.lo; hi = c.hi } };

    ghost invariant = { λ c. cut_fault (cut_of c.epoch c.lo c.hi) ≡ None };
}

impl Cut {
    /// A truncation, or the first fault of its shape.
    pub fn new(epoch: u16, lo: u64, hi: u64) -> Result<Self, ShapeFault>
        ensures ok { IfOk result (λ c. c ≡ cut_of epoch lo hi) }
        ensures fault { result_err result ≡ cut_fault (cut_of epoch lo hi) }
    {
        if epoch == 0 {
            return Err(ShapeFault::EpochIsZero);
        }
        if hi < lo {
            return Err(ShapeFault::LoAboveHi);
        }
        if hi > MAX_NUMBER {
            return Err(ShapeFault::TooLarge);
        }
        Ok(Cut { epoch, lo, hi })
    }

    /// The epoch that the truncation begins, from 1.
    pub fn epoch(&self) -> u16
        ensures value { result ≡ self.now.epoch }
        ensures positive { 0 < result }
        ensures shape { cut_fault self.now ≡ None }
    {
        self.epoch
    }

    /// The greatest LSN of an earlier epoch that it leaves alive.
    pub fn lo(&self) -> u64
        ensures value { result ≡ self.now.lo }
        ensures ordered { result ≤ self.now.hi }
        ensures bound { result ≤ max_number }
        ensures shape { cut_fault self.now ≡ None }
    {
        self.lo
    }

    /// The LSN that all LSNs of its epoch are above.
    pub fn hi(&self) -> u64
        ensures value { result ≡ self.now.hi }
        ensures ordered { self.now.lo ≤ result }
        ensures bound { result ≤ max_number }
        ensures shape { cut_fault self.now ≡ None }
    {
        self.hi
    }
}
