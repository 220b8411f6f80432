ghost use Rattle.std.specs.Prelude.{◌≡◌, ◌<◌, ◌≤◌, IfOk, None};
ghost use Rattle.std.specs.Result.{result_err};
ghost use Rattle.redo_core.specs.Data.{advance_of};
ghost use Rattle.redo_core.specs.Shape.{advance_fault, max_number, max_readers};

use crate::shapes::{MAX_NUMBER, MAX_READERS, ShapeFault};
use std::marker::Model;

/// An advance of a reader's point: the reader never again reads below `point`.
#[derive(Clone, Copy, Debug, PartialEq, Eq)]
pub struct Advance {
    epoch: u16,
    reader: u8,
    point: u64,
}

impl Model for Advance {
    ghost use Rattle.std.specs.Prelude.{◌≡◌, None};
    ghost use Rattle.redo_core.specs.Data.{AdvanceData, advance_of};
    ghost use Rattle.redo_core.specs.Shape.{advance_fault};

    ghost Value = { AdvanceData };

    ghost view = { λ a. record { epoch = a.epoch; reader = a.reader; point = a.point } };

    ghost inverse = { λ a. record { epoch = a.epoch; reader = a.reader; point = a.point } };

    ghost invariant = { λ a. advance_fault (advance_of a.epoch a.reader a.point) ≡ None };
}

impl Advance {
    /// An advance of reader 1, or the first fault of its shape.
    pub fn new(epoch: u16, point: u64) -> Result<Self, ShapeFault>
        ensures ok { IfOk result (λ a. a ≡ advance_of epoch 1 point) }
        ensures fault { result_err result ≡ advance_fault (advance_of epoch 1 point) }
    {
        Self::of_reader(1, epoch, point)
    }

    /// An advance of a reader of 1 to 15, or the first fault of its shape.
    pub fn of_reader(reader: u8, epoch: u16, point: u64) -> Result<Self, ShapeFault>
        ensures ok { IfOk result (λ a. a ≡ advance_of epoch reader point) }
        ensures fault { result_err result ≡ advance_fault (advance_of epoch reader point) }
    {
        if point == 0 {
            return Err(ShapeFault::NumberIsZero);
        }
        if point > MAX_NUMBER {
            return Err(ShapeFault::TooLarge);
        }
        if reader == 0 {
            return Err(ShapeFault::NoSuchReader);
        }
        if reader > MAX_READERS {
            return Err(ShapeFault::NoSuchReader);
        }
        Ok(Advance {
            epoch,
            reader,
            point,
        })
    }

    /// The epoch in which the writer made it.
    pub fn epoch(&self) -> u16
        ensures value { result ≡ self.now.epoch }
        ensures shape { advance_fault self.now ≡ None }
    {
        self.epoch
    }

    /// The reader whose point it is, from 1 to 15.
    pub fn reader(&self) -> u8
        ensures value { result ≡ self.now.reader }
        ensures positive { 0 < result }
        ensures bound { result ≤ max_readers }
        ensures shape { advance_fault self.now ≡ None }
    {
        self.reader
    }

    /// The point, an LSN from 1 to 2^48 - 1.
    pub fn point(&self) -> u64
        ensures value { result ≡ self.now.point }
        ensures positive { 0 < result }
        ensures bound { result ≤ max_number }
        ensures shape { advance_fault self.now ≡ None }
    {
        self.point
    }
}
