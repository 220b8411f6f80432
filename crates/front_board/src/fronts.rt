ghost use Rattle.std.specs.Prelude.{◌≡◌, ◌≤◌};
ghost use Rattle.redo_core.specs.LogFront.{IsLogFront};
ghost use Rattle.redo_core.specs.Shape.{max_number};
ghost use Rattle.front_board.specs.FrontWord.{word_of, IsFrontWord};

use named_log::LogName;
use redo_core::MAX_NUMBER;
use std::marker::{Model, PhantomData};

const NUMBER_COUNT: u64 = MAX_NUMBER + 1;

/// A front of the log that `L` names: an epoch that has begun, and a number that is linked in the view of that epoch.
/// Fronts are ordered by epoch, then by number.
#[derive(Clone, Copy)]
#[derive_where(Debug, PartialEq, Eq, PartialOrd, Ord)]
pub struct LogFront<L: LogName> {
    epoch: u16,
    number: u64,
    of: PhantomData<L>,
}

impl<L: LogName> Model for LogFront<L> {
    ghost use Rattle.std.specs.Prelude.{◌<◌};
    ghost use Rattle.redo_core.specs.LogFront.{IsLogFront};
    ghost use Rattle.front_board.specs.FrontWord.{FrontData, number_count};

    ghost Value = { FrontData };

    ghost view = { λ f. record { epoch = f.epoch; number = f.number } };

    ghost inverse = { λ f. record { epoch = f.epoch; number = f.number; of = record {} } };

    ghost invariant = { λ f. IsLogFront L.log f.epoch f.number × (f.number < number_count) };
}

impl<L: LogName> LogFront<L> {
    /// The front of an epoch and a number, of which the caller knows that it is one.
    pub fn new(epoch: u16, number: u64) -> LogFront<L>
        requires { IsLogFront L.log epoch number }
        ensures { result ≡ record { epoch = epoch; number = number } }
    {
        LogFront {
            epoch,
            number,
            of: PhantomData,
        }
    }

    pub fn epoch(&self) -> u16
        ensures value { result ≡ self.now.epoch }
        ensures front { IsLogFront L.log self.now.epoch self.now.number }
    {
        self.epoch
    }

    /// The log sequence number, from 0 to 2^48 - 1.
    pub fn number(&self) -> u64
        ensures value { result ≡ self.now.number }
        ensures bound { result ≤ max_number }
        ensures front { IsLogFront L.log self.now.epoch self.now.number }
    {
        self.number
    }

    pub(crate) fn word(&self) -> u64
        ensures value { result ≡ word_of self.now }
        ensures front { IsFrontWord L.log result }
    {
        self.epoch as u64 * NUMBER_COUNT + self.number
    }

    pub(crate) fn of_word(word: u64) -> LogFront<L>
        requires { IsFrontWord L.log word }
        ensures value { word_of result ≡ word }
        ensures front { IsLogFront L.log result.epoch result.number }
    {
        LogFront {
            epoch: (word / NUMBER_COUNT) as u16,
            number: word % NUMBER_COUNT,
            of: PhantomData,
        }
    }
}
