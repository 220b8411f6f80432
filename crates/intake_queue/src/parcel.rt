ghost use Rattle.std.specs.Prelude.{◌≡◌};

use named_log::{LogFact, LogName};
use std::marker::Model;

/// A fact of the log that `L` names, on its way from a sender.
#[derive(Drop)]
pub struct Parcel<L: LogName> {
    sender: u64,
    number: u64,
    fact: LogFact<L>,
}

impl<L: LogName> Model for Parcel<L> {
    ghost use Rattle.intake_queue.specs.Parcel.{ParcelData};

    ghost Value = { ParcelData };

    ghost view = { λ p. record { sender = p.sender; number = p.number; fact = p.fact } };
}

impl<L: LogName> Parcel<L> {
    pub(crate) fn new(sender: u64, number: u64, fact: LogFact<L>) -> Parcel<L>
        ensures { result ≡ record { sender = sender; number = number; fact = fact } }
    {
        Parcel {
            sender,
            number,
            fact,
        }
    }

    /// The number of the sender, from 1.
    pub fn sender(&self) -> u64
        ensures { result ≡ self.now.sender }
    {
        self.sender
    }

    /// The number of the parcel among those of its sender, from 1.
    pub fn number(&self) -> u64
        ensures { result ≡ self.now.number }
    {
        self.number
    }

    pub fn fact(&self) -> &LogFact<L>
        ensures { result.now ≡ self.now.fact }
    {
        &self.fact
    }

    pub fn into_fact(self) -> LogFact<L>
        ensures { result ≡ self.fact }
    {
        self.fact
    }
}
