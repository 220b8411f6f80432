ghost use Rattle.std.specs.Prelude.{◌≡◌, ◌↔◌, Some, IfOk, IsSome};
ghost use Rattle.named_log.specs.Places.{IsLogPlace, fact_at, placed};

use crate::names::LogName;
use redo_core::Fact;
use std::alloc::{AllocError, Global};
use std::marker::{Model, PhantomData};

/// A fact of the log that `L` names, with its index (`place`) in it.
#[derive(Drop)]
pub struct LogFact<L: LogName> {
    place: u64,
    fact: Fact,
    of: PhantomData<L>,
}

impl<L: LogName> Model for LogFact<L> {
    ghost use Rattle.std.specs.Prelude.{◌≡◌, Some};
    ghost use Rattle.named_log.specs.Places.{PlacedFact, fact_at};

    ghost Value = { PlacedFact };

    ghost view = { λ f. record { place = f.place; fact = f.fact } };

    ghost invariant = { λ f. fact_at L.log f.place ≡ Some f.fact };
}

impl<L: LogName> LogFact<L> {
    /// The fact at an index of the log, from 1, where the caller proves that it is there.
    pub fn new(place: u64, fact: Fact) -> LogFact<L>
        requires { fact_at L.log place ≡ Some fact }
        ensures { result ≡ record { place = place; fact = fact } }
    {
        LogFact {
            place,
            fact,
            of: PhantomData,
        }
    }

    /// The fact at an index of the log, from 1, or none outside it. The only error is an allocation failure.
    pub fn at(alloc: Global, place: u64) -> Result<Option<LogFact<L>>, AllocError>
        ensures value { IfOk result (λ found. found ≡ placed place (fact_at L.log place)) }
        ensures inside { IfOk result (λ found. IsSome found ↔ IsLogPlace L.log place) }
    {
        match L::fact(alloc, place)? {
            Some(fact) => Ok(Some(LogFact {
                place,
                fact,
                of: PhantomData,
            })),
            None => Ok(None),
        }
    }

    /// The index of the fact in its log, from 1.
    pub fn place(&self) -> u64
        ensures value { result ≡ self.now.place }
        ensures stands { fact_at L.log result ≡ Some self.now.fact }
    {
        self.place
    }

    /// The fact, borrowed.
    pub fn fact(&self) -> &Fact
        ensures value { result.now ≡ self.now.fact }
        ensures stands { fact_at L.log self.now.place ≡ Some result.now }
    {
        &self.fact
    }

    /// The fact alone, moved out without allocation.
    pub fn into_fact(self) -> Fact
        ensures value { result ≡ self.fact }
        ensures stands { fact_at L.log self.place ≡ Some result }
    {
        self.fact
    }
}
