ghost use Rattle.std.specs.Prelude.{◌≡◌, ◌≢◌, ℕ, ◌<◌, max, length, replicate, IfOk};
ghost use Rattle.redo_core.specs.Roster.{IsRoster, IsReader, point_of, least};

use crate::advances::Advance;
use crate::rosters::Roster;
use std::alloc::{AllocError, Global};
use std::marker::Model;

/// Each reader's point, by reader: the LSN below which it no longer reads.
#[derive(Drop)]
pub struct ReadPoints {
    by_reader: Vec<u64>,
}

impl Model for ReadPoints {
    ghost use Rattle.std.specs.Prelude.{List, ℕ, length};
    ghost use Rattle.redo_core.specs.Roster.{IsRoster};

    ghost Value = { List ℕ };

    ghost view = { λ p. p.by_reader.items };

    ghost invariant = { λ p. IsRoster (length p.by_reader.items) };
}

impl ReadPoints {
    /// A point of 0 for each reader of a roster. The only error is an allocation failure.
    pub fn new(alloc: Global, roster: Roster) -> Result<Self, AllocError>
        ensures zeros { IfOk result (λ p. p ≡ replicate roster 0) }
        ensures range { IsRoster roster }
    {
        let by_reader = vec![in alloc; 0; usize::from(roster.readers())]?;
        Ok(ReadPoints { by_reader })
    }

    /// These points of 1 to 15 readers, reader 1's first. It allocates nothing.
    pub fn from_vec(points: Vec<u64>) -> Self
        requires { IsRoster (length points.items) }
        ensures { result ≡ points.items }
    {
        ReadPoints { by_reader: points }
    }

    /// Equal points with memory of their own. The only error is an allocation failure.
    pub fn copy(&self) -> Result<Self, AllocError>
        ensures { IfOk result (λ p. p ≡ self.now) }
    {
        self.clone()
    }

    /// How many readers there are, which is also the last reader's number.
    pub fn readers(&self) -> u8
        ensures value { result ≡ length self.now }
        ensures range { IsRoster (length self.now) }
    {
        self.by_reader.len() as u8
    }

    /// The points, reader 1's first.
    pub fn as_slice(&self) -> &[u64]
        ensures value { result.now ≡ self.now }
        ensures range { IsRoster (length self.now) }
    {
        &self.by_reader
    }

    /// The point of a reader.
    pub fn of(&self, reader: u8) -> u64
        requires { IsReader (length self.now) reader }
        ensures { result ≡ point_of self.now reader }
    {
        self.by_reader[usize::from(reader) - 1]
    }

    /// The least point: no reader reads below it.
    pub fn least(&self) -> u64
        ensures value { result ≡ least self.now }
        ensures range { IsRoster (length self.now) }
    {
        least_of(&self.by_reader)
    }

    /// Raises the point of an advance's reader to the advance's, where that is higher.
    pub fn raise(&mut self, advance: Advance)
        requires { IsReader (length self.old) advance.reader }
        ensures count { length self.new ≡ length self.old }
        ensures point { point_of self.new advance.reader ≡ max (point_of self.old advance.reader) advance.point }
        ensures others { (reader : ℕ) → IsReader (length self.old) reader → reader ≢ advance.reader → point_of self.new reader ≡ point_of self.old reader }
    {
        let place = usize::from(advance.reader()) - 1;
        if self.by_reader[place] < advance.point() {
            self.by_reader[place] = advance.point();
        }
    }
}

impl Clone for ReadPoints {
    ghost is_clone = { λ p copied. copied ≡ p };

    fn clone(&self) -> Result<Self, AllocError> {
        Ok(ReadPoints {
            by_reader: self.by_reader.clone()?,
        })
    }
}

fn least_of(points: &[u64]) -> u64
    requires { 0 < length points.now }
    ensures { result ≡ least points.now }
{
    let mut low = points[0];
    for p in points {
        low = low.min(*p);
    }
    low
}
