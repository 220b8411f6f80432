ghost use Rattle.std.specs.Prelude.{◌≡◌, ◌<◌, List, All, IfOk, OnOk, length};
ghost use Rattle.fleet_drill.specs.Parts.{MeansPart, HasAll};
ghost use Rattle.node_cell.specs.Kept.{MeansTrail};
ghost use Rattle.node_lock.specs.Trail.{Entry};

use named_log::LogName;
use node_cell::Closed;
use segment_core::{Refusal, Segment};
use segment_join::join;
use std::alloc::{AllocError, Global};
use std::marker::{Model, PhantomData};

/// A segment that means a part of the log.
#[derive(Drop)]
pub struct Joined<L: LogName> {
    segment: Segment,
    of: PhantomData<L>,
}

impl<L: LogName> Model for Joined<L> {
    ghost use Rattle.segment_theorems.specs.State.{State};
    ghost use Rattle.fleet_drill.specs.Parts.{MeansPart};

    ghost Value = { State };

    ghost view = { λ j. j.segment };

    ghost invariant = { λ j. MeansPart L.roster L.log j.segment };
}

impl<L: LogName> Joined<L> {
    fn copy_of(closed: &Closed<L>) -> Result<Self, AllocError>
        ensures { IfOk result (λ j. MeansTrail L.roster L.log j closed.now.trail) }
    {
        Ok(Joined {
            segment: closed.segment().copy()?,
            of: PhantomData,
        })
    }

    pub fn segment(&self) -> &Segment
        ensures value { result.now ≡ self.now }
        ensures part { MeansPart L.roster L.log result.now }
    {
        &self.segment
    }

    // Over one log a join is refused only if memory runs out.
    fn take_in(&mut self, other: &Closed<L>) -> Result<(), AllocError>
        ensures keeps { OnOk result ((trail : List Entry) → MeansTrail L.roster L.log self.old trail → MeansTrail L.roster L.log self.new trail) }
        ensures brings { OnOk result (MeansTrail L.roster L.log self.new other.now.trail) }
    {
        match join(&mut self.segment, other.segment()) {
            Ok(()) => Ok(()),
            Err(Refusal::Memory) => Err(AllocError),
            Err(_) => unreachable!(),
        }
    }
}

/// A copy of each node's segment, joined with those of all the others: it means a part of the log that has all facts which any of the
/// nodes acknowledged. It fails only if memory runs out.
pub fn join_all<L: LogName>(
    alloc: Global,
    closed: &[Closed<L>],
) -> Result<Vec<Joined<L>>, AllocError>
    ensures len { IfOk result (λ joined. length joined.items ≡ length closed.now) }
    ensures has { IfOk result (λ joined. All (λ j. HasAll L.roster L.log j closed.now) joined.items) }
{
    let mut joined = Vec::with_capacity(alloc, closed.len())?;
    for own in 0..closed.len() {
        joined.push(joined_with(own, closed)?)?;
    }
    Ok(joined)
}

// The copy of this node's segment.
fn joined_with<L: LogName>(own: usize, closed: &[Closed<L>]) -> Result<Joined<L>, AllocError>
    requires { own < length closed.now }
    ensures { IfOk result (λ j. HasAll L.roster L.log j closed.now) }
{
    let mut joined = Joined::copy_of(&closed[own])?;
    for place in 0..closed.len() {
        if place != own {
            joined.take_in(&closed[place])?;
        }
    }
    Ok(joined)
}
