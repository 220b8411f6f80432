ghost use Rattle.std.specs.Prelude.{◌≡◌, ◌<◌, length, IfOk};
ghost use Rattle.redo_core.specs.Sets.{advances};
ghost use Rattle.redo_core.specs.Roster.{least};
ghost use Rattle.redo_core.specs.Points.{IsPoint, ArePoints};

use redo_core::{Fact, Roster};
use std::alloc::{AllocError, Global};

/// A reader's point: the greatest of its advances of epochs up to this one, or 0.
pub fn point(facts: &[Fact], epoch: u16, reader: u8) -> u64
    ensures { IsPoint (advances facts.now) epoch reader result }
{
    let mut greatest = 0;
    for fact in facts {
        if let Fact::Advance(advance) = fact {
            if advance.reader() == reader
                && advance.epoch() <= epoch
                && advance.point() > greatest
            {
                greatest = advance.point();
            }
        }
    }
    greatest
}

/// Each reader's point, by reader. The only error is an allocation failure.
pub fn points(
    alloc: Global,
    facts: &[Fact],
    roster: Roster,
    epoch: u16,
) -> Result<Vec<u64>, AllocError>
    ensures { IfOk result (λ v. ArePoints roster (advances facts.now) epoch v.items) }
{
    let mut points = Vec::new(alloc);
    for place in 0..roster.readers() {
        points.push(point(facts, epoch, place + 1))?;
    }
    Ok(points)
}

/// The minimum read point: the least of the readers' points.
pub fn min_point(points: &[u64]) -> u64
    requires { 0 < length points.now }
    ensures { result ≡ least points.now }
{
    let mut low = points[0];
    for p in points {
        low = low.min(*p);
    }
    low
}
