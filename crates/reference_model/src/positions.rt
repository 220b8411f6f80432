ghost use Rattle.std.specs.Prelude.{IfOk};
ghost use Rattle.redo_core.specs.Position.{IsPosition};
ghost use Rattle.reference_model.specs.Stands.{position_of};

use crate::epochs::complete_epoch;
use crate::links::{anchor, complete_point};
use crate::readers::{min_point, points};
use crate::views::Position;
use redo_core::{Fact, Roster};
use std::alloc::{AllocError, Global};

/// The position of the facts in the view of their complete epoch. The only error is an allocation failure.
pub fn position(alloc: Global, facts: &[Fact], roster: Roster) -> Result<Position, AllocError>
    ensures { IfOk result (λ p. IsPosition roster facts.now (position_of p)) }
{
    let epoch = complete_epoch(facts);
    let points = points(alloc, facts, roster, epoch)?;
    let min = min_point(&points);
    Ok(Position {
        epoch,
        complete: complete_point(facts, epoch),
        points,
        min,
        anchor: anchor(facts, epoch, min),
    })
}
