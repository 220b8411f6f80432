//! What the contracts determine, so that no other body meets them. Each function states a theorem and is called by nobody.

ghost use Rattle.std.specs.Prelude.{◌≡◌};

use crate::epochs::complete_epoch;
use crate::links::{anchor, complete_point};
use crate::standings::standing;
use crate::views::ModelStanding;
use redo_core::Fact;

fn complete_epoch_has_one_answer(facts: &[Fact]) -> (u16, u16)
    ensures { result.0 ≡ result.1 }
{
    (complete_epoch(facts), complete_epoch(facts))
}

fn standing_has_one_answer(
    facts: &[Fact],
    view: u16,
    epoch: u16,
    number: u64,
) -> (ModelStanding, ModelStanding)
    ensures { result.0 ≡ result.1 }
{
    (
        standing(facts, view, epoch, number),
        standing(facts, view, epoch, number),
    )
}

fn complete_point_has_one_answer(facts: &[Fact], view: u16) -> (u64, u64)
    ensures { result.0 ≡ result.1 }
{
    (complete_point(facts, view), complete_point(facts, view))
}

fn anchor_has_one_answer(facts: &[Fact], view: u16, min: u64) -> (u64, u64)
    ensures { result.0 ≡ result.1 }
{
    (anchor(facts, view, min), anchor(facts, view, min))
}
