ghost use Rattle.std.specs.Prelude.{◌↔◌, IsTrue};
ghost use Rattle.redo_core.specs.Sets.{cuts};
ghost use Rattle.redo_core.specs.Standing.{IsAlive, SparesIn};
ghost use Rattle.reference_model.specs.Stands.{StandsAs};

use crate::views::ModelStanding;
use redo_core::{Cut, Fact};

/// The standing of a record of this epoch and LSN in a view.
pub fn standing(facts: &[Fact], view: u16, epoch: u16, number: u64) -> ModelStanding
    ensures { StandsAs (cuts facts.now) view epoch number result }
{
    if epoch > view {
        ModelStanding::Waiting
    } else if is_alive(facts, view, epoch, number) {
        ModelStanding::Alive
    } else {
        ModelStanding::Dead
    }
}

/// Whether a record of this epoch and LSN is alive in a view.
pub fn is_alive(facts: &[Fact], view: u16, epoch: u16, number: u64) -> bool
    ensures { IsTrue result ↔ IsAlive (cuts facts.now) view epoch number }
{
    if epoch > view {
        return false;
    }
    for fact in facts {
        if let Fact::Cut(cut) = fact {
            if !spares(cut, view, epoch, number) {
                return false;
            }
        }
    }
    true
}

// Whether a truncation leaves such a record alive in a view.
pub(crate) fn spares(cut: &Cut, view: u16, epoch: u16, number: u64) -> bool
    ensures { IsTrue result ↔ SparesIn view epoch number cut.now }
{
    if cut.epoch() == epoch {
        return cut.hi() < number;
    }
    cut.epoch() < epoch || cut.epoch() > view || number <= cut.lo()
}
