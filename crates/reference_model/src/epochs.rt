ghost use Rattle.std.specs.Prelude.{◌≡◌, ◌<◌, ◌↔◌, IsTrue};
ghost use Rattle.redo_core.specs.Shape.{epoch_count};
ghost use Rattle.redo_core.specs.Sets.{cuts};
ghost use Rattle.redo_core.specs.CompleteEpoch.{IsCompleteEpoch, HasCut};

use redo_core::Fact;

/// The greatest epoch up to which all truncations are known.
pub fn complete_epoch(facts: &[Fact]) -> u16
    ensures { IsCompleteEpoch (cuts facts.now) result }
{
    let mut epoch: u32 = 0;
    while has_cut(facts, epoch + 1) {
        epoch += 1;
    }
    epoch as u16
}

// Whether there is a truncation of this epoch.
fn has_cut(facts: &[Fact], epoch: u32) -> bool
    ensures found { IsTrue result ↔ HasCut (cuts facts.now) epoch }
    ensures small { IsTrue result → epoch < epoch_count }
{
    for fact in facts {
        if let Fact::Cut(cut) = fact {
            if u32::from(cut.epoch()) == epoch {
                return true;
            }
        }
    }
    false
}
