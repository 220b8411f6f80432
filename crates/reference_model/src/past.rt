ghost use Rattle.std.specs.Prelude.{◌↔◌, IsTrue};
ghost use Rattle.redo_core.specs.Sets.{advances};
ghost use Rattle.redo_core.specs.Past.{IsPast, ArePast};

use redo_core::{Cut, Fact};

// Whether each of so many readers is past a truncation.
pub(crate) fn are_past(log: &[Fact], readers: u8, cut: &Cut) -> bool
    ensures { IsTrue result ↔ ArePast readers (advances log.now) cut.now }
{
    for place in 0..readers {
        if !is_past(log, place + 1, cut) {
            return false;
        }
    }
    true
}

// Whether an advance of the reader, of an epoch before the truncation's, has a point above its `lo`.
fn is_past(log: &[Fact], reader: u8, cut: &Cut) -> bool
    ensures { IsTrue result ↔ IsPast (advances log.now) cut.now reader }
{
    for fact in log {
        if let Fact::Advance(advance) = fact {
            if advance.reader() == reader
                && advance.epoch() < cut.epoch()
                && advance.point() > cut.lo()
            {
                return true;
            }
        }
    }
    false
}
