ghost use Rattle.std.specs.Prelude.{◌↔◌, length, IsTrue};
ghost use Rattle.std.specs.List.{All};
ghost use Rattle.redo_core.specs.Order.{IsRising, AdvanceBefore};
ghost use Rattle.redo_core.specs.Roster.{IsReader};
ghost use Rattle.redo_core.specs.Points.{RaisesPoints};
ghost use Rattle.redo_core.specs.Past.{IsPast, IsKnownPast};
ghost use Rattle.epoch_book.specs.Refusing.{OthersPast};

use crate::advances::earlier;
use redo_core::{Advance, Cut, ReadPoints};

/// Raises each reader's point to the greatest of the advances of epochs up to the complete one.
pub(crate) fn raise_points(points: &mut ReadPoints, waits: &[Advance], complete: u16)
    requires rising { IsRising AdvanceBefore waits.now }
    requires readers { All (λ a. IsReader (length points.old) a.reader) waits.now }
    ensures { RaisesPoints complete points.old waits.now points.new }
{
    raise_each(points, earlier(waits, u32::from(complete) + 1), complete);
}

fn raise_each(points: &mut ReadPoints, waits: &[Advance], complete: u16)
    requires { All (λ a. IsReader (length points.old) a.reader) waits.now }
    ensures { RaisesPoints complete points.old waits.now points.new }
{
    for wait in waits {
        if wait.epoch() <= complete {
            points.raise(*wait);
        }
    }
}

/// Whether each reader but one is known to be past the truncation.
pub(crate) fn others_past(points: &ReadPoints, waits: &[Advance], cut: Cut, but: u8) -> bool
    requires { IsRising AdvanceBefore waits.now }
    ensures { IsTrue result ↔ OthersPast points.now waits.now cut but }
{
    are_past(points, earlier(waits, u32::from(cut.epoch())), cut, but)
}

fn are_past(points: &ReadPoints, waits: &[Advance], cut: Cut, but: u8) -> bool
    ensures { IsTrue result ↔ OthersPast points.now waits.now cut but }
{
    for i in 0..points.readers() {
        let reader = i + 1;
        if reader != but && !is_known_past(points, waits, cut, reader) {
            return false;
        }
    }
    true
}

fn is_known_past(points: &ReadPoints, waits: &[Advance], cut: Cut, reader: u8) -> bool
    requires { IsReader (length points.now) reader }
    ensures { IsTrue result ↔ IsKnownPast points.now waits.now cut reader }
{
    cut.lo() < points.of(reader) || is_past(waits, cut, reader)
}

/// Whether a waiting advance of the reader, of an epoch before the truncation's, has a point above its `lo`.
pub(crate) fn is_past(waits: &[Advance], cut: Cut, reader: u8) -> bool
    ensures { IsTrue result ↔ IsPast waits.now cut reader }
{
    for wait in waits {
        if wait.reader() == reader && wait.epoch() < cut.epoch() && cut.lo() < wait.point() {
            return true;
        }
    }
    false
}
