ghost use Rattle.std.specs.Prelude.{◌≡◌, ◌≤◌, IfOk};
ghost use Rattle.named_log.specs.Places.{fact_at};
ghost use Rattle.named_log.specs.DrillLog.{drill_log, drill_advance, drill_cut};

use crate::drill_records::{first_epoch_record, second_epoch_record};
use redo_core::{Advance, Cut, Fact};
use std::alloc::{AllocError, Global};

pub(crate) fn fact_at_place(
    alloc: Global,
    size: u64,
    place: u64,
) -> Result<Option<Fact>, AllocError>
    requires { (2 ≤ size) × (size ≤ 1048576) }
    ensures { IfOk result (λ found. found ≡ fact_at (drill_log size) place) }
{
    if place == 0 || place > 2 * size + 2 {
        return Ok(None);
    }
    if place <= size {
        return Ok(Some(first_epoch_record(alloc, place)?));
    }
    if place == size + 1 {
        return Ok(Some(Fact::Advance(advance(size))));
    }
    if place == size + 2 {
        return Ok(Some(Fact::Cut(cut(size))));
    }
    Ok(Some(second_epoch_record(alloc, size, place - (size + 2))?))
}

fn advance(size: u64) -> Advance
    requires { (2 ≤ size) × (size ≤ 1048576) }
    ensures { result ≡ drill_advance size }
{
    match Advance::new(0, size / 2) {
        Ok(advance) => advance,
        Err(_) => unreachable!(),
    }
}

fn cut(size: u64) -> Cut
    requires { (2 ≤ size) × (size ≤ 1048576) }
    ensures { result ≡ drill_cut size }
{
    match Cut::new(1, size / 2, size + 8) {
        Ok(cut) => cut,
        Err(_) => unreachable!(),
    }
}
