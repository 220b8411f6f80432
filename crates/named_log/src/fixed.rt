//! What the contracts determine, so that no other body meets them: the log of a drill, in one way. Called by nobody.

ghost use Rattle.std.specs.Prelude.{◌≡◌, IfOk};

use crate::drill::Drill;
use crate::names::LogName;
use redo_core::Fact;
use std::alloc::{AllocError, Global};

fn drill_is_told_one_way<const N: u64>(
    alloc: Global,
    place: u64,
) -> Result<(Option<Fact>, Option<Fact>), AllocError>
    ensures { IfOk result (λ both. both.0 ≡ both.1) }
{
    let one = <Drill<N> as LogName>::fact(alloc, place)?;
    let other = <Drill<N> as LogName>::fact(alloc, place)?;
    Ok((one, other))
}
