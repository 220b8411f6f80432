//! What the contracts determine, so that no other body meets them. Each function states a theorem and is called by nobody.

ghost use Rattle.std.specs.Prelude.{◌≡◌, IfSome, MatchOption};
ghost use Rattle.redo_core.specs.Sound.{IsSound};
ghost use Rattle.log_law.specs.Breach.{ShowsBroken};
ghost use Rattle.log_law.specs.Report.{Reports};

use crate::check::{CheckFault, check_log};
use crate::writer::Writer;
use redo_core::{Fact, LawFault, Roster};
use std::alloc::Global;

// The first fault, or none; nothing where an allocation failed.
fn verdict(alloc: Global, facts: &[Fact], roster: Roster) -> Option<Option<LawFault>>
    ensures { IfSome result (λ found. MatchOption found (IsSound roster facts.now) (Reports roster facts.now)) }
{
    match check_log(alloc, facts, roster) {
        Ok(()) => Some(None),
        Err(CheckFault::Unsound(fault)) => Some(Some(fault)),
        Err(CheckFault::Memory) => None,
    }
}

fn log_is_judged_one_way(
    alloc: Global,
    facts: &[Fact],
    roster: Roster,
) -> Option<(Option<LawFault>, Option<LawFault>)>
    ensures { IfSome result (λ both. both.0 ≡ both.1) }
{
    let one = verdict(alloc, facts, roster)?;
    let other = verdict(alloc, facts, roster)?;
    Some((one, other))
}

fn log_is_told_one_way(writer: &Writer) -> (&[Fact], &[Fact])
    ensures { result.0.now ≡ result.1.now }
{
    (writer.log(), writer.log())
}

// A breach implies that the fault is one.
fn breach_shows_broken()
    ensures { ShowsBroken }
{}
