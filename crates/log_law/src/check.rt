ghost use Rattle.std.specs.Prelude.{◌≡◌, ℕ, List, IfOk, OnOk, IfErr, IsTrue, MatchOption, true, false, take, slice_get, Some};
ghost use Rattle.redo_core.specs.Sound.{IsSound, KeepsLaws, Law1};
ghost use Rattle.redo_core.specs.declared.facts.Fact.{Fact};
ghost use Rattle.redo_core.specs.Fault.{BreaksFirst};
ghost use Rattle.log_law.specs.Counted.{Describes, HasLeastLaterLo};
ghost use Rattle.log_law.specs.Keys.{IsFirstKeyConflict};
ghost use Rattle.log_law.specs.Links.{IsFirstBrokenLink};
ghost use Rattle.log_law.specs.Report.{Reports, ReportsFault, LinkJudges, IsLawAt};

use crate::counted::CountedCuts;
use crate::keys::first_key_conflict;
use crate::links::{BrokenLink, first_broken_link};
use redo_core::{Fact, Law, LawFault, Roster};
use std::alloc::{AllocError, Global};
use thiserror::Error;

/// Why a log was not found sound.
#[derive(Clone, Copy, Debug, PartialEq, Eq, Error)]
pub enum CheckFault {
    /// The least index that breaks a law, with the least law that it breaks.
    #[error("the log is not sound")]
    Unsound(LawFault),
    #[error("out of memory")]
    Memory,
}

/// Whether a log of the roster is sound.
///
/// Errors: `Unsound` exactly where it is not; `Memory`, which implies nothing about the log.
pub fn check_log(alloc: Global, facts: &[Fact], roster: Roster) -> Result<(), CheckFault>
    ensures sound { OnOk result (IsSound roster facts.now) }
    ensures unsound { IfErr result (ReportsFault roster facts.now) }
{
    match first_fault(alloc, facts, roster) {
        Ok(None) => Ok(()),
        Ok(Some(fault)) => Err(CheckFault::Unsound(fault)),
        Err(_) => Err(CheckFault::Memory),
    }
}

fn first_fault(
    alloc: Global,
    facts: &[Fact],
    roster: Roster,
) -> Result<Option<LawFault>, AllocError>
    ensures { IfOk result (λ found. MatchOption found (IsSound roster facts.now) (Reports roster facts.now)) }
{
    let cuts = CountedCuts::new(alloc, facts, roster)?;
    let other = first_key_conflict(alloc, facts, &cuts)?;
    let link = first_broken_link(alloc, facts, &cuts)?;
    Ok(least_fault(facts, roster, &cuts, other, link))
}

fn least_fault(
    facts: &[Fact],
    roster: Roster,
    cuts: &CountedCuts,
    other: usize,
    link: Option<BrokenLink>,
) -> Option<LawFault>
    requires cuts { Describes facts.now cuts.now }
    requires least_later_lo { HasLeastLaterLo roster facts.now cuts.now }
    requires other { IsFirstKeyConflict facts.now other }
    requires link { IsFirstBrokenLink facts.now link }
    ensures { MatchOption result (IsSound roster facts.now) (Reports roster facts.now) }
{
    for (place, fact) in facts.iter().enumerate() {
        if let Some(law) = broken_law(fact, cuts, place == other, law_at(link, place)) {
            return Some(LawFault {
                law,
                place: place as u64 + 1,
            });
        }
    }
    None
}

fn law_at(link: Option<BrokenLink>, place: usize) -> Option<Law>
    ensures { IsLawAt link place result }
{
    match link {
        Some(broken) if broken.place == place => Some(broken.law),
        _ => None,
    }
}

fn broken_law(fact: &Fact, cuts: &CountedCuts, is_other: bool, link: Option<Law>) -> Option<Law>
    ensures { (roster : ℕ) (log : List Fact) (place : ℕ) → Describes log cuts.now → HasLeastLaterLo roster log cuts.now → slice_get log place ≡ Some fact.now
        → (is_other ≡ true → Law1 (take place log) fact.now → ⊥) → (is_other ≡ false → Law1 (take place log) fact.now) → LinkJudges log fact.now link
        → MatchOption result (KeepsLaws roster log place fact.now) (BreaksFirst roster log place fact.now) }
{
    if is_other {
        return Some(Law::OneFactPerKey);
    }
    match fact {
        Fact::Record(redo) => {
            if cuts.admits(redo.epoch(), redo.number()) {
                link
            } else {
                Some(Law::EpochBegun)
            }
        }
        Fact::Cut(_) => None,
        Fact::Advance(advance) => {
            if cuts.spares(*advance) {
                None
            } else {
                Some(Law::AdvanceKept)
            }
        }
    }
}
