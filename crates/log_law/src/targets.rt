ghost use Rattle.std.specs.Prelude.{◌≡◌, ℕ, ◌<◌, ◌↔◌, List, IfOk, IsTrue, MatchOption, min};
ghost use Rattle.redo_core.specs.Sound.{counted};
ghost use Rattle.redo_core.specs.Standing.{IsAlive};
ghost use Rattle.redo_core.specs.declared.facts.Fact.{Fact};
ghost use Rattle.log_law.specs.Counted.{Describes};
ghost use Rattle.log_law.specs.Targets.{IsOfPage, AreBoundsTo, IsTarget};

use crate::counted::{CountedCuts, filled};
use redo_core::{Cut, Fact, MAX_NUMBER, Record};
use std::alloc::{AllocError, Global};

/// The greatest LSN that a backlink may name, or 0, and the index (from 1) of its record.
#[derive(Clone, Copy)]
pub(crate) struct Target {
    pub(crate) place: u64,
    pub(crate) number: u64,
}

/// What a backlink of a record should name, in the chain of a page or of all pages. The only error is an allocation failure.
pub(crate) fn target_of(
    alloc: Global,
    facts: &[Fact],
    cuts: &CountedCuts,
    redo: &Record,
    page: Option<u16>,
) -> Result<Target, AllocError>
    requires { Describes facts.now cuts.now }
    ensures { IfOk result (IsTarget facts.now redo.now (λ s. IsOfPage page s)) }
{
    let bounds = alive_bounds(alloc, cuts, redo.epoch())?;
    Ok(target_among(facts, cuts, &bounds, redo, page))
}

/// For each epoch up to the view's, the greatest LSN of a record that the later truncations leave alive.
fn alive_bounds(alloc: Global, cuts: &CountedCuts, view: u16) -> Result<Vec<u64>, AllocError>
    ensures { (log : List Fact) → Describes log cuts.now → IfOk result (λ v. AreBoundsTo log view v.items) }
{
    let mut bounds = filled(alloc, MAX_NUMBER, usize::from(view) + 1)?;
    let mut epoch = view;
    while epoch > 0 {
        let place = usize::from(epoch);
        let later = bounds[place];
        bounds[place - 1] = lowered(later, cuts.at(epoch));
        epoch -= 1;
    }
    Ok(bounds)
}

/// A bound, or the `lo` of a truncation that is lower.
fn lowered(bound: u64, cut: Option<Cut>) -> u64
    ensures { MatchOption cut (result ≡ bound) (λ c. result ≡ min c.lo bound) }
{
    match cut {
        Some(cut) => cut.lo().min(bound),
        None => bound,
    }
}

fn target_among(
    facts: &[Fact],
    cuts: &CountedCuts,
    bounds: &[u64],
    redo: &Record,
    page: Option<u16>,
) -> Target
    requires cuts { Describes facts.now cuts.now }
    requires bounds { AreBoundsTo facts.now redo.now.epoch bounds.now }
    ensures { IsTarget facts.now redo.now (λ s. IsOfPage page s) result }
{
    let mut target = Target {
        place: 0,
        number: 0,
    };
    for (place, fact) in facts.iter().enumerate() {
        if let Fact::Record(other) = fact {
            let number = other.number();
            if target.number < number && is_candidate(other, redo, page, cuts, bounds) {
                target = Target {
                    place: place as u64 + 1,
                    number,
                };
            }
        }
    }
    target
}

/// Whether a backlink of `redo` may name another record, in the view of the bounds.
fn is_candidate(
    other: &Record,
    redo: &Record,
    page: Option<u16>,
    cuts: &CountedCuts,
    bounds: &[u64],
) -> bool
    ensures { (log : List Fact) → Describes log cuts.now → AreBoundsTo log redo.now.epoch bounds.now
        → IsTrue result ↔ (IsAlive (counted log) redo.now.epoch other.now.epoch other.now.number × IsOfPage page other.now × (other.now.number < redo.now.number)) }
{
    other.number() < redo.number() && is_of_page(other, page) && is_alive(other, cuts, bounds)
}

fn is_of_page(redo: &Record, page: Option<u16>) -> bool
    ensures { IsTrue result ↔ IsOfPage page redo.now }
{
    match page {
        Some(page) => redo.page() == page,
        None => true,
    }
}

/// Whether a record is alive in the view of the bounds.
fn is_alive(redo: &Record, cuts: &CountedCuts, bounds: &[u64]) -> bool
    ensures { (log : List Fact) (view : ℕ) → Describes log cuts.now → AreBoundsTo log view bounds.now
        → IsTrue result ↔ IsAlive (counted log) view redo.now.epoch redo.now.number }
{
    let epoch = usize::from(redo.epoch());
    if epoch >= bounds.len() {
        return false;
    }
    redo.number() <= bounds[epoch] && cuts.is_above_hi(redo.epoch(), redo.number())
}
