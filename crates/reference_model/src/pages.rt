ghost use Rattle.std.specs.Prelude.{ℕ, ◌<◌, ◌↔◌, List, IsTrue, IfOk, MatchOption};
ghost use Rattle.redo_core.specs.Sets.{cuts, IsPart};
ghost use Rattle.redo_core.specs.CompleteEpoch.{HasCutsTo};
ghost use Rattle.redo_core.specs.PageAt.{IsPageAt};
ghost use Rattle.redo_core.specs.Sound.{IsSound};
ghost use Rattle.redo_core.specs.declared.facts.Fact.{Fact as TheFact};
ghost use Rattle.reference_model.specs.PageRecords.{HasNumbersOnce, StandsInPage, IsNextPageRecord, HasNoNext};

use crate::links::is_linked;
use crate::standings::is_alive;
use redo_core::{Fact, Page, Record, apply};
use std::alloc::{AllocError, Global};

/// The page at a point in a view: zeros, then the linked records of the page up to the point, in rising order.
///
/// It is defined for facts whose linked records of the page have each LSN once, as those of a sound log have.
/// The only error is an allocation failure.
pub fn page_at(
    alloc: Global,
    facts: &[Fact],
    view: u16,
    page: u16,
    point: u64,
) -> Result<Page, AllocError>
    ensures page { HasNumbersOnce facts.now view page point → IfOk result (IsPageAt facts.now view page point) }
    ensures sound { (roster : ℕ) (log : List TheFact) → IsSound roster log → IsPart facts.now log → HasCutsTo (cuts facts.now) view →
        IfOk result (IsPageAt facts.now view page point) }
{
    let mut image = Page::zeros(alloc)?;
    let mut from = 0;
    while let Some(redo) = next_record(facts, view, page, from, point) {
        apply(redo, &mut image);
        from = redo.number() + 1;
    }
    Ok(image)
}

// The linked record of the page with the least LSN from `from` up to a point.
fn next_record(facts: &[Fact], view: u16, page: u16, from: u64, point: u64) -> Option<&Record>
    ensures { MatchOption result (HasNoNext facts.now view page from point) (λ r. IsNextPageRecord facts.now view page from point r.now) }
{
    let mut next: Option<&Record> = None;
    for fact in facts {
        if let Fact::Record(redo) = fact {
            if stands_in_page(facts, view, page, point, redo)
                && redo.number() >= from
                && is_before(redo, next)
            {
                next = Some(redo);
            }
        }
    }
    next
}

// Whether the record has a lower LSN than one that was found before.
fn is_before(redo: &Record, next: Option<&Record>) -> bool
    ensures { IsTrue result ↔ MatchOption next.entry (Unit {0}) (λ other. redo.now.number < other.now.number) }
{
    match next {
        Some(other) => redo.number() < other.number(),
        None => true,
    }
}

fn stands_in_page(facts: &[Fact], view: u16, page: u16, point: u64, redo: &Record) -> bool
    ensures { IsTrue result ↔ StandsInPage facts.now view page point redo.now }
{
    redo.page() == page
        && redo.number() <= point
        && is_alive(facts, view, redo.epoch(), redo.number())
        && is_linked(facts, view, redo.number())
}
